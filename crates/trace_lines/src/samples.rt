//! Reads power samples and pairs of samples from the words of a line, at most 256.
ghost use Rattle.std.specs.Prelude.{◌≡◌, ◌∷◌};
ghost use Rattle.lane_sampler.specs.declared.samples.TheConstants.{MAX_VALUES};
ghost use Rattle.trace_words.specs.Parts.{items_to_end};
ghost use Rattle.trace_words.specs.Rows.{Reads};
ghost use Rattle.trace_words.specs.Reading.{value_in};
ghost use Rattle.trace_lines.specs.Parts.{sample_part, pair_part};

use lane_sampler::MAX_VALUES;
use std::alloc::Global;
use text_lines::Words;
use trace_words::{RowFault, next_word, parse_number};

// Reads a sample, in watts.
fn parse_value(word: &[u8]) -> Result<u32, RowFault>
    ensures { result ≡ value_in word.now }
{
    parse_number(word, u32::MAX)
}

// Reads a pair of samples: the import value (the word given), then the export value.
fn read_pair(word: &[u8], words: &mut Words) -> Result<(u32, u32), RowFault>
    ensures { Reads (λ pair. pair) result words.new (pair_part.read (word.now ∷ words.old)) }
{
    let import = parse_value(word)?;
    let export = parse_value(next_word(words)?)?;
    Ok((import, export))
}

// Reads samples up to the end of the line, at most 256.
pub(crate) fn read_values(alloc: Global, words: &mut Words) -> Result<Vec<u32>, RowFault>
    ensures { Reads (λ values. values.items) result words.new
        ((items_to_end MAX_VALUES sample_part).read words.old) }
{
    let mut values = Vec::with_capacity(alloc, MAX_VALUES)?;
    'items: while let Some(word) = words.next() {
        if values.len() == MAX_VALUES {
            return Err(RowFault::Wrong);
        }
        values.push(parse_value(word)?)?;
    }
    Ok(values)
}

// Reads pairs of samples up to the end of the line, at most 256.
pub(crate) fn read_pairs(alloc: Global, words: &mut Words) -> Result<Vec<(u32, u32)>, RowFault>
    ensures { Reads (λ pairs. pairs.items) result words.new
        ((items_to_end MAX_VALUES pair_part).read words.old) }
{
    let mut pairs = Vec::new(alloc);
    'items: while let Some(word) = words.next() {
        if pairs.len() == MAX_VALUES {
            return Err(RowFault::Wrong);
        }
        pairs.push(read_pair(word, words)?)?;
    }
    Ok(pairs)
}
