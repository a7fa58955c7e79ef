//! Reads single words of an event's line: a client's port, a logical name, a number of one byte.
ghost use Rattle.std.specs.Prelude.{◌≡◌};
ghost use Rattle.trace_words.specs.Reading.{number_in, next_as};
ghost use Rattle.trace_words.specs.Rows.{Reads};
ghost use Rattle.trace_lines.specs.Reading.{level_in, name_in};

use cosem_names::{Level, Obis};
use text_lines::{Words, read_hex_array};
use trace_words::{RowFault, next_word, parse_number};

// Reads the access level of a client's port: 1 for the management client, 16 for the public one.
pub(crate) fn parse_level(word: &[u8]) -> Result<Level, RowFault>
    ensures { result ≡ level_in word.now }
{
    match parse_number(word, 16)? {
        1 => Ok(Level::Management),
        16 => Ok(Level::Public),
        _ => Err(RowFault::Wrong),
    }
}

// Reads a logical name, six bytes in hexadecimal.
#[tactic(auto, using(crate::proofs::NameLemmas::name_found, crate::proofs::NameLemmas::name_missing))]
pub(crate) fn parse_name(word: &[u8]) -> Result<Obis, RowFault>
    ensures { result ≡ name_in word.now }
{
    match read_hex_array(word) {
        Some(name) => Ok(Obis(name)),
        None => Err(RowFault::Wrong),
    }
}

// Reads the next word as a decimal number of at most 255.
pub(crate) fn next_byte(words: &mut Words) -> Result<u8, RowFault>
    ensures { Reads (λ number. number) result words.new (next_as (number_in 255) words.old) }
{
    Ok(parse_number(next_word(words)?, 255)? as u8)
}

// Reads the next word as a logical name.
pub(crate) fn next_name(words: &mut Words) -> Result<Obis, RowFault>
    ensures { Reads (λ name. name) result words.new (next_as name_in words.old) }
{
    parse_name(next_word(words)?)
}
