//! Reads a Data from a word of hexadecimal digits, which must be its encoding in the shortest form.
ghost use Rattle.std.specs.Prelude.{◌≡◌};
ghost use Rattle.wire_bytes.specs.Outcome.{Gives};
ghost use Rattle.std.specs.Cmp.Lexicographic.{pointwise};
ghost use Rattle.std.specs.Prelude.{nat_eq, IfOk};
ghost use Rattle.cosem_axdr.specs.Spelling.{text};
ghost use Rattle.cosem_axdr.specs.View.{tree_of};
ghost use Rattle.trace_words.specs.Reading.{canonical_data, data_in};
ghost use Rattle.trace_words.specs.declared.fault.RowFault.TheVariants.{Memory};

use crate::fault::RowFault;
use crate::words::parse_bytes;
use cosem_axdr::{Data, DataFault, Octets, read, write};
use std::alloc::{AllocError, Global};

// Returns whether `bytes` is the encoding that is written for a value.
fn is_written(alloc: Global, value: &Data, bytes: &[u8]) -> Result<bool, AllocError>
    ensures { IfOk result (λ is. is ≡ pointwise nat_eq (text (tree_of value.now)) bytes.now) }
{
    let mut text = Octets::new(alloc);
    write(alloc, value, &mut text)?;
    Ok(text.as_slice() == bytes)
}

// Returns `value` if its written encoding is `bytes`, from which it was read. Errors: `Wrong` if
// not; `Memory`.
fn check_written(alloc: Global, value: Data, bytes: &[u8]) -> Result<Data, RowFault>
    ensures { Gives Memory (λ value. value) result (canonical_data bytes.now value) }
{
    match is_written(alloc, &value, bytes) {
        Ok(true) => Ok(value),
        Ok(false) => {
            drop(value);
            Err(RowFault::Wrong)
        }
        Err(_) => {
            drop(value);
            Err(RowFault::Memory)
        }
    }
}

/// Reads a Data in A-XDR, written in hexadecimal. Errors: `Wrong` if the bytes are not the encoding
/// that is written for a Data; `Memory`.
#[tactic(auto, unfolding(crate::specs::Reading::data_in))]
pub fn parse_data(alloc: Global, word: &[u8]) -> Result<Data, RowFault>
    ensures { Gives Memory (λ value. value) result (data_in word.now) }
{
    let bytes = parse_bytes(alloc, word)?;
    match read(alloc, bytes.as_slice()) {
        Ok((value, _)) => check_written(alloc, value, bytes.as_slice()),
        Err(DataFault::Memory) => Err(RowFault::Memory),
        Err(_) => Err(RowFault::Wrong),
    }
}
