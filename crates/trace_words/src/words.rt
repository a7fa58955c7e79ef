//! Reads words of a line as numbers, flags and bytes, and checks that no word is left.
ghost use Rattle.std.specs.Prelude.{◌≡◌, ◌≤◌, IfOk, IsErrOf};
ghost use Rattle.wire_bytes.specs.Outcome.{Gives};
ghost use Rattle.trace_words.specs.Rows.{Reads, if_last, word_at, last_word};
ghost use Rattle.trace_words.specs.Reading.{number_in, flag_in, bytes_in, next_as};
ghost use Rattle.trace_words.specs.declared.fault.RowFault.TheVariants.{Memory, Wrong};

use crate::fault::RowFault;
use cosem_axdr::Octets;
use std::alloc::Global;
use text_lines::{Words, read_hex, read_number};

/// Returns the next word. Errors: `Wrong` if no word is left.
pub fn next_word<'a>(words: &mut Words<'a>) -> Result<&'a [u8], RowFault>
    ensures reads { Reads (λ word. word.now) result words.new (word_at words.old) }
    ensures no_memory { ¬ IsErrOf result RowFault.Memory }
{
    words.next().ok_or(RowFault::Wrong)
}

/// Checks that no word is left. Errors: `Wrong` if one is.
pub fn expect_end(words: &mut Words) -> Result<(), RowFault>
    ensures { result ≡ if_last words.old tt }
{
    match words.next() {
        Some(_) => Err(RowFault::Wrong),
        None => Ok(()),
    }
}

/// Returns the next word, which must be the last. Errors: `Wrong` if no word is left, or more than
/// one.
pub fn last_word<'a>(words: &mut Words<'a>) -> Result<&'a [u8], RowFault>
    ensures gives { Gives Memory (λ word. word.now) result (last_word words.old) }
    ensures no_memory { ¬ IsErrOf result RowFault.Memory }
{
    let word = next_word(words)?;
    expect_end(words)?;
    Ok(word)
}

/// Returns the decimal number of a word, at most `limit`. Errors: `Wrong` for any other word.
pub fn parse_number(word: &[u8], limit: u32) -> Result<u32, RowFault>
    ensures value { result ≡ number_in limit word.now }
    ensures within { IfOk result (λ number. number ≤ limit) }
{
    match read_number(word, u64::from(limit)) {
        Some(number) => Ok(number as u32),
        None => Err(RowFault::Wrong),
    }
}

/// Returns true for the word `1`, false for `0`. Errors: `Wrong` for any other word.
pub fn parse_flag(word: &[u8]) -> Result<bool, RowFault>
    ensures { result ≡ flag_in word.now }
{
    Ok(parse_number(word, 1)? == 1)
}

/// Returns the bytes of a word in hexadecimal. Errors: `Wrong` for any other word; `Memory`.
pub fn parse_bytes(alloc: Global, word: &[u8]) -> Result<Octets, RowFault>
    ensures { Gives Memory (λ bytes. bytes) result (bytes_in word.now) }
{
    match read_hex(alloc, word)? {
        Some(bytes) => Ok(bytes),
        None => Err(RowFault::Wrong),
    }
}

/// Returns the decimal number of a word, at most 65,535. Errors: `Wrong` for any other word.
pub fn parse_long(word: &[u8]) -> Result<u16, RowFault>
    ensures { result ≡ number_in 65535 word.now }
{
    Ok(parse_number(word, 65_535)? as u16)
}

/// Reads the next word as a decimal number of at most 65,535. Errors: `Wrong` if the word is
/// missing or any other.
pub fn next_long(words: &mut Words) -> Result<u16, RowFault>
    ensures reads { Reads (λ number. number) result words.new
        (next_as (number_in 65535) words.old) }
    ensures no_memory { ¬ IsErrOf result RowFault.Memory }
{
    parse_long(next_word(words)?)
}
