//! Reads a text of hexadecimal digits, with blanks and line ends skipped, into bytes.
ghost use Rattle.std.specs.Prelude.{◌≡◌, ◌≤◌, length, None, not, filter, position, IfOk, IfErr};
ghost use Rattle.std.specs.Io.KnownBytes.{Consumes, IsAtEnd};
ghost use Rattle.session_io.specs.Hexadecimal.{IsHex, IsUndecoded, ReadsHex, StopsReading, is_blank, is_taken, max_characters};
ghost use Rattle.session_io.specs.Sides.{input_of};

use crate::fault::TextFault;
use counted_io::{InputFault, Reader, read_to_end_within};
use hex::FromHexError;
use std::alloc::{AllocError, Global};

// The maximum number of characters of a text.
const MAX_CHARACTERS: usize = 1_048_576;

// Reads all characters of a text.
fn read_text<R: Reader>(alloc: Global, reader: &mut R) -> Result<Vec<u8>, TextFault>
    requires { R.can_read reader.now }
    ensures read { IfOk result
        (λ text. Consumes (R.remaining reader.old) (R.remaining reader.new) text.items) }
    ensures at_end { IfOk result (λ text. IsAtEnd (R.remaining reader.new)) }
    ensures within { IfOk result (λ text. length text.items ≤ max_characters) }
    ensures err { IfErr result
        (λ fault. StopsReading (input_of R.remaining R.reads R.failures reader.old) fault
        (input_of R.remaining R.reads R.failures reader.new)) }
{
    match read_to_end_within(alloc, reader, MAX_CHARACTERS) {
        Ok(text) => Ok(text),
        Err(InputFault::TooLong) => Err(TextFault::TooLong),
        Err(InputFault::Read) => Err(TextFault::Read),
        Err(InputFault::Memory) => Err(TextFault::Memory),
    }
}

// Returns whether a character is skipped: a blank or part of a line end.
#[tactic(auto, unfolding(crate::specs::Hexadecimal::is_blank))]
fn is_blank(character: u8) -> bool
    ensures { result ≡ is_blank character }
{
    matches!(character, b' ' | b'\n' | b'\r')
}

// Returns whether a character is a hexadecimal digit, or is skipped.
fn is_taken(character: u8) -> bool
    ensures { result ≡ is_taken character }
{
    character.is_ascii_hexdigit() || is_blank(character)
}

// Returns the index of the first character that is neither a digit nor skipped, if there is one.
fn first_wrong(text: &[u8]) -> Option<usize>
    ensures { result ≡ position (λ character. not (is_taken character)) text.now }
{
    text.iter().position(|character| !is_taken(*character))
}

// Returns the characters of a text that are not skipped.
#[tactic(auto, unfolding(crate::specs::Hexadecimal::is_blank))]
fn digits_of(alloc: Global, text: &[u8]) -> Result<Vec<u8>, AllocError>
    ensures { IfOk result (λ digits. digits.items
        ≡ filter (λ character. not (is_blank character)) text.now) }
{
    text.iter()
        .copied()
        .filter(|character| !is_blank(*character))
        .collect(alloc)
}

// Decodes a text in which every character is a digit or skipped. Errors: `OddDigits`, `Memory`.
#[tactic(auto, using(crate::proofs::HexTexts::undecoded_odd))]
fn decode_digits(alloc: Global, text: &[u8]) -> Result<Vec<u8>, TextFault>
    requires { position (λ character. not (is_taken character)) text.now ≡ None }
    ensures ok { IfOk result (λ input. IsHex text.now input.items) }
    ensures err { IfErr result (λ fault. IsUndecoded text.now fault) }
{
    let digits = digits_of(alloc, text)?;
    match hex::decode(alloc, digits.as_slice()) {
        Ok(input) => Ok(input),
        Err(FromHexError::OutOfMemory) => Err(TextFault::Memory),
        Err(_) => Err(TextFault::OddDigits),
    }
}

// Decodes a text. Errors: `Digit` of the first character that is neither a digit nor skipped, else
// `OddDigits`; `Memory`.
#[tactic(auto, using(crate::proofs::HexTexts::place_within, crate::proofs::HexTexts::undecoded_at))]
fn decode(alloc: Global, text: &[u8]) -> Result<Vec<u8>, TextFault>
    ensures ok { IfOk result (λ input. IsHex text.now input.items) }
    ensures err { IfErr result (λ fault. IsUndecoded text.now fault) }
{
    match first_wrong(text) {
        Some(index) => Err(TextFault::Digit(index + 1)),
        None => decode_digits(alloc, text),
    }
}

/// Reads a text to its end and decodes it: pairs of hexadecimal digits in either case, with blanks
/// and line ends skipped, at most 1,048,576 characters.
///
/// Errors, in this order: `TooLong` or `Read`; `Digit` of the first character that is neither a
/// digit nor skipped, else `OddDigits`. `Memory` can occur at any point.
#[tactic(auto, using(crate::proofs::HexTexts::undecoded))]
pub fn read_hex<R: Reader>(alloc: Global, reader: &mut R) -> Result<Vec<u8>, TextFault>
    requires { R.can_read reader.now }
    ensures ok { IfOk result
        (λ input. ReadsHex (R.remaining reader.old) (R.remaining reader.new) input.items) }
    ensures err { IfErr result
        (λ fault. StopsReading (input_of R.remaining R.reads R.failures reader.old) fault
        (input_of R.remaining R.reads R.failures reader.new)) }
{
    let text = read_text(alloc, reader)?;
    match decode(alloc, text.as_slice()) {
        Ok(input) => Ok(input),
        Err(fault) => Err(fault),
    }
}
