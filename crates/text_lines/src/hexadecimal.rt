//! Reads and writes bytes as pairs of hexadecimal digits in capitals.
ghost use Rattle.std.specs.Prelude.{◌≡◌, ◌++◌, IfOk, OnOk, OnErr};
ghost use Rattle.hex.specs.Hex.{encode_upper};
ghost use Rattle.text_lines.specs.Hexadecimal.{bytes_of, bytes_sized, is_capital_digit, is_hexadecimal};
ghost use Rattle.std.specs.List.{list_all};

use hex::{FromHex, FromHexError};
use std::alloc::{AllocError, Global};
use wire_bytes::Octets;

/// Returns the bytes that a word writes as pairs of hexadecimal digits in capitals, or `None` for
/// any other word, including the empty word and one in lower case. Errors: out of memory.
#[tactic(auto, unfolding(crate::specs::Hexadecimal::bytes_of))]
pub fn read_hex(alloc: Global, word: &[u8]) -> Result<Option<Octets>, AllocError>
    ensures { IfOk result (λ bytes. bytes ≡ bytes_of word.now) }
{
    if !has_hexadecimal_form(word) {
        return Ok(None);
    }
    match hex::decode(alloc, word) {
        Ok(bytes) => Ok(Some(Octets::from_vec(bytes))),
        Err(FromHexError::OutOfMemory) => Err(AllocError),
        Err(_) => Ok(None),
    }
}

/// Returns the `N` bytes that a word writes as `2 * N` hexadecimal digits in capitals, or `None`
/// for any other word. Does not allocate.
#[tactic(auto, unfolding(crate::specs::Hexadecimal::bytes_of))]
pub fn read_hex_array<const N: usize>(word: &[u8]) -> Option<[u8; N]>
    ensures { result ≡ bytes_sized N word.now }
{
    if !has_hexadecimal_form(word) {
        return None;
    }
    <[u8; N] as FromHex>::from_hex(word).ok()
}

// Returns whether a word consists of one or more hexadecimal digits in capitals.
fn has_hexadecimal_form(word: &[u8]) -> bool
    ensures { result ≡ is_hexadecimal word.now }
{
    !word.is_empty() && all_capital_digits(word)
}

// Returns whether each byte is one of the digits 0 to 9 and A to F.
fn all_capital_digits(word: &[u8]) -> bool
    ensures { result ≡ list_all is_capital_digit word.now }
{
    word.iter()
        .all(|digit| matches!(*digit, b'0'..=b'9' | b'A'..=b'F'))
}

/// Appends two hexadecimal digits in capitals for each byte. On an error nothing is appended.
pub fn write_hex(alloc: Global, out: &mut Vec<u8>, bytes: &[u8]) -> Result<(), AllocError>
    ensures ok { OnOk result (out.new.items ≡ out.old.items ++ encode_upper bytes.now) }
    ensures err { OnErr result (out.new.items ≡ out.old.items) }
{
    let text = hex::encode_upper(alloc, bytes)?;
    out.extend_from_slice(text.as_bytes())
}
