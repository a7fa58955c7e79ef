//! Appends a word, a decimal number, hexadecimal digits or a line end to a text.
ghost use Rattle.std.specs.Prelude.{◌≡◌, ◌++◌, ◌∷◌, [], decimal, OnOk, OnErr};
ghost use Rattle.hex.specs.Hex.{encode_upper};

use itoa::Buffer;
use std::alloc::{AllocError, Global};

/// Appends a blank and a word to the words of a line so far. On an error nothing is appended.
pub fn add_word(out: &mut Vec<u8>, word: &[u8]) -> Result<(), AllocError>
    ensures ok { OnOk result (out.new.items ≡ out.old.items ++ 32 ∷ word.now) }
    ensures err { OnErr result (out.new.items ≡ out.old.items) }
{
    let before = out.len();
    out.push(b' ')?;
    let added = out.extend_from_slice(word);
    if added.is_err() {
        out.truncate(before);
    }
    added
}

/// Appends a blank and a number in decimal digits. On an error nothing is appended.
pub fn add_number(out: &mut Vec<u8>, number: u64) -> Result<(), AllocError>
    ensures ok { OnOk result (out.new.items ≡ out.old.items ++ 32 ∷ decimal number) }
    ensures err { OnErr result (out.new.items ≡ out.old.items) }
{
    let mut buffer = Buffer::new();
    add_word(out, buffer.format(number).as_bytes())
}

/// Appends a blank and bytes as hexadecimal digits in capitals. On an error nothing is appended.
pub fn add_hex(alloc: Global, out: &mut Vec<u8>, bytes: &[u8]) -> Result<(), AllocError>
    ensures ok { OnOk result (out.new.items ≡ out.old.items ++ 32 ∷ encode_upper bytes.now) }
    ensures err { OnErr result (out.new.items ≡ out.old.items) }
{
    let text = hex::encode_upper(alloc, bytes)?;
    add_word(out, text.as_bytes())
}

/// Appends the byte 0A, which ends a line. On an error nothing is appended.
pub fn end_line(out: &mut Vec<u8>) -> Result<(), AllocError>
    ensures ok { OnOk result (out.new.items ≡ out.old.items ++ 10 ∷ []) }
    ensures err { OnErr result (out.new.items ≡ out.old.items) }
{
    out.push(b'\n')?;
    Ok(())
}
