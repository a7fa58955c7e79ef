//! Readers of numbers, of lengths and of the contents that follow them.
ghost use Rattle.std.specs.Prelude.{◌≡◌};
ghost use Rattle.wire_bytes.specs.Reading.{Reads};
ghost use Rattle.acse_ber.specs.Parts.{size_part, literal, length_part, contents_part};

use crate::fault::AcseFault;
use byteorder::{BigEndian, ByteOrder};
use wire_bytes::Cursor;

// Reads a number of two bytes.
pub(crate) fn read_size(reader: &mut Cursor) -> Result<u16, AcseFault>
    ensures { Reads (λ size. size) result reader.new (size_part.read reader.old) }
{
    Ok(BigEndian::read_u16(reader.read_bytes(2, AcseFault::Unreadable)?))
}

// Reads bytes that must be the expected ones.
pub(crate) fn read_literal(expected: &[u8], reader: &mut Cursor) -> Result<(), AcseFault>
    ensures { Reads (λ unit. unit) result reader.new ((literal expected.now).read reader.old) }
{
    if reader.read_bytes(expected.len(), AcseFault::Unreadable)? != expected {
        return Err(AcseFault::Unreadable);
    }
    Ok(())
}

// Reads a length: one byte below 80 hex, or 81 or 82 hex followed by one or two bytes.
#[tactic(auto, unfolding(crate::specs::Parts::length_read))]
fn read_length(reader: &mut Cursor) -> Result<usize, AcseFault>
    ensures { Reads (λ n. n) result reader.new (length_part.read reader.old) }
{
    match reader.read_byte(AcseFault::Unreadable)? {
        short @ 0..=0x7F => Ok(usize::from(short)),
        0x81 => Ok(usize::from(reader.read_byte(AcseFault::Unreadable)?)),
        0x82 => Ok(usize::from(read_size(reader)?)),
        _ => Err(AcseFault::Unreadable),
    }
}

// Reads a length and returns that number of bytes.
pub(crate) fn read_contents<'a>(reader: &mut Cursor<'a>) -> Result<&'a [u8], AcseFault>
    ensures { Reads (λ contents. contents.now) result reader.new (contents_part.read reader.old) }
{
    let count = read_length(reader)?;
    reader.read_bytes(count, AcseFault::Unreadable)
}
