//! The layout of the wrapper's header (IEC 62056-4-7), and the check of the bytes at the front of a
//! stream.
ghost use Rattle.std.specs.Prelude.{◌≡◌};
ghost use Rattle.wrapper_frame.specs.Header.{head_of, IsThere};

use byteorder::{BigEndian, ByteOrder};

/// The version of the wrapper.
pub const VERSION: u16 = 1;
/// The length of a header in bytes.
pub const HEADER_SIZE: usize = 8;
/// The offset of the source port in a header; the version precedes it.
pub const SRC_AT: usize = 2;
/// The offset of the destination port in a header.
pub const DST_AT: usize = 4;
/// The offset of the payload's length in a header.
pub const LENGTH_AT: usize = 6;
/// The maximum length of a payload in bytes.
pub const MAX_PAYLOAD: usize = 1024;

/// The state of the bytes at the front of a stream: part of a frame, an invalid header, or a frame.
#[derive(Clone, Copy, Debug, PartialEq, Eq)]
pub enum Head {
    /// Part of a frame, valid so far.
    Part,
    /// A header of an unsupported version.
    BadVersion,
    /// A header that announces too long a payload.
    TooLong,
    /// A frame, with the length of its payload in bytes.
    Whole(usize),
}

/// Judges the front of some bytes. A header is checked once its eight bytes are there, its version
/// before its length.
#[tactic(auto, unfolding(crate::specs::Header::head_of))]
pub fn judge(bytes: &[u8]) -> Head
    ensures head { result ≡ head_of bytes.now }
    ensures present { IsThere bytes.now result }
{
    if bytes.len() < HEADER_SIZE {
        return Head::Part;
    }
    if BigEndian::read_u16(bytes) != VERSION {
        return Head::BadVersion;
    }
    let length = usize::from(BigEndian::read_u16(&bytes[LENGTH_AT..]));
    if length > MAX_PAYLOAD {
        Head::TooLong
    } else if bytes.len() < HEADER_SIZE + length {
        Head::Part
    } else {
        Head::Whole(length)
    }
}
