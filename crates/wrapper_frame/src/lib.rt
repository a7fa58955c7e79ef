//! The TCP wrapper of IEC 62056-4-7: frames of COSEM payloads in a stream of bytes.
//!
//! A frame is a header of eight bytes followed by a payload. The header holds the version of the
//! wrapper, the source port, the destination port and the length of the payload, each in two bytes
//! with the highest first. A [`Deframer`] extracts frames from bytes that arrive in pieces, and
//! [`frame`] returns the bytes of one.
#![tactic(auto)]

mod deframer;
mod fault;
mod header;
mod law;
mod parts;
mod text;

pub use deframer::Deframer;
pub use fault::WrapperFault;
pub use header::{HEADER_SIZE, Head};
pub use law::one_reading;
pub use parts::Frame;
pub use text::{frame, into_frame, put_frame};
