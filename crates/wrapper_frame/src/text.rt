//! Writes a frame: in a new buffer, to the front of the caller's, or by overwriting eight reserved
//! bytes in front of its payload (IEC 62056-4-7).
ghost use Rattle.std.specs.Prelude.{◌≡◌, ◌<◌, ◌≤◌, ◌↔◌, ◌≢◌, ◌+◌, ◌++◌, length, drop, None, IfSome, IfNone, IfOk, IsErrOf, Err};
ghost use Rattle.wrapper_frame.specs.Header.{header_size, max_payload};
ghost use Rattle.wrapper_frame.specs.Text.{header_text, frame_text, IsPlaced};

use crate::fault::WrapperFault;
use crate::header::{DST_AT, HEADER_SIZE, LENGTH_AT, MAX_PAYLOAD, SRC_AT, VERSION};
use byteorder::{BigEndian, ByteOrder};
use std::alloc::Global;
use wire_bytes::Octets;

/// Returns the bytes of a frame: its header, followed by its payload of at most 1,024 bytes.
#[tactic(auto, unfolding(crate::specs::Text::frame_text))]
pub fn frame(alloc: Global, src: u16, dst: u16, payload: &[u8]) -> Result<Octets, WrapperFault>
    ensures text { IfOk result (λ text. text
        ≡ frame_text (record { src = src; dst = dst; payload = payload.now })) }
    ensures too_long { IsErrOf result WrapperFault.TooLong ↔ (max_payload < length payload.now) }
    ensures never { result ≢ Err WrapperFault.Version }
{
    if payload.len() > MAX_PAYLOAD {
        return Err(WrapperFault::TooLong);
    }
    let mut text = Vec::with_capacity(alloc, HEADER_SIZE + payload.len())?;
    text.extend_from_slice(&header(src, dst, payload.len() as u16))?;
    text.extend_from_slice(payload)?;
    Ok(Octets::from_vec(text))
}

/// Writes a frame to the front of a buffer, and returns its length in bytes. Returns `None`, and
/// changes nothing, if the payload has more than 1,024 bytes or the buffer is too short. Does not
/// allocate.
#[inline(always)]
#[tactic(auto, unfolding(crate::specs::Text::frame_text))]
pub fn put_frame(src: u16, dst: u16, payload: &[u8], buffer: &mut [u8]) -> Option<usize>
    ensures placed { IfSome result (λ count. IsPlaced
        (frame_text (record { src = src; dst = dst; payload = payload.now })) count buffer.old
        buffer.new) }
    ensures none { IfNone result (buffer.new ≡ buffer.old) }
    ensures fits { (result ≢ None) ↔ ((length payload.now ≤ max_payload)
        × (header_size + length payload.now ≤ length buffer.old)) }
{
    if payload.len() > MAX_PAYLOAD || buffer.len() < HEADER_SIZE + payload.len() {
        return None;
    }
    let count = HEADER_SIZE + payload.len();
    put_header(buffer, &header(src, dst, payload.len() as u16));
    buffer[HEADER_SIZE..count].copy_from_slice(payload);
    Some(count)
}

/// Converts bytes into a frame: overwrites the first eight bytes with the header. The payload is
/// the rest of the bytes, at most 1,024. Does not allocate.
#[tactic(auto, unfolding(crate::specs::Text::frame_text))]
pub fn into_frame(src: u16, dst: u16, text: Octets) -> Octets
    requires header { header_size ≤ length text }
    requires payload { length (drop header_size text) ≤ max_payload }
    ensures { result ≡ frame_text
        (record { src = src; dst = dst; payload = drop header_size text }) }
{
    let mut bytes = text.into_vec();
    let size = bytes.as_slice()[HEADER_SIZE..].len();
    put_header(bytes.as_mut_slice(), &header(src, dst, size as u16));
    Octets::from_vec(bytes)
}

// Overwrites the first bytes with a header.
fn put_header(bytes: &mut [u8], header: &[u8; HEADER_SIZE])
    requires { header_size ≤ length bytes.old }
    ensures { bytes.new ≡ header.now ++ drop header_size bytes.old }
{
    bytes[..HEADER_SIZE].copy_from_slice(header);
}

// Returns the header of a frame with a payload of `size` bytes.
fn header(src: u16, dst: u16, size: u16) -> [u8; HEADER_SIZE]
    ensures { result ≡ header_text src dst size }
{
    let mut header = [0; HEADER_SIZE];
    BigEndian::write_u16(&mut header, VERSION);
    BigEndian::write_u16(&mut header[SRC_AT..], src);
    BigEndian::write_u16(&mut header[DST_AT..], dst);
    BigEndian::write_u16(&mut header[LENGTH_AT..], size);
    header
}
