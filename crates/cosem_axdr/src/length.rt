//! Lengths and counts: one byte below 80 hex, else 81 to 84 hex followed by one to four bytes (IEC
//! 62056-5-3, A-XDR encoding; for the APDUs of the association ISO/IEC 8825-1).
ghost use Rattle.std.specs.Prelude.{◌≡◌, ◌≤◌, ◌++◌, length, OnOk, OnErr};
ghost use Rattle.cosem_axdr.specs.Reading.{big_endian};
ghost use Rattle.cosem_axdr.specs.Spelling.{length_text};

use byteorder::{BigEndian, ByteOrder};
use std::alloc::AllocError;
use wire_bytes::Octets;

/// Returns the number that at most four bytes hold, highest byte first.
#[tactic(auto, using(crate::proofs::BigEndian::all_bytes))]
pub fn number_of(bytes: &[u8]) -> usize
    requires { length bytes.now ≤ 4 }
    ensures { result ≡ big_endian bytes.now }
{
    if bytes.is_empty() {
        return 0;
    }
    BigEndian::read_uint(bytes, bytes.len()) as usize
}

/// Appends a length or count in its shortest form; one of 2^32 or more as its lowest four bytes. If
/// out of memory, appends nothing.
pub fn append_length(length: usize, out: &mut Octets) -> Result<(), AllocError>
    ensures ok { OnOk result (out.new ≡ out.old ++ length_text length) }
    ensures unchanged_on_error { OnErr result (out.new ≡ out.old) }
{
    match length {
        0..=0x7F => out.push(length as u8),
        0x80..=0xFF => out.extend_from_slice(&[0x81, length as u8]),
        0x100..=0xFFFF => {
            let mut text = [0x82, 0, 0];
            BigEndian::write_u16(&mut text[1..], length as u16);
            out.extend_from_slice(&text)
        }
        0x1_0000..=0xFF_FFFF => {
            let mut text = [0x83, 0, 0, 0];
            BigEndian::write_u24(&mut text[1..], length as u32);
            out.extend_from_slice(&text)
        }
        _ => {
            let mut text = [0x84, 0, 0, 0, 0];
            BigEndian::write_u32(&mut text[1..], (length & 0xFFFF_FFFF) as u32);
            out.extend_from_slice(&text)
        }
    }
}
