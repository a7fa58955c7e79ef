//! `Frame`: the source port, the destination port and the payload (IEC 62056-4-7).
use wire_bytes::Octets;

/// A frame of the wrapper: its ports and its payload.
#[derive(Debug, Drop)]
pub struct Frame {
    /// The source port (IEC 62056-4-7, wPort).
    pub src: u16,
    /// The destination port (IEC 62056-4-7, wPort).
    pub dst: u16,
    /// The payload, at most 1,024 bytes.
    pub payload: Octets,
}
