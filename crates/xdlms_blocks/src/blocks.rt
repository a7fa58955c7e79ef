//! One block of a long text (IEC 62056-5-3, DataBlock), and the limits of a transfer.
use wire_bytes::Octets;

// The maximum number of blocks of a text.
pub(crate) const MAX_BLOCKS: usize = 4_294_967_295;
// The maximum length of a joined text, in bytes.
pub(crate) const MAX_JOINED: usize = 8192;

/// One block of a long text (IEC 62056-5-3, DataBlock).
#[derive(Debug, Drop)]
pub struct Piece {
    /// Whether the block is the last of the text (last-block).
    pub last: bool,
    /// The block's number (block-number): 1 for the first, and one more for each further block.
    pub number: u32,
    /// The block's part of the text (raw-data).
    pub raw: Octets,
}
