//! A block of a long value, as requests and responses carry it: DataBlock-SA and DataBlock-G (IEC
//! 62056-5-3).
use cosem_axdr::Octets;

/// One block of a value sent by block transfer: DataBlock-SA, or DataBlock-G with raw data (IEC
/// 62056-5-3).
#[derive(Debug, Drop)]
pub struct DataBlock {
    /// Whether this is the last block.
    pub last: bool,
    /// The block number, starting at 1.
    pub number: u32,
    /// The bytes of this block.
    pub raw: Octets,
}
