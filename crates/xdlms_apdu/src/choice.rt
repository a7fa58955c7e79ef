//! The tags of the choices in Get-Data-Result and in the result of a DataBlock-G (IEC 62056-5-3).

/// A value follows: a Data, or the raw data of a block.
pub const DATA: u8 = 0;
/// A Data-Access-Result follows.
pub const RESULT: u8 = 1;
