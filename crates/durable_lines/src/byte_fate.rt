//! `ByteFate`: what a crash makes of one byte.

/// What a crash makes of a byte that was appended and not synced.
#[derive(Clone, Copy, Debug, PartialEq, Eq)]
pub enum ByteFate {
    /// The byte is on the disk.
    Kept,
    /// The file has a byte 0 there.
    Zeroed,
    /// The file ends before the byte.
    Missing,
}
