//! The two versions of the text format of traces.

/// A version of the text format of traces.
#[derive(Clone, Copy, Debug, PartialEq, Eq)]
pub enum Version {
    /// Version 1, which has no pairs of samples and no export limiter. It is only read.
    One,
    /// Version 2, which is read and written.
    Two,
}
