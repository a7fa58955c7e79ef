//! The errors of a meter's calls: no such session, a session already open, wrong samples, or out of
//! memory.
use thiserror::Error;

/// Why a call failed.
#[derive(Clone, Copy, Debug, PartialEq, Eq, Error)]
pub enum MeterFault {
    /// No session with this number is open, or the number is above 7.
    #[error("no session of this number is open")]
    NoSession,
    /// A session with this number is already open.
    #[error("a session of this number is open")]
    SessionTaken,
    /// More than 256 samples.
    #[error("more than 256 samples")]
    TooManySamples,
    /// Imported and exported power have different numbers of samples.
    #[error("imported and exported samples differ in number")]
    Uneven,
    /// Out of memory.
    #[error("out of memory")]
    Memory,
}
