//! The error of `Shared::close`.
use thiserror::Error;

/// The error of a lock that cannot be closed: more turns were drawn than had ended.
#[derive(Clone, Copy, Debug, PartialEq, Eq, Error)]
#[error("{drawn} turns were drawn, and {served} have ended")]
pub struct Busy {
    pub drawn: u64,
    pub served: u64,
}
