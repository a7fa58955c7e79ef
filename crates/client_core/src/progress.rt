//! The progress of a job: whether the association is open, and the outcome once the responses
//! settle it.
use crate::job::Outcome;

/// The progress of a job according to the responses received.
#[derive(Clone, Copy, Debug, PartialEq, Eq)]
pub struct Progress {
    /// Whether the association is open, so that the request may be sent.
    pub accepted: bool,
    /// The outcome, if it is settled.
    pub outcome: Option<Outcome>,
}
