//! Why a line is not a command.
use thiserror::Error;

/// Why a line of the console is not a command.
#[derive(Clone, Copy, Debug, PartialEq, Eq, Error)]
pub enum ConsoleFault {
    /// The first word means no meters.
    #[error("expected N, N-M, all or count")]
    Meters,
    /// The word after `count` is not a control state.
    #[error("count: expected disconnected, connected or ready")]
    State,
    /// The words after the meters ask nothing of them.
    #[error("expected button, samples, pairs, moment, state or trace FILE")]
    Request,
    /// A trace is asked of several meters, or without a file.
    #[error("trace: expected one meter and a file")]
    Trace,
    /// Out of memory.
    #[error("out of memory")]
    Memory,
}
