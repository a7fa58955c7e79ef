//! The errors of reading a line and of reading a trace, which adds the number of the line.
ghost use Rattle.std.specs.Prelude.{◌≡◌};
ghost use Rattle.trace_words.specs.Numbers.{fault_number};
ghost use Rattle.trace_words.specs.declared.fault.RowFault.TheVariants.{Memory};
ghost use Rattle.trace_words.specs.declared.fault.TraceFault.TheVariants as trace_fault;

use std::alloc::{AllocError, AllocFailed};
use thiserror::Error;

/// Why a line cannot be read.
#[derive(Clone, Copy, Debug, PartialEq, Eq, Error)]
pub enum RowFault {
    /// The words are not the written form of a value.
    #[error("a line of other words")]
    Wrong = 1,
    /// Out of memory.
    #[error("out of memory")]
    Memory = 2,
}

impl From<AllocError> for RowFault {
    ghost from_gives = { λ _ fault. fault ≡ Memory };

    fn from(_error: AllocError) -> RowFault {
        RowFault::Memory
    }
}

impl<T: Drop> From<AllocFailed<T>> for RowFault {
    ghost from_gives = { λ _ fault. fault ≡ Memory };

    fn from(_error: AllocFailed<T>) -> RowFault {
        RowFault::Memory
    }
}

/// Why a trace cannot be read.
#[derive(Clone, Copy, Debug, PartialEq, Eq, Error)]
pub enum TraceFault {
    /// The number, counted from 1, of the first line that is missing, malformed, or has a value
    /// that no meter has.
    #[error("line {0} of the trace is wrong")]
    Line(u64),
    /// The text has more than 33,554,432 bytes.
    #[error("a trace of more than 33,554,432 bytes")]
    TooLong,
    /// Out of memory.
    #[error("out of memory")]
    Memory,
}

/// Returns the number of the fault, 1 to 3.
impl From<TraceFault> for u8 {
    ghost from_gives = { λ fault number. number ≡ fault_number fault };

    fn from(fault: TraceFault) -> u8 {
        match fault {
            TraceFault::Line(_) => 1,
            TraceFault::TooLong => 2,
            TraceFault::Memory => 3,
        }
    }
}

impl From<AllocError> for TraceFault {
    ghost from_gives = { λ _ fault. fault ≡ trace_fault.Memory };

    fn from(_error: AllocError) -> TraceFault {
        TraceFault::Memory
    }
}

impl<T: Drop> From<AllocFailed<T>> for TraceFault {
    ghost from_gives = { λ _ fault. fault ≡ trace_fault.Memory };

    fn from(_error: AllocFailed<T>) -> TraceFault {
        TraceFault::Memory
    }
}
