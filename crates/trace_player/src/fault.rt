//! The errors of playing a trace: a wrong line, too long a text, a failed read or write, or out of
//! memory.
ghost use Rattle.std.specs.Prelude.{◌≡◌};
ghost use Rattle.trace_player.specs.Numbers.{fault_number};
ghost use Rattle.trace_player.specs.Faults.{fault_of};
ghost use Rattle.trace_player.specs.declared.fault.PlayFault.TheVariants as play_fault;

use counted_io::InputFault;
use std::alloc::AllocError;
use thiserror::Error;

/// Why a trace was not played.
#[derive(Clone, Copy, Debug, PartialEq, Eq, Error)]
pub enum PlayFault {
    /// The number, counted from 1, of the first line that is missing, malformed, or has a value
    /// that no meter has.
    #[error("line {0} of the trace is wrong")]
    Line(u64),
    /// The trace has more than 33,554,432 bytes.
    #[error("a trace of more than 33,554,432 bytes")]
    TooLong,
    /// A read failed.
    #[error("a read failed")]
    Read,
    /// A write failed.
    #[error("a write failed")]
    Write,
    /// Out of memory.
    #[error("out of memory")]
    Memory,
}

/// Returns the number of the fault, 1 to 5.
impl From<PlayFault> for u8 {
    ghost from_gives = { λ fault number. number ≡ fault_number fault };

    fn from(fault: PlayFault) -> u8 {
        match fault {
            PlayFault::Line(_) => 1,
            PlayFault::TooLong => 2,
            PlayFault::Read => 3,
            PlayFault::Write => 4,
            PlayFault::Memory => 5,
        }
    }
}

impl From<AllocError> for PlayFault {
    ghost from_gives = { λ _ fault. fault ≡ play_fault.Memory };

    fn from(_error: AllocError) -> PlayFault {
        PlayFault::Memory
    }
}

impl From<InputFault> for PlayFault {
    ghost from_gives = { λ input fault. fault ≡ fault_of input };

    fn from(fault: InputFault) -> PlayFault {
        match fault {
            InputFault::TooLong => PlayFault::TooLong,
            InputFault::Read => PlayFault::Read,
            InputFault::Memory => PlayFault::Memory,
        }
    }
}
