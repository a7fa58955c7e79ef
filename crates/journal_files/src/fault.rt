//! Why a journal is not begun or resumed.
ghost use Rattle.std.specs.Prelude.{◌≡◌};
ghost use Rattle.journal_files.specs.Faults.{of_file, of_trace};
ghost use Rattle.journal_files.specs.declared.fault.StartFault.TheVariants.{Memory};

use durable_lines::FileFault;
use std::alloc::AllocError;
use thiserror::Error;
use trace_player::TraceFault;

/// Why a journal is not begun or resumed. It is displayed as what was expected and found.
#[derive(Clone, Copy, Debug, PartialEq, Eq, Error)]
pub enum StartFault {
    /// The number, counted from 1, of the first line that is missing, malformed, or has a value
    /// that no meter has.
    #[error("line {0} is not that of a journal; trace_player says what was expected")]
    Line(u64),
    /// The text has more than 33,554,432 bytes.
    #[error("expected at most 33554432 bytes")]
    TooLong,
    /// The text is a trace with a number of events, or of version 1, to which none can be appended.
    #[error("expected a trace of version 2 with `events -`, found counted events or version 1")]
    Counted,
    /// The device name is that of another meter.
    #[error("the journal of a meter with another device name")]
    OtherMeter,
    /// The line after this number of bytes is damaged, and whole lines follow it. An interrupted
    /// write of one line leaves no such bytes.
    #[error("damaged after byte {0}, and whole lines follow: keep a copy, and cut it there")]
    Damaged(usize),
    /// A call on the file or its folder failed.
    #[error("reading, writing or syncing failed")]
    File,
    /// Out of memory.
    #[error("out of memory")]
    Memory,
}

impl From<AllocError> for StartFault {
    ghost from_gives = { λ _ fault. fault ≡ Memory };

    fn from(_error: AllocError) -> StartFault {
        StartFault::Memory
    }
}

impl From<TraceFault> for StartFault {
    ghost from_gives = { λ fault journal. journal ≡ of_trace fault };

    fn from(fault: TraceFault) -> StartFault {
        match fault {
            TraceFault::Line(number) => StartFault::Line(number),
            TraceFault::TooLong => StartFault::TooLong,
            TraceFault::Memory => StartFault::Memory,
        }
    }
}

impl From<FileFault> for StartFault {
    ghost from_gives = { λ fault journal. journal ≡ of_file fault };

    fn from(fault: FileFault) -> StartFault {
        match fault {
            FileFault::Failed => StartFault::File,
            FileFault::TooLong => StartFault::TooLong,
            FileFault::Memory => StartFault::Memory,
        }
    }
}
