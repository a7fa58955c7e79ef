//! The error of the reader of job lists: an invalid line, too many jobs, or out of memory.
ghost use Rattle.std.specs.Prelude.{◌≡◌};
ghost use Rattle.head_end.specs.Numbers.{fault_number};
ghost use Rattle.head_end.specs.declared.fault.JobsFault.TheVariants.{Memory};

use std::alloc::AllocError;
use thiserror::Error;

/// Why a text could not be read as a list of jobs.
#[derive(Clone, Copy, Debug, PartialEq, Eq, Error)]
pub enum JobsFault {
    /// The first invalid line, counted from 1.
    #[error("line {0} is not a job")]
    Line(u64),
    /// There are more than 1,000 jobs.
    #[error("more than 1,000 jobs")]
    TooMany,
    /// Out of memory.
    #[error("out of memory")]
    Memory,
}

/// Returns the number of the fault, 1 to 3.
impl From<JobsFault> for u8 {
    ghost from_gives = { λ fault number. number ≡ fault_number fault };

    fn from(fault: JobsFault) -> u8 {
        match fault {
            JobsFault::Line(_) => 1,
            JobsFault::TooMany => 2,
            JobsFault::Memory => 3,
        }
    }
}

impl From<AllocError> for JobsFault {
    ghost from_gives = { λ _ fault. fault ≡ Memory };

    fn from(_error: AllocError) -> JobsFault {
        JobsFault::Memory
    }
}
