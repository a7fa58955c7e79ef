//! The errors of streams and of inputs: a failed read or write, too many bytes, or out of memory.
ghost use Rattle.std.specs.Prelude.{◌≡◌};
ghost use Rattle.counted_io.specs.declared.fault.InputFault.TheVariants as input_fault;

use std::alloc::AllocError;
use thiserror::Error;

/// A stream failed: a read failed, or a write did not write all its bytes.
#[derive(Clone, Copy, Debug, PartialEq, Eq, Error)]
#[error("the stream failed")]
pub struct StreamFault;

/// Why an input or a line was not read.
#[derive(Clone, Copy, Debug, PartialEq, Eq, Error)]
pub enum InputFault {
    /// There are more bytes than the limit.
    #[error("more bytes than the limit")]
    TooLong = 1,
    /// A read failed.
    #[error("a read failed")]
    Read = 2,
    /// Out of memory.
    #[error("out of memory")]
    Memory = 3,
}

impl From<AllocError> for InputFault {
    ghost from_gives = { λ _ fault. fault ≡ input_fault.Memory };

    fn from(_error: AllocError) -> InputFault {
        InputFault::Memory
    }
}
