//! The errors of framing: a wrong version, a payload of more than 1,024 bytes, or out of memory.
ghost use Rattle.std.specs.Prelude.{◌≡◌};
ghost use Rattle.wrapper_frame.specs.Numbers.{fault_number};
ghost use Rattle.wrapper_frame.specs.declared.fault.WrapperFault.TheVariants.{Memory};

use std::alloc::AllocError;
use thiserror::Error;

/// Why bytes are not a frame, or why a payload cannot be framed.
#[derive(Clone, Copy, Debug, PartialEq, Eq, Error)]
pub enum WrapperFault {
    /// The header has a version other than 0001.
    #[error("a header of another version")]
    Version = 1,
    /// The payload has more than 1,024 bytes.
    #[error("a payload of more than 1,024 bytes")]
    TooLong = 2,
    /// Out of memory.
    #[error("out of memory")]
    Memory = 3,
}

/// Returns the number of the fault, 1 to 3.
impl From<WrapperFault> for u8 {
    ghost from_gives = { λ fault number. number ≡ fault_number fault };

    fn from(fault: WrapperFault) -> u8 {
        fault as u8
    }
}

impl From<AllocError> for WrapperFault {
    ghost from_gives = { λ _ fault. fault ≡ Memory };

    fn from(_error: AllocError) -> WrapperFault {
        WrapperFault::Memory
    }
}
