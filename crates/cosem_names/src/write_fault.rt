//! The faults of a written value, and the result code of each.
ghost use Rattle.std.specs.Prelude.{◌≡◌};
ghost use Rattle.cosem_names.specs.Numbers.{fault_number};
ghost use Rattle.cosem_names.specs.WriteFault.{fault_code};
ghost use Rattle.cosem_names.specs.declared.write_fault.WriteFault.TheVariants.{Memory, Value};

use crate::result_code::ResultCode;
use crate::unknown_number::UnknownNumber;
use std::alloc::{AllocError, AllocFailed};
use thiserror::Error;

/// Why Data is refused as the value of an attribute. Types are judged over the whole Data before
/// any value, and both before memory is allocated.
#[derive(Clone, Copy, Debug, PartialEq, Eq, Error)]
pub enum WriteFault {
    /// A wrong type, number of elements or length.
    #[error("a value of another type")]
    Unmatched = 1,
    /// A value that the attribute does not accept.
    #[error("a value that is not taken")]
    Value = 2,
    /// Out of memory.
    #[error("out of memory")]
    Memory = 3,
}

/// Returns the number of the fault, 1 to 3.
impl From<WriteFault> for u8 {
    ghost from_gives = { λ fault number. number ≡ fault_number fault };

    fn from(fault: WriteFault) -> u8 {
        fault as u8
    }
}

impl WriteFault {
    /// Returns the result of a write that has this fault: type-unmatched for `Unmatched`, else
    /// other-reason.
    pub fn code(self) -> ResultCode
        ensures { result ≡ fault_code self }
    {
        match self {
            WriteFault::Unmatched => ResultCode::TypeUnmatched,
            WriteFault::Value | WriteFault::Memory => ResultCode::OtherReason,
        }
    }
}

impl From<UnknownNumber> for WriteFault {
    ghost from_gives = { λ _ fault. fault ≡ Value };

    fn from(_error: UnknownNumber) -> WriteFault {
        WriteFault::Value
    }
}

impl From<AllocError> for WriteFault {
    ghost from_gives = { λ _ fault. fault ≡ Memory };

    fn from(_error: AllocError) -> WriteFault {
        WriteFault::Memory
    }
}

impl<T: Drop> From<AllocFailed<T>> for WriteFault {
    ghost from_gives = { λ _ fault. fault ≡ Memory };

    fn from(_error: AllocFailed<T>) -> WriteFault {
        WriteFault::Memory
    }
}
