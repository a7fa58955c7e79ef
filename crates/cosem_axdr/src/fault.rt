//! The error of the reader of Data: truncated, unknown tag, nested too deeply, too long, or out of
//! memory.
ghost use Rattle.std.specs.Prelude.{◌≡◌};
ghost use Rattle.cosem_axdr.specs.Numbers.{fault_number};
ghost use Rattle.cosem_axdr.specs.declared.fault.DataFault.TheVariants.{Memory};

use std::alloc::{AllocError, AllocFailed};
use thiserror::Error;

/// Why bytes do not begin with a Data. Bytes are read from left to right, and the first fault found
/// is returned.
#[derive(Clone, Copy, Debug, PartialEq, Eq, Error)]
pub enum DataFault {
    /// A byte past the end is needed.
    #[error("the bytes end within a Data")]
    Truncated = 1,
    /// The tag is not one of the twenty known tags.
    #[error("a tag of no type")]
    UnknownTag = 2,
    /// An array or structure is nested in eight others. This is checked at its tag, before its
    /// count is read.
    #[error("arrays and structures nested more than eight deep")]
    TooDeep = 3,
    /// A byte past the 8,192nd is needed, an array or structure has more than 255 items, or a
    /// length begins with 80 hex, or with 85 hex or more.
    #[error("a Data past its limits of length")]
    TooLong = 4,
    /// Out of memory.
    #[error("out of memory")]
    Memory = 5,
}

/// Returns the number of the fault, 1 to 5.
impl From<DataFault> for u8 {
    ghost from_gives = { λ fault number. number ≡ fault_number fault };

    fn from(fault: DataFault) -> u8 {
        fault as u8
    }
}

impl From<AllocError> for DataFault {
    ghost from_gives = { λ _ fault. fault ≡ Memory };

    fn from(_error: AllocError) -> DataFault {
        DataFault::Memory
    }
}

impl<T: Drop> From<AllocFailed<T>> for DataFault {
    ghost from_gives = { λ _ fault. fault ≡ Memory };

    fn from(_error: AllocFailed<T>) -> DataFault {
        DataFault::Memory
    }
}
