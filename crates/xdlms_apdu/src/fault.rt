//! The errors of reading an APDU: unknown tag, unknown form, unreadable contents, or out of memory.
ghost use Rattle.std.specs.Prelude.{◌≡◌};
ghost use Rattle.xdlms_apdu.specs.Numbers.{fault_number};
ghost use Rattle.xdlms_apdu.specs.declared.fault.ApduFault.TheVariants.{Memory, Unreadable};

use cosem_names::UnknownNumber;
use std::alloc::{AllocError, AllocFailed};
use thiserror::Error;

/// Why bytes could not be read as an APDU. The tag is checked first, then the form, then the rest.
#[derive(Clone, Copy, Debug, PartialEq, Eq, Error)]
pub enum ApduFault {
    /// There are no bytes, or the first byte is not the tag of a known service.
    #[error("unknown service")]
    UnknownTag = 1,
    /// The second byte is not a known form of the service.
    #[error("unknown form of the service")]
    UnknownForm = 2,
    /// The bytes end too early or too late, or one of them is not valid at its position.
    #[error("the bytes are not those of the service")]
    Unreadable = 3,
    /// Out of memory.
    #[error("out of memory")]
    Memory = 4,
}

/// Returns the number of the fault, 1 to 4.
impl From<ApduFault> for u8 {
    ghost from_gives = { λ fault number. number ≡ fault_number fault };

    fn from(fault: ApduFault) -> u8 {
        fault as u8
    }
}

impl From<UnknownNumber> for ApduFault {
    ghost from_gives = { λ _ fault. fault ≡ Unreadable };

    fn from(_error: UnknownNumber) -> ApduFault {
        ApduFault::Unreadable
    }
}

impl From<AllocError> for ApduFault {
    ghost from_gives = { λ _ fault. fault ≡ Memory };

    fn from(_error: AllocError) -> ApduFault {
        ApduFault::Memory
    }
}

impl<T: Drop> From<AllocFailed<T>> for ApduFault {
    ghost from_gives = { λ _ fault. fault ≡ Memory };

    fn from(_error: AllocFailed<T>) -> ApduFault {
        ApduFault::Memory
    }
}
