//! The error of the readers of association APDUs: the bytes are not valid, or out of memory.
ghost use Rattle.std.specs.Prelude.{◌≡◌};
ghost use Rattle.acse_ber.specs.Numbers.{fault_number};
ghost use Rattle.acse_ber.specs.declared.fault.AcseFault.TheVariants.{Memory};

use std::alloc::AllocError;
use thiserror::Error;

/// Why bytes could not be read as an APDU.
#[derive(Clone, Copy, Debug, PartialEq, Eq, Error)]
pub enum AcseFault {
    /// A length, a tag or a field is not valid.
    #[error("the bytes are not those of the APDU")]
    Unreadable = 1,
    /// Out of memory.
    #[error("out of memory")]
    Memory = 2,
}

/// Returns the number of the fault, 1 or 2.
impl From<AcseFault> for u8 {
    ghost from_gives = { λ fault number. number ≡ fault_number fault };

    fn from(fault: AcseFault) -> u8 {
        fault as u8
    }
}

impl From<AllocError> for AcseFault {
    ghost from_gives = { λ _ fault. fault ≡ Memory };

    fn from(_error: AllocError) -> AcseFault {
        AcseFault::Memory
    }
}
