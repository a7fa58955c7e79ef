//! The fault of a refused call.
ghost use Rattle.std.specs.Prelude.{◌≡◌};
ghost use Rattle.turn_lock.specs.Numbers.{fault_number};

use thiserror::Error;

/// Why a call was refused. After `Memory` and `Exhausted` the called value is unchanged.
#[derive(Clone, Copy, Debug, PartialEq, Eq, Error)]
pub enum CallFault {
    /// Out of memory during the turn. The turn is used up.
    #[error("out of memory")]
    Memory = 1,
    /// No turn is left: as many were drawn as the lock was created for.
    #[error("every turn was drawn")]
    Exhausted = 2,
    /// The journal has failed: it is not certain that the call is on the disk. A lock never returns
    /// this fault; a meter with a journal does.
    #[error("the journal has failed")]
    Journal = 3,
}

/// Returns the number of the fault, 1 to 3.
impl From<CallFault> for u8 {
    ghost from_gives = { λ fault number. number ≡ fault_number fault };

    fn from(fault: CallFault) -> u8 {
        fault as u8
    }
}
