//! Why a call on a ledger fails.
ghost use Rattle.std.specs.Prelude.{◌≡◌};
ghost use Rattle.campaign_ledger.specs.Faults.{fault_number};

use thiserror::Error;

/// Why a call on a ledger failed. After it, every later call returns `Failed`.
#[derive(Clone, Copy, Debug, PartialEq, Eq, Error)]
pub enum LedgerFault {
    /// The ledger's storage failed, now or earlier.
    #[error("the ledger failed")]
    Failed = 1,
    /// Out of memory.
    #[error("out of memory")]
    Memory = 2,
}

/// Returns the number of the fault, 1 or 2.
impl From<LedgerFault> for u8 {
    ghost from_gives = { λ fault number. number ≡ fault_number fault };

    fn from(fault: LedgerFault) -> u8 {
        fault as u8
    }
}
