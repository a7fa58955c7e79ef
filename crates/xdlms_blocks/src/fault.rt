//! The errors of a block transfer: no transfer, a wrong block number, too long a text, or out of
//! memory.
ghost use Rattle.std.specs.Prelude.{◌≡◌};
ghost use Rattle.xdlms_blocks.specs.Numbers.{fault_number};
ghost use Rattle.xdlms_blocks.specs.declared.fault.BlockFault.TheVariants.{Memory};

use std::alloc::AllocError;
use thiserror::Error;

/// Why a block transfer cannot continue. Every fault but `Memory` ends the transfer.
#[derive(Clone, Copy, Debug, PartialEq, Eq, Error)]
pub enum BlockFault {
    /// The transfer has ended.
    #[error("no transfer is in progress")]
    NoTransfer = 1,
    /// The block number is not the expected one.
    #[error("the number of another block")]
    WrongNumber = 2,
    /// The joined text would be longer than 8,192 bytes.
    #[error("blocks of more than 8,192 bytes")]
    TooLong = 3,
    /// Out of memory. The transfer is unchanged, and the call can be repeated.
    #[error("out of memory")]
    Memory = 4,
}

/// Returns the number of the fault, 1 to 4.
impl From<BlockFault> for u8 {
    ghost from_gives = { λ fault number. number ≡ fault_number fault };

    fn from(fault: BlockFault) -> u8 {
        fault as u8
    }
}

impl From<AllocError> for BlockFault {
    ghost from_gives = { λ _ fault. fault ≡ Memory };

    fn from(_error: AllocError) -> BlockFault {
        BlockFault::Memory
    }
}
