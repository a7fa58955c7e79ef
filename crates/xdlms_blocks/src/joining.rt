//! `JoinBlocks`: joins the numbered blocks of a long SET or ACTION (IEC 62056-5-3).
ghost use Rattle.std.specs.Prelude.{◌≡◌, ◌≢◌, ◌+◌, ◌<◌, ◌≤◌, ◌↔◌, [], length, true, false, IsErrOf, IfOk, IfErr, OnOk};
ghost use Rattle.xdlms_blocks.specs.Joining.{added_text, joining_after_block, joining_by};
ghost use Rattle.xdlms_blocks.specs.Limits.{max_joined};

use crate::blocks::MAX_JOINED;
use crate::fault::BlockFault;
use std::alloc::Global;
use std::marker::Model;
use wire_bytes::Octets;

/// A long text that arrives in blocks. Contracts see the number of the block last added, the bytes
/// so far, and whether the transfer is open.
#[derive(Debug, Drop)]
pub struct JoinBlocks {
    number: u32,
    // `None` after the transfer has ended.
    bytes: Option<Octets>,
}

impl Model for JoinBlocks {
    ghost use Rattle.std.specs.Prelude.{[], ◌≤◌, length, unwrap_or, is_some};
    ghost use Rattle.xdlms_blocks.specs.Limits.{max_joined};
    ghost use Rattle.xdlms_blocks.specs.Transfer.{Joining};

    ghost Value = { Joining };

    ghost view = { λ j. record {
      number = j.number;
      bytes = unwrap_or j.bytes [];
      is_open = is_some j.bytes;
    } };

    ghost invariant = { λ j. length (unwrap_or j.bytes []) ≤ max_joined };
}

impl JoinBlocks {
    /// Returns a transfer of which no block has arrived. Does not allocate.
    pub fn new(alloc: Global) -> Self
        ensures { result ≡ record { number = 0; bytes = []; is_open = true } }
    {
        JoinBlocks {
            number: 0,
            bytes: Some(Octets::new(alloc)),
        }
    }

    /// Adds a block, whose number is one more than that of the block before it, or 1 for the first.
    /// Returns the joined text at the last block, and `None` before it.
    ///
    /// Errors, judged in this order: `NoTransfer` if the transfer has ended, `WrongNumber`,
    /// `TooLong` if the text would be longer than 8,192 bytes, `Memory` if out of memory.
    pub fn add(&mut self, last: bool, number: u32, raw: &[u8]) -> Result<Option<Octets>, BlockFault>
        ensures no_transfer { IsErrOf result BlockFault.NoTransfer ↔ (self.old.is_open ≡ false) }
        ensures wrong_number { IsErrOf result BlockFault.WrongNumber
            ↔ ((self.old.is_open ≡ true) × (number ≢ self.old.number + 1)) }
        ensures too_long { IsErrOf result BlockFault.TooLong
            ↔ ((self.old.is_open ≡ true) × (number ≡ self.old.number + 1)
            × (max_joined < length self.old.bytes + length raw.now)) }
        ensures text { IfOk result (λ text. text ≡ added_text last raw.now self.old) }
        ensures ok { OnOk result (self.new ≡ joining_after_block last raw.now self.old) }

        // If out of memory, nothing changes; every other fault ends the transfer.
        ensures err { IfErr result (λ fault. self.new ≡ joining_by fault self.old) }
    {
        let Some(mut bytes) = self.bytes.take() else {
            return Err(BlockFault::NoTransfer);
        };
        if number.checked_sub(1) != Some(self.number) {
            return Err(BlockFault::WrongNumber);
        }
        if raw.len() > MAX_JOINED - bytes.len() {
            return Err(BlockFault::TooLong);
        }
        if bytes.extend_from_slice(raw).is_err() {
            self.bytes = Some(bytes);
            return Err(BlockFault::Memory);
        }
        self.number = number;
        if last {
            return Ok(Some(bytes));
        }
        self.bytes = Some(bytes);
        Ok(None)
    }
}
