//! `GetBlocks`: returns the numbered blocks of a long GET response, one for each request (IEC
//! 62056-5-3).
ghost use Rattle.std.specs.Prelude.{◌≡◌, ◌≢◌, ◌*◌, ◌<◌, ◌≤◌, ◌↔◌, nat_le, length, true, false, IsErrOf, IfOk, IfErr, OnOk, Err};
ghost use Rattle.xdlms_blocks.specs.Limits.{min_block_size, max_blocks};
ghost use Rattle.xdlms_blocks.specs.Sending.{next_piece, after_next, sending_by};

use crate::blocks::{MAX_BLOCKS, Piece};
use crate::fault::BlockFault;
use std::alloc::Global;
use std::marker::Model;
use wire_bytes::Octets;

/// A long text that is sent in blocks, each requested by the number of the block before it.
/// Contracts see the text, the number of the block last returned, the number of raw bytes of a
/// block, and whether the transfer is open.
#[derive(Debug, Drop)]
pub struct GetBlocks {
    text: Octets,
    number: u32,
    size: u16,
    is_open: bool,
}

impl Model for GetBlocks {
    ghost use Rattle.xdlms_blocks.specs.Transfer.{Sending, CanGoOn};

    ghost Value = { Sending };

    ghost view = { λ g. record {
      text = g.text;
      number = g.number;
      size = g.size;
      is_open = g.is_open;
    } };

    ghost invariant = { λ g.
        CanGoOn (record { text = g.text; number = g.number; size = g.size; is_open = g.is_open }) };
}

impl GetBlocks {
    /// Returns whether there are numbers for all blocks of `size` bytes of `raw`.
    pub fn has_numbers_for(raw: &[u8], size: u16) -> bool
        ensures { result ≡ nat_le (length raw.now) (max_blocks * size) }
    {
        raw.len() <= MAX_BLOCKS * usize::from(size)
    }

    /// Returns a transfer of `raw` in blocks of `size` bytes, at least 52, of which none is sent.
    /// Does not allocate.
    pub fn new(raw: Octets, size: u16) -> Self
        requires size { min_block_size ≤ size }
        requires non_empty { 0 < length raw }
        requires numbered { length raw ≤ max_blocks * size }
        ensures { result ≡ record { text = raw; number = 0; size = size; is_open = true } }
    {
        GetBlocks {
            text: raw,
            number: 0,
            size,
            is_open: true,
        }
    }

    /// Returns the next block. `after` is the number of the block last returned, or 0 before the
    /// first.
    ///
    /// Errors, judged in this order: `NoTransfer` if the transfer has ended, `WrongNumber` if
    /// `after` is another number, `Memory` if out of memory.
    pub fn next(&mut self, alloc: Global, after: u32) -> Result<Piece, BlockFault>
        ensures no_transfer { IsErrOf result BlockFault.NoTransfer ↔ (self.old.is_open ≡ false) }
        ensures wrong_number { IsErrOf result BlockFault.WrongNumber
            ↔ ((self.old.is_open ≡ true) × (after ≢ self.old.number)) }
        ensures never { result ≢ Err BlockFault.TooLong }
        ensures piece { IfOk result (λ piece. piece ≡ next_piece self.old) }
        ensures ok { OnOk result (self.new ≡ after_next self.old) }

        // If out of memory, nothing changes; every other fault ends the transfer.
        ensures err { IfErr result (λ fault. self.new ≡ sending_by fault self.old) }
    {
        if !self.is_open {
            return Err(BlockFault::NoTransfer);
        }
        if after != self.number {
            self.is_open = false;
            return Err(BlockFault::WrongNumber);
        }
        let size = usize::from(self.size);
        let rest = &self.text.as_slice()[self.number as usize * size..];
        let (raw, later) = rest.split_at(rest.len().min(size));
        let piece = Piece {
            last: later.is_empty(),
            number: self.number + 1,
            raw: Octets::from_slice(alloc, raw)?,
        };
        self.number = piece.number;
        self.is_open = !piece.last;
        Ok(piece)
    }
}
