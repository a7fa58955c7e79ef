//! A long GET response that is sent in blocks, one for each GET-next (IEC 62056-5-3).
ghost use Rattle.std.specs.Prelude.{◌≡◌, ◌≢◌, ◌*◌, ◌-◌, ◌<◌, ◌≤◌, ◌↔◌, length, true, false, IsErrOf, IfOk, IfErr, OnOk, OnErr, Err};
ghost use Rattle.session_core.specs.Outgoing.{unsent_transfer, get_code, block_response, continued_response, transfer_after_next};
ghost use Rattle.session_core.specs.Standard.{block_header, greatest_raw};
ghost use Rattle.session_core.specs.declared.answer.Answer.TheVariants.{Service};
ghost use Rattle.xdlms_blocks.specs.Limits.{max_blocks};
ghost use Rattle.xdlms_blocks.specs.Sending.{next_piece, after_next, sending_by};

use crate::due::Due;
use crate::limit::Limit;
use cosem_axdr::Octets;
use cosem_names::ResultCode;
use std::alloc::{AllocError, Global};
use std::marker::Model;
use xdlms_apdu::{DataBlock, InvokeId, Response};
use xdlms_blocks::{BlockFault, GetBlocks, Piece};

// A long answer to a GET, sent in blocks that each fit in a PDU. Contracts see the transfer of
// `xdlms_blocks`.
#[derive(Drop)]
pub(crate) struct Outgoing {
    blocks: GetBlocks,
}

impl Model for Outgoing {
    ghost use Rattle.std.specs.Prelude.{◌≤◌};
    ghost use Rattle.session_core.specs.Standard.{greatest_raw};
    ghost use Rattle.xdlms_blocks.specs.Transfer.{Sending};

    ghost Value = { Sending };

    ghost view = { λ outgoing. outgoing.blocks };

    ghost invariant = { λ outgoing. outgoing.blocks.size ≤ greatest_raw };
}

impl Outgoing {
    // Makes a transfer before its first block.
    pub(crate) fn new(raw: Octets, limit: Limit) -> Outgoing
        requires non_empty { 0 < length raw }
        requires numbered { length raw ≤ max_blocks * (limit - block_header) }
        ensures { result ≡ unsent_transfer limit raw }
    {
        Outgoing {
            blocks: GetBlocks::new(raw, limit.raw()),
        }
    }

    // Returns the next block. `after` is the number of the block sent last.
    pub(crate) fn next(&mut self, alloc: Global, after: u32) -> Result<Piece, BlockFault>
        ensures no_transfer { IsErrOf result BlockFault.NoTransfer ↔ (self.old.is_open ≡ false) }
        ensures wrong_number { IsErrOf result BlockFault.WrongNumber
            ↔ ((self.old.is_open ≡ true) × (after ≢ self.old.number)) }
        ensures never { result ≢ Err BlockFault.TooLong }
        ensures piece { IfOk result (λ piece. piece ≡ next_piece self.old) }
        ensures within_max { IfOk result (λ piece. length piece.raw ≤ greatest_raw) }
        ensures ok { OnOk result (self.new ≡ after_next self.old) }
        ensures err { IfErr result (λ fault. self.new ≡ sending_by fault self.old) }
    {
        self.blocks.next(alloc, after)
    }
}

// Returns the result code of a fault of a long GET.
fn code(fault: BlockFault) -> ResultCode
    ensures { result ≡ get_code fault }
{
    match fault {
        BlockFault::NoTransfer => ResultCode::NoLongGetInProgress,
        BlockFault::WrongNumber => ResultCode::DataBlockNumberInvalid,
        BlockFault::TooLong | BlockFault::Memory => ResultCode::OtherReason,
    }
}

// Returns the answer to a GET-next, which names the block last received. If out of memory, nothing
// has changed.
#[tactic(auto, unfolding(crate::specs::Outgoing::continued_response, crate::specs::Outgoing::transfer_after_next))]
pub(crate) fn continue_transfer(
    transfer: &mut Option<Outgoing>,
    alloc: Global,
    to: u16,
    id: InvokeId,
    number: u32,
) -> Result<Due, AllocError>
    ensures receiver { IfOk result (λ due. due.to ≡ to) }
    ensures answer { IfOk result (λ due. due.answer
        ≡ Service (continued_response id number transfer.old)) }
    ensures new_state { OnOk result (transfer.new ≡ transfer_after_next number transfer.old) }
    ensures err { OnErr result (transfer.new ≡ transfer.old) }
{
    let Some(outgoing) = transfer else {
        return Ok(refusal_answer(to, id, number, BlockFault::NoTransfer));
    };
    match outgoing.next(alloc, number) {
        Ok(piece) => {
            if piece.last {
                *transfer = None;
            }
            Ok(block_answer(to, id, piece))
        }
        Err(BlockFault::Memory) => Err(AllocError),
        Err(fault) => {
            *transfer = None;
            Ok(refusal_answer(to, id, number, fault))
        }
    }
}

// Returns the answer that carries a block.
pub(crate) fn block_answer(to: u16, id: InvokeId, piece: Piece) -> Due
    requires { length piece.raw ≤ greatest_raw }
    ensures receiver { result.to ≡ to }
    ensures answer { result.answer ≡ Service (block_response id piece) }
{
    let Piece { last, number, raw } = piece;
    Due::response(
        to,
        Response::GetBlock {
            id,
            block: DataBlock { last, number, raw },
        },
    )
}

// Returns the answer to a GET-next that is refused: it repeats the requested block number.
fn refusal_answer(to: u16, id: InvokeId, number: u32, fault: BlockFault) -> Due
    ensures receiver { result.to ≡ to }
    ensures answer { result.answer
        ≡ Service (Response.GetBlockRefused id true number (get_code fault)) }
{
    Due::response(
        to,
        Response::GetBlockRefused {
            id,
            last: true,
            number,
            code: code(fault),
        },
    )
}
