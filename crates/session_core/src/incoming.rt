//! A long SET or ACTION that arrives in blocks (IEC 62056-5-3): its blocks, its responses and its
//! faults.
ghost use Rattle.std.specs.Prelude.{◌≡◌, IfOk, OnOk, OnErr};
ghost use Rattle.session_core.specs.Incoming.{block_response, refusal_response, block_code, service_of, block_outcome_of, block_after, outcome_of_added, after_adding, is_over, is_of, transfer_of, later_outcome, later_after};
ghost use Rattle.session_core.specs.Answers.{IsSmall};
ghost use Rattle.session_core.specs.declared.answer.Answer.TheVariants.{Service};

use crate::due::Due;
use crate::joined::Joined;
use crate::link::Link;
use cosem_names::{AttributeSelection, MethodRef, ResultCode};
use std::alloc::AllocError;
use xdlms_apdu::{DataBlock, InvokeId, Response};
use xdlms_blocks::{BlockFault, JoinBlocks};

// The services whose requests may arrive in blocks.
#[derive(Clone, Copy, PartialEq, Eq)]
pub(crate) enum LongService {
    // A SET in datablocks.
    Set,
    // An ACTION in pblocks.
    Action,
}

impl LongService {
    // Returns the answer to a block that is not the last.
    pub(crate) fn block_response(self, id: InvokeId, number: u32) -> Response
        ensures response { result ≡ block_response self id number }
        ensures small { IsSmall result }
    {
        match self {
            LongService::Set => Response::SetBlock { id, number },
            LongService::Action => Response::ActionBlock { id, number },
        }
    }

    // Returns the answer that ends a transfer with this result.
    pub(crate) fn refusal_response(self, id: InvokeId, number: u32, code: ResultCode) -> Response
        ensures response { result ≡ refusal_response self id number code }
        ensures small { IsSmall result }
    {
        match self {
            LongService::Set => Response::SetLastBlock { id, code, number },
            LongService::Action => Response::Action { id, code },
        }
    }

    // Returns the answer to a block that is not added.
    pub(crate) fn fault(self, to: u16, id: InvokeId, number: u32, fault: BlockFault) -> Due
        ensures receiver { result.to ≡ to }
        ensures answer { result.answer ≡ Service
            (refusal_response self id number (block_code self fault)) }
    {
        Due::response(to, self.refusal_response(id, number, self.code(fault)))
    }

    // Returns the result code of a fault of a transfer.
    pub(crate) fn code(self, fault: BlockFault) -> ResultCode
        ensures { result ≡ block_code self fault }
    {
        match (self, fault) {
            (LongService::Set, BlockFault::NoTransfer) => ResultCode::NoLongSetInProgress,
            (LongService::Set, BlockFault::WrongNumber) => ResultCode::DataBlockNumberInvalid,
            (LongService::Action, BlockFault::NoTransfer) => ResultCode::NoLongGetInProgress,
            (LongService::Action, BlockFault::WrongNumber) => ResultCode::OtherReason,
            (_, BlockFault::TooLong | BlockFault::Memory) => ResultCode::OtherReason,
        }
    }
}

// The purpose of a request that arrives in blocks.
#[derive(Clone, Copy)]
pub(crate) enum Purpose {
    // To set an attribute.
    Set(AttributeSelection),
    // To execute a method.
    Action(MethodRef),
}

impl Purpose {
    // Returns the service.
    pub(crate) fn service(self) -> LongService
        ensures { result ≡ service_of self }
    {
        match self {
            Purpose::Set(_) => LongService::Set,
            Purpose::Action(_) => LongService::Action,
        }
    }
}

impl Purpose {
    // Returns whether the purpose is one of this service.
    pub(crate) fn is_of(self, service: LongService) -> bool
        ensures { result ≡ is_of service self }
    {
        match (service, self) {
            (LongService::Set, Purpose::Set(_)) | (LongService::Action, Purpose::Action(_)) => true,
            (LongService::Set, Purpose::Action(_)) | (LongService::Action, Purpose::Set(_)) =>
                false,
        }
    }
}

// A long SET or ACTION in progress: some blocks have arrived, but not the last.
#[derive(Drop)]
pub(crate) struct Incoming {
    pub(crate) purpose: Purpose,
    pub(crate) blocks: JoinBlocks,
}

// The result of adding a block to a transfer.
#[derive(Drop)]
pub(crate) enum Added {
    // The transfer continues, with this answer.
    Continues(Due),
    // The transfer has ended, with this answer.
    Refused(Due),
    // The block was the last, and the transfer is complete.
    Whole(Joined),
}

impl Added {
    // Returns whether the transfer has ended.
    pub(crate) fn is_over(&self) -> bool
        ensures { result ≡ is_over self.now }
    {
        match self {
            Added::Continues(_) => false,
            Added::Refused(_) | Added::Whole(_) => true,
        }
    }
}

impl Incoming {
    // Adds a block, and returns what became of the transfer. If out of memory, nothing has changed.
    #[tactic(auto, unfolding(crate::specs::Incoming::block_outcome_of, crate::specs::Incoming::block_after))]
    pub(crate) fn add(
        &mut self,
        link: Link,
        id: InvokeId,
        block: &DataBlock,
    ) -> Result<Added, AllocError>
        ensures outcome { IfOk result (λ added. outcome_of_added added
            ≡ block_outcome_of link id self.old.purpose block.now self.old.blocks) }
        ensures new_state { IfOk result (λ added. after_adding added self.new
            ≡ block_after self.old.purpose block.now self.old.blocks) }
        ensures err { OnErr result (self.new ≡ self.old) }
    {
        let service = self.purpose.service();
        match self
            .blocks
            .add(block.last, block.number, block.raw.as_slice())
        {
            Ok(None) => {
                let response = service.block_response(id, block.number);
                Ok(Added::Continues(Due::response(link.source, response)))
            }
            Ok(Some(bytes)) => Ok(Added::Whole(Joined {
                link,
                purpose: self.purpose,
                id,
                number: block.number,
                bytes,
            })),
            Err(BlockFault::Memory) => Err(AllocError),
            Err(fault) => Ok(Added::Refused(service.fault(link.source, id, block.number, fault))),
        }
    }
}

// Adds a block to a transfer of this service, and returns what became of the transfer. If out of
// memory, nothing has changed.
pub(crate) fn add_to(
    transfer: &mut Option<Incoming>,
    link: Link,
    id: InvokeId,
    service: LongService,
    block: &DataBlock,
) -> Result<Added, AllocError>
    ensures outcome { IfOk result (λ added. outcome_of_added added
        ≡ later_outcome link service id block.now (transfer_of service transfer.old)) }
    ensures new_state { OnOk result (transfer.new
        ≡ later_after block.now (transfer_of service transfer.old)) }
    ensures err { OnErr result (transfer.new ≡ transfer.old) }
{
    match transfer {
        Some(incoming) if incoming.purpose.is_of(service) => {
            let added = incoming.add(link, id, block)?;
            if added.is_over() {
                *transfer = None;
            }
            Ok(added)
        }
        Some(_) | None => {
            *transfer = None;
            Ok(Added::Refused(service.fault(link.source, id, block.number, BlockFault::NoTransfer)))
        }
    }
}
