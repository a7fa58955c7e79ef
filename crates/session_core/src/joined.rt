//! A long SET or ACTION whose last block has arrived: its bytes are decoded to the event for the
//! meter.
ghost use Rattle.std.specs.Prelude.{◌≡◌, IfOk, IsTrue};
ghost use Rattle.session_core.specs.Incoming.{whole_data, whole_outcome, event_by, form_by};
ghost use Rattle.session_core.specs.Outcome.{asks};
ghost use Rattle.session_core.specs.Rules.{step_outcome, is_settled};

use crate::asked::{Asked, ReplyForm};
use crate::due::Due;
use crate::incoming::Purpose;
use crate::link::Link;
use crate::step::TurnStep;
use cosem_axdr::{Data, DataFault, Octets, read};
use cosem_names::ResultCode;
use relay_events::Event;
use std::alloc::{AllocError, Global};
use xdlms_apdu::InvokeId;

// A long SET or ACTION whose blocks have all arrived.
#[derive(Drop)]
pub(crate) struct Joined {
    pub(crate) link: Link,
    pub(crate) purpose: Purpose,
    pub(crate) id: InvokeId,
    // The number of the last block.
    pub(crate) number: u32,
    // The bytes of all blocks, concatenated.
    pub(crate) bytes: Octets,
}

impl Joined {
    // Decodes the joined bytes. Unless they are exactly one Data, the request is refused.
    #[tactic(auto, unfolding(crate::specs::Incoming::whole_outcome))]
    pub(crate) fn read(&self, alloc: Global) -> Result<TurnStep, AllocError>
        ensures outcome { IfOk result (λ step. step_outcome step ≡ whole_outcome self.now) }
        ensures settled { IfOk result (λ step. IsTrue (is_settled step)) }
    {
        match read_whole(alloc, self.bytes.as_slice())? {
            Some(value) => Ok(self.ask(value)),
            None => {
                let service = self.purpose.service();
                let refusal = service.refusal_response(
                    self.id,
                    self.number,
                    ResultCode::OtherReason,
                );
                Ok(TurnStep::Say(Due::response(self.link.source, refusal)))
            }
        }
    }

    // Returns the event of a transfer that contains this value.
    fn ask(&self, value: Data) -> TurnStep
        ensures step { step_outcome result
            ≡ asks (event_by self.now.link.level self.now.purpose value)
            (record {
              link = self.now.link;
              form = form_by self.now.purpose self.now.id self.now.number;
            }) }
        ensures settled { IsTrue (is_settled result) }
    {
        let link = self.link;
        let level = link.level;
        match self.purpose {
            Purpose::Set(target) => TurnStep::Ask(
                Event::Set {
                    level,
                    attr: target.attr,
                    selected: target.selected,
                    value,
                },
                Asked {
                    link,
                    form: ReplyForm::SetLastBlock(self.id, self.number),
                },
            ),
            Purpose::Action(method) => TurnStep::Ask(
                Event::Execute {
                    level,
                    method,
                    parameter: Some(value),
                },
                Asked {
                    link,
                    form: ReplyForm::Action(self.id),
                },
            ),
        }
    }
}

// Decodes bytes that are exactly one Data, or `None` if they are not.
#[tactic(auto, unfolding(crate::specs::Incoming::whole_data))]
fn read_whole(alloc: Global, bytes: &[u8]) -> Result<Option<Data>, AllocError>
    ensures { IfOk result (λ value. value ≡ whole_data bytes.now) }
{
    match read(alloc, bytes) {
        Ok((value, size)) if size == bytes.len() => Ok(Some(value)),
        Ok(_) => Ok(None),
        Err(DataFault::Memory) => Err(AllocError),
        Err(
            DataFault::Truncated | DataFault::UnknownTag | DataFault::TooDeep | DataFault::TooLong,
        ) => Ok(None),
    }
}
