//! The state of a session between two frames, the association and its block transfers, and the
//! effect of each frame on it.
ghost use Rattle.std.specs.Prelude.{◌≡◌, ◌≤◌, Some, None, length, true, false, IfOk, OnOk, OnErr};
ghost use Rattle.acse_ber.specs.Reading.{aarq_of};
ghost use Rattle.session_core.specs.Association.{link_by_opening};
ghost use Rattle.session_core.specs.Rules.{heard_frame, opening_answer};
ghost use Rattle.session_core.specs.Calls.{call_of};
ghost use Rattle.session_core.specs.Incoming.{block_outcome_of, block_after, no_blocks, transfer_of, later_outcome, later_after};
ghost use Rattle.session_core.specs.declared.answer.Answer.TheVariants.{Service};

use crate::answer::Answer;
use crate::asked::{Asked, ReplyForm};
use crate::call::{Call, has_tag, is_call, read_call};
use crate::due::Due;
use crate::incoming::{Incoming, LongService, Purpose, add_to};
use crate::link::{Link, answer_to, link_from};
use crate::outgoing::{Outgoing, continue_transfer};
use crate::password::Password;
use crate::step::TurnStep;
use acse_ber::tag::AARQ;
use acse_ber::{AcseFault, judge, read_aarq};
use cosem_axdr::Data;
use cosem_names::{AttributeSelection, Level};
use relay_events::Event;
use std::alloc::{AllocError, Global};
use xdlms_apdu::{DataBlock, Exception, InvokeId, Request};
use xdlms_blocks::JoinBlocks;

// The state that a session keeps from one frame to the next: the association and the transfers in
// blocks.
#[derive(Drop)]
pub(crate) struct State {
    pub(crate) link: Option<Link>,
    pub(crate) incoming: Option<Incoming>,
    pub(crate) outgoing: Option<Outgoing>,
}

impl State {
    ghost use Rattle.session_core.specs.Rules.{heard_frame, outcome_at, state_after, state_by_call, step_outcome, outcome_of_turn, call_turn, request_turn};
    ghost use Rattle.session_core.specs.Outcome.{asks, says};
    ghost use Rattle.session_core.specs.Outgoing.{transfer_after_next, continued_response};

    // Returns the state of a new session: no association and no transfer.
    pub(crate) fn new() -> State
        ensures { result ≡ record { link = None; incoming = None; outgoing = None } }
    {
        State {
            link: None,
            incoming: None,
            outgoing: None,
        }
    }

    // Handles a frame for the server. If out of memory, nothing has changed.
    #[tactic(auto, unfolding(crate::specs::Rules::turn_of, crate::specs::Rules::link_after, crate::specs::Rules::incoming_after, crate::specs::Rules::outgoing_after))]
    pub(crate) fn receive(
        &mut self,
        alloc: Global,
        password: &Password,
        src: u16,
        payload: &[u8],
    ) -> Result<TurnStep, AllocError>
        ensures outcome { IfOk result (λ step. step_outcome step
            ≡ outcome_at password.now self.old (heard_frame src payload.now)) }
        ensures new_state { OnOk result (self.new
            ≡ state_after password.now self.old (heard_frame src payload.now) None) }
        ensures err { OnErr result (self.new ≡ self.old) }
    {
        if has_tag(AARQ, payload) {
            return self.open(alloc, password, src, payload);
        }
        if !is_call(payload) {
            return Ok(TurnStep::Say(Due::exception(src, Exception::Unknown)));
        }
        match self.link {
            Some(link) if link.source == src => self.call(alloc, link, payload),
            Some(_) | None => Ok(TurnStep::Say(Due::exception(src, Exception::NotAllowed))),
        }
    }

    // Handles an AARQ: it ends the association, and opens another if it is accepted.
    fn open(
        &mut self,
        alloc: Global,
        password: &Password,
        src: u16,
        payload: &[u8],
    ) -> Result<TurnStep, AllocError>
        ensures outcome { IfOk result (λ step. step_outcome step
            ≡ says src (opening_answer password.now src (aarq_of payload.now))) }
        ensures new_state { OnOk result (self.new
            ≡ record {
              link = link_by_opening password.now (heard_frame src payload.now);
              incoming = None;
              outgoing = None;
            }) }
        ensures err { OnErr result (self.new ≡ self.old) }
    {
        let (link, due) = read_opening(alloc, password, src, payload)?;
        *self = State {
            link,
            incoming: None,
            outgoing: None,
        };
        Ok(TurnStep::Say(due))
    }

    // Handles a request from the client of the association.
    pub(crate) fn call(
        &mut self,
        alloc: Global,
        link: Link,
        payload: &[u8],
    ) -> Result<TurnStep, AllocError>
        ensures outcome { IfOk result (λ step. step_outcome step
            ≡ outcome_of_turn self.old.outgoing
            (call_turn link self.old.incoming (call_of link.conformance.0 payload.now))) }
        ensures new_state { OnOk result (self.new
            ≡ state_by_call link (call_of link.conformance.0 payload.now) self.old) }
        ensures err { OnErr result (self.new ≡ self.old) }
    {
        match read_call(alloc, link.conformance, payload)? {
            Call::Service(request) => self.serve(alloc, link, request),
            Call::Release => {
                *self = State::new();
                Ok(TurnStep::Say(Due::release(link.source)))
            }
            Call::Refused(exception) => {
                self.incoming = None;
                self.outgoing = None;
                Ok(TurnStep::Say(Due::exception(link.source, exception)))
            }
        }
    }

    // Handles a request for a service.
    fn serve(&mut self, alloc: Global, link: Link, request: Request) -> Result<TurnStep, AllocError>
        ensures outcome { IfOk result (λ step. step_outcome step
            ≡ outcome_of_turn self.old.outgoing (request_turn link self.old.incoming request)) }
        ensures new_state { OnOk result (self.new
            ≡ state_by_call link (Call.Service request) self.old) }
        ensures err { OnErr result (self.new ≡ self.old) }
    {
        let level = link.level;
        match request {
            Request::Get { id, target } => {
                Ok(self.ask(get_event(level, target), link, ReplyForm::Get(id)))
            }
            Request::GetList { id, targets } => {
                let event = Event::GetList {
                    level,
                    items: targets,
                };
                Ok(self.ask(event, link, ReplyForm::GetList(id)))
            }
            Request::Set { id, target, value } => {
                Ok(self.ask(set_event(level, target, value), link, ReplyForm::Set(id)))
            }
            Request::Action {
                id,
                method,
                parameter,
            } => {
                let event = Event::Execute {
                    level,
                    method,
                    parameter,
                };
                Ok(self.ask(event, link, ReplyForm::Action(id)))
            }
            Request::GetNext { id, number } => self.give(alloc, link, id, number),
            Request::SetFirst { id, target, block } => {
                self.begin(alloc, link, id, Purpose::Set(target), block)
            }
            Request::ActionFirst { id, method, block } => {
                self.begin(alloc, link, id, Purpose::Action(method), block)
            }
            Request::SetNext { id, block } => self.join(link, id, LongService::Set, block),
            Request::ActionNext { id, block } => self.join(link, id, LongService::Action, block),
        }
    }

    // Returns the step that passes an event to the meter. This ends the transfers.
    fn ask(&mut self, event: Event, link: Link, form: ReplyForm) -> TurnStep
        ensures step { step_outcome result ≡ asks event (record { link = link; form = form }) }
        ensures new_state { self.new
            ≡ record { link = self.old.link; incoming = None; outgoing = None } }
    {
        self.incoming = None;
        self.outgoing = None;
        TurnStep::Ask(event, Asked { link, form })
    }

    // Sends the next block of a long GET. This ends a long SET or ACTION.
    fn give(
        &mut self,
        alloc: Global,
        link: Link,
        id: InvokeId,
        number: u32,
    ) -> Result<TurnStep, AllocError>
        ensures outcome { IfOk result (λ step. step_outcome step
            ≡ says link.source (Service (continued_response id number self.old.outgoing))) }
        ensures new_state { OnOk result (self.new
            ≡ record {
              link = self.old.link;
              incoming = None;
              outgoing = transfer_after_next number self.old.outgoing;
            }) }
        ensures err { OnErr result (self.new ≡ self.old) }
    {
        let due = continue_transfer(&mut self.outgoing, alloc, link.source, id, number)?;
        self.incoming = None;
        Ok(TurnStep::Say(due))
    }

    // Handles the first block of a long SET or ACTION. This ends the transfers before it.
    fn begin(
        &mut self,
        alloc: Global,
        link: Link,
        id: InvokeId,
        purpose: Purpose,
        block: DataBlock,
    ) -> Result<TurnStep, AllocError>
        ensures outcome { IfOk result (λ step. step_outcome step
            ≡ block_outcome_of link id purpose block no_blocks) }
        ensures new_state { OnOk result (self.new
            ≡ record {
              link = self.old.link;
              incoming = block_after purpose block no_blocks;
              outgoing = None;
            }) }
        ensures err { OnErr result (self.new ≡ self.old) }
    {
        let mut incoming = Incoming {
            purpose,
            blocks: JoinBlocks::new(alloc),
        };
        let added = incoming.add(link, id, &block);
        drop(block);
        match added {
            Ok(added) => {
                self.outgoing = None;
                self.incoming = if added.is_over() {
                    drop(incoming);
                    None
                } else {
                    Some(incoming)
                };
                Ok(TurnStep::from(added))
            }
            Err(error) => {
                drop(incoming);
                Err(error)
            }
        }
    }

    // Handles a later block of a long SET or ACTION. This ends a long GET.
    fn join(
        &mut self,
        link: Link,
        id: InvokeId,
        service: LongService,
        block: DataBlock,
    ) -> Result<TurnStep, AllocError>
        ensures outcome { IfOk result (λ step. step_outcome step
            ≡ later_outcome link service id block (transfer_of service self.old.incoming)) }
        ensures new_state { OnOk result (self.new
            ≡ record {
              link = self.old.link;
              incoming = later_after block (transfer_of service self.old.incoming);
              outgoing = None;
            }) }
        ensures err { OnErr result (self.new ≡ self.old) }
    {
        let added = add_to(&mut self.incoming, link, id, service, &block);
        drop(block);
        let added = added?;
        self.outgoing = None;
        Ok(TurnStep::from(added))
    }
}

// Returns the event of a GET.
fn get_event(level: Level, target: AttributeSelection) -> Event
    ensures { result ≡ Event.Get level target.attr target.selected }
{
    Event::Get {
        level,
        attr: target.attr,
        selected: target.selected,
    }
}

// Returns the event of a SET.
fn set_event(level: Level, target: AttributeSelection, value: Data) -> Event
    ensures { result ≡ Event.Set level target.attr target.selected value }
{
    Event::Set {
        level,
        attr: target.attr,
        selected: target.selected,
        value,
    }
}

// Returns the association that a frame with an AARQ opens, and the answer.
#[tactic(auto, unfolding(crate::specs::Association::link_by_opening))]
fn read_opening(
    alloc: Global,
    password: &Password,
    src: u16,
    payload: &[u8],
) -> Result<(Option<Link>, Due), AllocError>
    ensures link { IfOk result (λ opening. opening.0
        ≡ link_by_opening password.now (heard_frame src payload.now)) }
    ensures receiver { IfOk result (λ opening. opening.1.to ≡ src) }
    ensures answer { IfOk result (λ opening. opening.1.answer
        ≡ opening_answer password.now src (aarq_of payload.now)) }
{
    match read_aarq(alloc, payload) {
        Ok(aarq) => {
            let verdict = judge(&aarq, src, password.octets());
            Ok((
                link_from(src, verdict),
                Due::association(src, answer_to(verdict)),
            ))
        }
        Err(AcseFault::Unreadable) => { Ok((None, Due::exception(src, Exception::Unreadable))) }
        Err(AcseFault::Memory) => Err(AllocError),
    }
}
