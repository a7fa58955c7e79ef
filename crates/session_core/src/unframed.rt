//! Requests without a frame and without an association.
ghost use Rattle.std.specs.Prelude.{◌≡◌, None, IsTrue, IfOk};
ghost use Rattle.session_core.specs.Answers.{answer_text};
ghost use Rattle.session_core.specs.Calls.{call_of};
ghost use Rattle.session_core.specs.Incoming.{whole_outcome};
ghost use Rattle.session_core.specs.Outgoing.{reply_response};
ghost use Rattle.session_core.specs.Rules.{call_turn, is_settled, outcome_of_turn, step_outcome};
ghost use Rattle.session_core.specs.Unframed.{unframed_of, unframed_outcome, is_unframed};
ghost use Rattle.session_core.specs.declared.answer.Answer.TheVariants.{Service};

use crate::answer::Way;
use crate::asked::Asked;
use crate::due::Due;
use crate::joined::Joined;
use crate::limit::{Limit, MAX_PDU};
use crate::link::Link;
use crate::replying::{Answered, answer_reply};
use crate::state::State;
use crate::step::TurnStep;
use acse_ber::{MANAGEMENT_CLIENT, OFFERED_CONFORMANCE};
use cosem_axdr::Octets;
use cosem_names::Level;
use relay_events::{Event, Reply};
use std::alloc::{AllocError, Global};
use xdlms_apdu::Exception;
use xdlms_apdu::tag::{ACTION_REQUEST, GET_REQUEST, SET_REQUEST};

/// The result of a request without a frame: an event for the meter, or the answer.
#[derive(Debug, Drop)]
pub enum Unframed {
    /// An event for the meter, and what the answer to its reply needs from the request.
    Ask(Event, Asked),
    /// An answer.
    Say(Octets),
}

/// Handles a request without a frame and without an association. It is judged as a request of a
/// management client that negotiated all services of the meter and receives PDUs of 1,024 bytes. A
/// GET, a GET with list, a SET and an ACTION in one piece are performed; any other form is unknown,
/// because it needs a session (IEC 62056-5-3). Fails if out of memory.
#[tactic(auto, unfolding(crate::specs::Unframed::unframed_outcome))]
pub fn ask_unframed(alloc: Global, payload: &[u8]) -> Result<Unframed, AllocError>
    ensures { IfOk result (λ unframed. unframed ≡ unframed_of (unframed_outcome payload.now)) }
{
    if !is_unframed(payload) {
        let due = Due::exception(MANAGEMENT_CLIENT, Exception::Unknown);
        return say(alloc, due);
    }
    let link = Link {
        source: MANAGEMENT_CLIENT,
        level: Level::Management,
        conformance: OFFERED_CONFORMANCE,
        limit: Limit::new(MAX_PDU),
    };
    match call_alone(alloc, link, payload)? {
        TurnStep::Join(joined) => unframed_outcome(alloc, read_joined(alloc, joined)?),
        step => unframed_outcome(alloc, step),
    }
}

// Handles a request that no other precedes.
fn call_alone(alloc: Global, link: Link, payload: &[u8]) -> Result<TurnStep, AllocError>
    ensures { IfOk result (λ step. step_outcome step
        ≡ outcome_of_turn None (call_turn link None (call_of link.conformance.0 payload.now))) }
{
    let mut state = State::new();
    let step = state.call(alloc, link, payload);
    drop(state);
    step
}

// Decodes the joined bytes of a transfer.
fn read_joined(alloc: Global, joined: Joined) -> Result<TurnStep, AllocError>
    ensures outcome { IfOk result (λ step. step_outcome step ≡ whole_outcome joined) }
    ensures settled { IfOk result (λ step. IsTrue (is_settled step)) }
{
    let step = joined.read(alloc);
    drop(joined);
    step
}

// Returns the result of a step.
fn unframed_outcome(alloc: Global, step: TurnStep) -> Result<Unframed, AllocError>
    requires { IsTrue (is_settled step) }
    ensures { IfOk result (λ unframed. unframed ≡ unframed_of (step_outcome step)) }
{
    match step {
        TurnStep::Ask(event, asked) => Ok(Unframed::Ask(event, asked)),
        TurnStep::Say(due) => say(alloc, due),
        TurnStep::Join(_) => unreachable!(),
    }
}

// Returns an answer without a frame.
fn say(alloc: Global, due: Due) -> Result<Unframed, AllocError>
    ensures { IfOk result (λ unframed. unframed ≡ Unframed.Say (answer_text due.answer)) }
{
    Ok(Unframed::Say(due.into_text(alloc, Way::Bare)?))
}

// Returns whether a payload is a service's tag alone, or a form of a service that needs no session.
fn is_unframed(payload: &[u8]) -> bool
    ensures { result ≡ is_unframed payload.now }
{
    match payload {
        [] => false,
        [tag] => *tag == GET_REQUEST || *tag == SET_REQUEST || *tag == ACTION_REQUEST,
        [tag, form, ..] => {
            (*tag == GET_REQUEST && (*form == 1 || *form == 3))
                || (*tag == SET_REQUEST && *form == 1)
                || (*tag == ACTION_REQUEST && *form == 1)
        }
    }
}

/// Returns the answer to the reply to an event of a request without a frame. A long answer is the
/// first block of a transfer that cannot be continued. Fails if out of memory.
pub fn answer_unframed(alloc: Global, asked: Asked, reply: Reply) -> Result<Octets, AllocError>
    ensures { IfOk result (λ text. text ≡ answer_text (Service (reply_response asked reply))) }
{
    match answer_reply(alloc, asked, Way::Bare, reply) {
        Ok(Answered { text, outgoing }) => {
            drop(outgoing);
            Ok(text)
        }
        Err((error, reply)) => {
            drop(reply);
            Err(error)
        }
    }
}
