//! The interpretation of the meter's responses.
ghost use Rattle.std.specs.Prelude.{◌≡◌};
ghost use Rattle.client_core.specs.Replies.{new_progress, with_outcome, is_granted, progress_after_aare, action_bytes, refused_bytes, state_bytes, action_reply, state_reply, outcome_of_response};
ghost use Rattle.client_core.specs.Outcomes.{or_unknown};
ghost use Rattle.client_core.specs.Steps.{progress_after};

use crate::job::{Outcome, Verb};
use crate::progress::Progress;
use crate::sending::INVOKE_ID;
use acse_ber::{ACCEPTED, Conformance, Info, read_aare};
use bitflags::Flags;
use cosem_axdr::tag::ENUM;
use std::alloc::Global;
use xdlms_apdu::choice::{DATA, RESULT};
use xdlms_apdu::form::NORMAL;
use xdlms_apdu::tag::{ACTION_RESPONSE, GET_RESPONSE};

// The invoke-id-and-priority of the request, which its answer has too.
const REQUEST_ID: u8 = INVOKE_ID.0;
// The result of what succeeded (IEC 62056-5-3, Data-Access-Result and Action-Result).
const SUCCESS: u8 = 0;
// The highest control state (IEC 62056-6-2, class 70, control_state).
const LAST_STATE: u8 = 2;

/// Returns the progress before any response.
pub fn new_progress() -> Progress
    ensures { result ≡ new_progress }
{
    Progress {
        accepted: false,
        outcome: None,
    }
}

// Returns the progress with an outcome that is settled before the request is sent.
fn with_outcome(outcome: Outcome) -> Progress
    ensures { result ≡ with_outcome outcome }
{
    Progress {
        accepted: false,
        outcome: Some(outcome),
    }
}

/// Returns the progress after one more payload from the meter.
pub fn progress_after(alloc: Global, verb: Verb, progress: Progress, payload: &[u8]) -> Progress
    ensures { result ≡ progress_after verb progress payload.now }
{
    if progress.outcome.is_some() {
        return progress;
    }
    if !progress.accepted {
        return progress_after_aare(verb, payload);
    }
    Progress {
        accepted: true,
        outcome: Some(outcome_of_response(verb, payload)),
    }
}

/// Returns the progress after a wrong header, after which nothing can be read: an outcome not yet
/// settled is unknown.
pub fn or_unknown(progress: Progress) -> Progress
    ensures { result ≡ or_unknown progress }
{
    Progress {
        accepted: progress.accepted,
        outcome: Some(progress.outcome.unwrap_or(Outcome::Unknown)),
    }
}

// Returns the progress after the response to the AARQ.
#[tactic(auto, unfolding(crate::specs::Replies::progress_after_aare))]
fn progress_after_aare(verb: Verb, payload: &[u8]) -> Progress
    ensures { result ≡ progress_after_aare verb payload.now }
{
    let Ok(aare) = read_aare(payload) else {
        return with_outcome(Outcome::Unknown);
    };
    if aare.result != ACCEPTED {
        return with_outcome(Outcome::Rejected(aare.diagnostic));
    }
    if !is_granted(verb, aare.info) {
        return with_outcome(Outcome::Rejected(0));
    }
    Progress {
        accepted: true,
        outcome: None,
    }
}

// Returns whether the negotiated services include that of the request.
fn is_granted(verb: Verb, info: Info) -> bool
    ensures { result ≡ is_granted verb info }
{
    let service = match verb {
        Verb::Disconnect | Verb::Reconnect => Conformance::ACTION,
        Verb::ReadState => Conformance::GET,
    };
    match info {
        Info::Response { bits, .. } => Conformance::from_bits_retain(bits).intersects(service),
        Info::Absent | Info::InitiateError(_) => false,
    }
}

// Returns the outcome according to the response to the request.
#[tactic(auto, using(crate::proofs::Fronts::outcome_disconnected, crate::proofs::Fronts::outcome_reconnected, crate::proofs::Fronts::outcome_state_read))]
fn outcome_of_response(verb: Verb, payload: &[u8]) -> Outcome
    ensures { result ≡ outcome_of_response verb payload.now }
{
    match verb {
        Verb::Disconnect | Verb::Reconnect => action_reply(payload),
        Verb::ReadState => state_reply(payload),
    }
}

// Returns the outcome of an Action-Response-Normal with invoke-id C1: its result. Further bytes
// are ignored.
fn action_reply(payload: &[u8]) -> Outcome
    ensures { result ≡ action_reply action_bytes payload.now }
{
    match payload {
        [ACTION_RESPONSE, NORMAL, REQUEST_ID, SUCCESS, ..] => Outcome::Done(SUCCESS),
        [ACTION_RESPONSE, NORMAL, REQUEST_ID, code, ..] => Outcome::Refused(*code),
        _ => Outcome::Unknown,
    }
}

// Returns the outcome of a Get-Response-Normal with invoke-id C1 and no further bytes: a result
// other than 0, or a control state from 0 to 2 as an enum.
fn state_reply(payload: &[u8]) -> Outcome
    ensures { result ≡ state_reply refused_bytes state_bytes payload.now }
{
    match payload {
        [GET_RESPONSE, NORMAL, REQUEST_ID, RESULT, code] if *code != SUCCESS => Outcome::Refused(
            *code,
        ),
        [GET_RESPONSE, NORMAL, REQUEST_ID, DATA, ENUM, state] if *state <= LAST_STATE => {
            Outcome::Done(*state)
        }
        _ => Outcome::Unknown,
    }
}
