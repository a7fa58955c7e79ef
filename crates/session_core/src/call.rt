//! Reads the request in a payload: a release, a GET, SET or ACTION, or one that is answered by an
//! exception (IEC 62056-5-3).
ghost use Rattle.std.specs.Prelude.{◌≡◌, IfOk};
ghost use Rattle.session_core.specs.Calls.{tag_is, is_call, call_of, request_call};

use crate::conformance::is_negotiated;
use acse_ber::tag::RLRQ;
use acse_ber::{Conformance, is_release};
use std::alloc::{AllocError, Global};
use xdlms_apdu::tag::{ACTION_REQUEST, GET_REQUEST, SET_REQUEST};
use xdlms_apdu::{ApduFault, Exception, Request, read_request};

// A request in a payload from the client of an association.
#[derive(Drop)]
pub(crate) enum Call {
    // The release of the association.
    Release,
    // A request for a service.
    Service(Request),
    // Not readable, or not supported.
    Refused(Exception),
}

// Returns whether the payload begins with this tag.
pub(crate) fn has_tag(tag: u8, payload: &[u8]) -> bool
    ensures { result ≡ tag_is tag payload.now }
{
    match payload {
        [] => false,
        [first, ..] => *first == tag,
    }
}

// Returns whether the payload begins with the tag of a release or of a service.
pub(crate) fn is_call(payload: &[u8]) -> bool
    ensures { result ≡ is_call payload.now }
{
    has_tag(RLRQ, payload)
        || has_tag(GET_REQUEST, payload)
        || has_tag(SET_REQUEST, payload)
        || has_tag(ACTION_REQUEST, payload)
}

// Reads the request in a payload, given the negotiated conformance bits. Its form is judged before
// its body.
#[tactic(auto, unfolding(crate::specs::Calls::call_of))]
pub(crate) fn read_call(
    alloc: Global,
    conformance: Conformance,
    payload: &[u8],
) -> Result<Call, AllocError>
    ensures { IfOk result (λ call. call ≡ call_of conformance.0 payload.now) }
{
    if !has_tag(RLRQ, payload) {
        return read_service(alloc, conformance, payload);
    }
    if is_release(payload) {
        Ok(Call::Release)
    } else {
        Ok(Call::Refused(Exception::Unreadable))
    }
}

// Reads the request in a service's payload.
fn read_service(alloc: Global, conformance: Conformance, payload: &[u8]) -> Result<Call, AllocError>
    ensures { IfOk result (λ call. call ≡ request_call conformance.0 payload.now) }
{
    let [tag, form, ..] = payload else {
        return Ok(Call::Refused(Exception::Unreadable));
    };
    if !is_negotiated(conformance, *tag, *form) {
        return Ok(Call::Refused(Exception::Unknown));
    }
    match read_request(alloc, payload) {
        Ok(request) => Ok(Call::Service(request)),
        Err(ApduFault::Memory) => Err(AllocError),
        Err(ApduFault::UnknownTag | ApduFault::UnknownForm | ApduFault::Unreadable) => {
            Ok(Call::Refused(Exception::Unreadable))
        }
    }
}
