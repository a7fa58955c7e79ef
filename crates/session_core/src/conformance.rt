//! The forms of requests, and the services that each needs (IEC 62056-5-3, conformance block).
ghost use Rattle.std.specs.Prelude.{◌≡◌};
ghost use Rattle.session_core.specs.Calls.{request_form, is_negotiated};

use acse_ber::Conformance;
use bitflags::Flags;
use xdlms_apdu::form;
use xdlms_apdu::tag::{ACTION_REQUEST, GET_REQUEST, SET_REQUEST};

// A form of a request: the tag of its service, its number, and the services that it needs.
#[derive(Clone, Copy)]
pub(crate) struct RequestForm {
    pub(crate) tag: u8,
    pub(crate) number: u8,
    pub(crate) needs: Conformance,
}

macro_rules! request_form {
    ($tag:ident, $number:expr; $($service:ident)|+) => {
        RequestForm {
            tag: $tag,
            number: $number,
            needs: Conformance($(Conformance::$service.0)|+),
        }
    };
}

// The forms of requests that the server knows.
pub(crate) const REQUEST_FORMS: [RequestForm; 9] = [
    request_form!(GET_REQUEST, form::NORMAL; GET),
    request_form!(GET_REQUEST, form::get_request::NEXT; GET | BLOCK_TRANSFER_WITH_GET_OR_READ),
    request_form!(GET_REQUEST, form::get_request::WITH_LIST; GET | MULTIPLE_REFERENCES),
    request_form!(SET_REQUEST, form::NORMAL; SET),
    request_form!(
        SET_REQUEST, form::set_request::WITH_FIRST_DATABLOCK;
        SET | BLOCK_TRANSFER_WITH_SET_OR_WRITE
    ),
    request_form!(
        SET_REQUEST, form::set_request::WITH_DATABLOCK;
        SET | BLOCK_TRANSFER_WITH_SET_OR_WRITE
    ),
    request_form!(ACTION_REQUEST, form::NORMAL; ACTION),
    request_form!(
        ACTION_REQUEST, form::action_request::WITH_FIRST_PBLOCK;
        ACTION | BLOCK_TRANSFER_WITH_ACTION
    ),
    request_form!(
        ACTION_REQUEST, form::action_request::WITH_PBLOCK;
        ACTION | BLOCK_TRANSFER_WITH_ACTION
    ),
];

// Returns the request form with this tag and number, or `None` if the server does not know it.
#[tactic(auto, unfolding(crate::specs::Calls::request_form))]
fn request_form(tag: u8, number: u8) -> Option<RequestForm>
    ensures { result ≡ request_form tag number }
{
    REQUEST_FORMS
        .iter()
        .copied()
        .find(|form| form.tag == tag && form.number == number)
}

// Returns whether a form is known and all its bits are negotiated.
#[tactic(auto, unfolding(crate::specs::Calls::is_negotiated))]
pub(crate) fn is_negotiated(conformance: Conformance, tag: u8, number: u8) -> bool
    ensures { result ≡ is_negotiated conformance.0 tag number }
{
    match request_form(tag, number) {
        Some(form) => conformance.contains(form.needs),
        None => false,
    }
}
