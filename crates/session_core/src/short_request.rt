//! Reads the most frequent requests without allocating: a GET of one attribute, a SET of one to an
//! enum, and an ACTION with an integer (IEC 62056-5-3).
ghost use Rattle.std.specs.Prelude.{◌≡◌, ◌≢◌, ◌↔◌, None, true, IfSome};
ghost use Rattle.session_core.specs.Calls.{IsShortRequest, is_negotiated, short_event};
ghost use Rattle.session_core.specs.ShortRequests.{IsShortAction, IsShortGet, IsShortSet};
ghost use Rattle.session_core.specs.ShortRequests.{IsShortText};
ghost use Rattle.session_core.specs.Standard.{action_tag, get_tag, set_tag};

use crate::asked::ReplyForm;
use acse_ber::Conformance;
use bitflags::Flags;
use byteorder::{BigEndian, ByteOrder};
use cosem_axdr::Data;
use cosem_axdr::tag::{ENUM, INTEGER};
use cosem_names::{AttrRef, ClassId, Level, MethodRef, Obis};
use relay_events::Event;
use xdlms_apdu::InvokeId;
use xdlms_apdu::form::NORMAL;
use xdlms_apdu::tag::{ACTION_REQUEST, GET_REQUEST, SET_REQUEST};

// The length in bytes of a GET of one attribute.
const GET_SIZE: usize = 13;
// The length in bytes of a SET or an ACTION whose value has two bytes.
const COMMAND_SIZE: usize = 15;
// The byte that says that a GET or a SET has no access selection.
const ABSENT: u8 = 0;
// The byte that says that an ACTION has a parameter.
const PRESENT: u8 = 1;

/// A request that a session reads and answers without building a large value. A GET or a SET is of
/// one attribute, without selective access.
#[derive(Clone, Copy)]
pub enum ShortRequest {
    /// A GET of this attribute.
    Get(AttrRef),
    /// A SET of this attribute to this enum.
    Set(AttrRef, u8),
    /// An ACTION of this method with an integer, whose byte this is.
    Action(MethodRef, u8),
}

impl ShortRequest {
    /// Returns the event of the request from a client of this level.
    #[inline(always)]
    pub fn event(self, level: Level) -> Event
        ensures { result ≡ short_event level self }
    {
        match self {
            ShortRequest::Get(attr) => Event::Get {
                level,
                attr,
                selected: false,
            },
            ShortRequest::Set(attr, value) => Event::Set {
                level,
                attr,
                selected: false,
                value: Data::Enum(value),
            },
            ShortRequest::Action(method, value) => Event::Execute {
                level,
                method,
                parameter: Some(Data::Integer(value.cast_signed())),
            },
        }
    }
}

// Reads a short request and the form of its answer. Returns `None` for any other payload and if its
// service was not negotiated. `read_call` reads the same request, but this function does not
// allocate.
#[inline(always)]
pub(crate) fn read_short_request(
    conformance: Conformance,
    payload: &[u8],
) -> Option<(ReplyForm, ShortRequest)>
    ensures read { IfSome result (λ read. IsShortRequest conformance.0 payload.now read.0 read.1) }
    ensures is_short { (result ≢ None) ↔ IsShortText conformance.0 payload.now }
{
    match payload.len() {
        GET_SIZE => read_get(conformance, payload),
        COMMAND_SIZE if payload[0] == SET_REQUEST => read_set(conformance, payload),
        COMMAND_SIZE => read_action(conformance, payload),
        _ => None,
    }
}

// Reads a GET.
#[inline(always)]
fn read_get(conformance: Conformance, payload: &[u8]) -> Option<(ReplyForm, ShortRequest)>
    ensures read { IfSome result (λ read. IsShortRequest conformance.0 payload.now read.0 read.1) }
    ensures is_short { (result ≢ None)
        ↔ (IsShortGet payload.now × (is_negotiated conformance.0 get_tag 1 ≡ true)) }
{
    let [
        tag,
        form,
        id,
        class_high,
        class_low,
        a,
        b,
        c,
        d,
        e,
        f,
        number,
        selection,
    ] = payload
    else {
        return None;
    };
    if *tag != GET_REQUEST || *form != NORMAL || *selection != ABSENT {
        return None;
    }
    if !conformance.contains(Conformance::GET) {
        return None;
    }
    let attr = AttrRef {
        class: ClassId(BigEndian::read_u16(&[*class_high, *class_low])),
        name: Obis([*a, *b, *c, *d, *e, *f]),
        number: *number,
    };
    Some((ReplyForm::Get(InvokeId(*id)), ShortRequest::Get(attr)))
}

// Reads a SET to an enum.
#[inline(always)]
fn read_set(conformance: Conformance, payload: &[u8]) -> Option<(ReplyForm, ShortRequest)>
    ensures read { IfSome result (λ read. IsShortRequest conformance.0 payload.now read.0 read.1) }
    ensures is_short { (result ≢ None)
        ↔ (IsShortSet payload.now × (is_negotiated conformance.0 set_tag 1 ≡ true)) }
{
    let [
        tag,
        form,
        id,
        class_high,
        class_low,
        a,
        b,
        c,
        d,
        e,
        f,
        number,
        selection,
        kind,
        value,
    ] = payload
    else {
        return None;
    };
    if *tag != SET_REQUEST || *form != NORMAL || *selection != ABSENT || *kind != ENUM {
        return None;
    }
    if !conformance.contains(Conformance::SET) {
        return None;
    }
    let attr = AttrRef {
        class: ClassId(BigEndian::read_u16(&[*class_high, *class_low])),
        name: Obis([*a, *b, *c, *d, *e, *f]),
        number: *number,
    };
    Some((
        ReplyForm::Set(InvokeId(*id)),
        ShortRequest::Set(attr, *value),
    ))
}

// Reads an ACTION with an integer.
#[inline(always)]
fn read_action(conformance: Conformance, payload: &[u8]) -> Option<(ReplyForm, ShortRequest)>
    ensures read { IfSome result (λ read. IsShortRequest conformance.0 payload.now read.0 read.1) }
    ensures is_short { (result ≢ None)
        ↔ (IsShortAction payload.now × (is_negotiated conformance.0 action_tag 1 ≡ true)) }
{
    let [
        tag,
        form,
        id,
        class_high,
        class_low,
        a,
        b,
        c,
        d,
        e,
        f,
        number,
        presence,
        kind,
        value,
    ] = payload
    else {
        return None;
    };
    if *tag != ACTION_REQUEST || *form != NORMAL || *presence != PRESENT || *kind != INTEGER {
        return None;
    }
    if !conformance.contains(Conformance::ACTION) {
        return None;
    }
    let method = MethodRef {
        class: ClassId(BigEndian::read_u16(&[*class_high, *class_low])),
        name: Obis([*a, *b, *c, *d, *e, *f]),
        number: *number,
    };
    Some((
        ReplyForm::Action(InvokeId(*id)),
        ShortRequest::Action(method, *value),
    ))
}
