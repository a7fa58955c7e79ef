//! Writes the most frequent answers without allocating: to a GET of a boolean or an enum, to a SET
//! and to an ACTION (IEC 62056-5-3).
ghost use Rattle.std.specs.Prelude.{◌≡◌, ◌≢◌, ◌≤◌, ◌↔◌, None, true, length, IfSome, IfNone};
ghost use Rattle.session_core.specs.Answers.{answer_text};
ghost use Rattle.session_core.specs.Outgoing.{reply_code, outgoing_by};
ghost use Rattle.session_core.specs.Rules.{reply_text};
ghost use Rattle.session_core.specs.ShortAnswers.{is_two_bytes, short_frame, IsShortIn};
ghost use Rattle.session_core.specs.declared.answer.Answer.TheVariants.{Service};
ghost use Rattle.wrapper_frame.specs.Text.{IsPlaced};

use crate::answer::SERVER_PORT;
use crate::asked::{Asked, ReplyForm};
use crate::replying::reply_code;
use cosem_axdr::Data;
use cosem_axdr::tag::{BOOLEAN, ENUM};
use cosem_names::GetResult;
use relay_events::Reply;
use wrapper_frame::put_frame;
use xdlms_apdu::choice::DATA;
use xdlms_apdu::form::NORMAL;
use xdlms_apdu::tag::{ACTION_RESPONSE, GET_RESPONSE, SET_RESPONSE};
use xdlms_apdu::{InvokeId, Response};

// The byte that says that the answer to an ACTION has no value.
const NO_VALUE: u8 = 0;

// Returns the answer to a GET of a boolean or an enum, or `None` for a value of another type.
#[inline(always)]
#[tactic(auto, unfolding(crate::specs::Answers::answer_text, xdlms_apdu::specs::Responses::response_text))]
fn value_answer(id: InvokeId, value: &Data) -> Option<[u8; 6]>
    ensures text { IfSome result (λ text. text
        ≡ answer_text (Service (Response.Get id (GetResult.Value value.now)))) }
    ensures size { IfSome result (λ text. length text ≡ 6) }
    ensures which { (result ≢ None) ↔ (is_two_bytes value.now ≡ true) }
{
    match value {
        Data::Boolean(is_on) => Some([GET_RESPONSE, NORMAL, id.0, DATA, BOOLEAN, u8::from(*is_on)]),
        Data::Enum(number) => Some([GET_RESPONSE, NORMAL, id.0, DATA, ENUM, *number]),
        _ => None,
    }
}

// Returns the answer to a SET, with the reply's result code.
#[inline(always)]
#[tactic(auto, unfolding(crate::specs::Answers::answer_text, xdlms_apdu::specs::Responses::response_text))]
pub(crate) fn set_answer(id: InvokeId, reply: &Reply) -> [u8; 4]
    ensures { result ≡ answer_text (Service (Response.Set id (reply_code reply.now))) }
{
    [SET_RESPONSE, NORMAL, id.0, reply_code(reply).code()]
}

// Returns the answer to an ACTION, with the reply's result code.
#[inline(always)]
#[tactic(auto, unfolding(crate::specs::Answers::answer_text, xdlms_apdu::specs::Responses::response_text))]
pub(crate) fn action_answer(id: InvokeId, reply: &Reply) -> [u8; 5]
    ensures { result ≡ answer_text (Service (Response.Action id (reply_code reply.now))) }
{
    [
        ACTION_RESPONSE,
        NORMAL,
        id.0,
        reply_code(reply).code(),
        NO_VALUE,
    ]
}

// Writes the frame with the answer to the front of a buffer, and returns its length. Returns
// `None`, and changes nothing, for any other answer and if the buffer is too short.
#[inline(always)]
pub(crate) fn put_answer(asked: Asked, reply: &Reply, buffer: &mut [u8]) -> Option<usize>
    ensures placed { IfSome result (λ count. IsPlaced (reply_text asked reply.now) count buffer.old
        buffer.new) }
    ensures begins_none { IfSome result (λ count. outgoing_by asked reply.now ≡ None) }
    ensures none { IfNone result (buffer.new ≡ buffer.old) }
    ensures fits { (result ≢ None) ↔ IsShortIn buffer.old asked reply.now }
    ensures within_max { IfSome result (λ count. count ≤ short_frame) }
{
    // (no effect: the contract needs this law)
    asked.link.limit.holds_range();
    let to = asked.link.source;
    match asked.form {
        ReplyForm::Get(id) => {
            let Reply::Value(value) = reply else {
                return None;
            };
            put_frame(SERVER_PORT, to, &value_answer(id, value)?, buffer)
        }
        ReplyForm::Set(id) => put_frame(SERVER_PORT, to, &set_answer(id, reply), buffer),
        ReplyForm::Action(id) => put_frame(SERVER_PORT, to, &action_answer(id, reply), buffer),
        ReplyForm::GetList(_) | ReplyForm::SetLastBlock(_, _) => None,
    }
}
