//! The meaning of an answer of the meter for the log.
ghost use Rattle.std.specs.Prelude.{◌≡◌, IfOk};
ghost use Rattle.session_log.specs.Answers.{answer_of, answer_of_aare, answer_of_code};
ghost use Rattle.session_log.specs.Answers.{answer_of_read, answer_of_response, answer_of_result};
ghost use Rattle.xdlms_apdu.specs.Responses.{response_of};

use acse_ber::{ACCEPTED, Aare, read_aare};
use cosem_names::{GetResult, ResultCode};
use std::alloc::{AllocError, Global};
use xdlms_apdu::{ApduFault, Response, read_response};

/// What an answer of the meter says.
#[derive(Clone, Copy, Debug, PartialEq, Eq)]
pub enum AnswerKind {
    /// The association is open: an AARE with result 0.
    Opened,
    /// The association is refused: an AARE with another result, and this diagnostic.
    NotOpened(u8),
    /// The request is carried out, its value or a block of it follows, or a block is acknowledged.
    /// The results in a list are not looked at.
    Served,
    /// The request is refused: a result other than success, or an ExceptionResponse.
    Refused,
    /// Another message, such as the RLRE that ends an association.
    Other,
}

// Returns the meaning of an AARE.
fn answer_of_aare(aare: Aare) -> AnswerKind
    ensures { result ≡ answer_of_aare aare }
{
    if aare.result == ACCEPTED {
        AnswerKind::Opened
    } else {
        AnswerKind::NotOpened(aare.diagnostic)
    }
}

// Returns the meaning of a result code.
fn answer_of_code(code: ResultCode) -> AnswerKind
    ensures { result ≡ answer_of_code code }
{
    if code == ResultCode::Success {
        AnswerKind::Served
    } else {
        AnswerKind::Refused
    }
}

// Returns the meaning of the result of reading an attribute.
fn answer_of_result(read: &GetResult) -> AnswerKind
    ensures { result ≡ answer_of_result read.now }
{
    match read {
        GetResult::Value(_) => AnswerKind::Served,
        GetResult::Code(_) => AnswerKind::Refused,
    }
}

// Returns the meaning of a response.
fn answer_of_response(response: &Response) -> AnswerKind
    ensures { result ≡ answer_of_response response.now }
{
    match response {
        Response::Get { result: read, .. } => answer_of_result(read),
        Response::Set { code, .. }
        | Response::SetLastBlock { code, .. }
        | Response::Action { code, .. } => answer_of_code(*code),
        Response::GetBlockRefused { .. } | Response::Exception(_) => AnswerKind::Refused,
        Response::GetBlock { .. }
        | Response::GetList { .. }
        | Response::SetBlock { .. }
        | Response::ActionBlock { .. } => AnswerKind::Served,
    }
}

// Returns the meaning of a payload that is no AARE.
fn read_other(alloc: Global, payload: &[u8]) -> Result<AnswerKind, AllocError>
    ensures { IfOk result (λ answer. answer ≡ answer_of_read (response_of payload.now)) }
{
    match read_response(alloc, payload) {
        Ok(response) => {
            let answer = answer_of_response(&response);
            drop(response);
            Ok(answer)
        }
        Err(ApduFault::Memory) => Err(AllocError),
        Err(_) => Ok(AnswerKind::Other),
    }
}

/// Returns the meaning of the payload of a frame from the meter. Errors: `AllocError`.
#[tactic(auto, unfolding(crate::specs::Answers::answer_of))]
pub fn read_answer(alloc: Global, payload: &[u8]) -> Result<AnswerKind, AllocError>
    ensures { IfOk result (λ answer. answer ≡ answer_of payload.now) }
{
    match read_aare(payload) {
        Ok(aare) => Ok(answer_of_aare(aare)),
        Err(_) => read_other(alloc, payload),
    }
}
