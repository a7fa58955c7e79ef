//! Writes a GET, SET or ACTION request as its bytes (IEC 62056-5-3).
ghost use Rattle.std.specs.Prelude.{◌≡◌, ◌++◌, take, drop, IfOk, OnOk};
ghost use Rattle.xdlms_apdu.specs.Requests.{request_text};

use crate::field_writing::{put_block, put_method, put_number, put_parameter, put_target};
use crate::form;
use crate::form::{action_request, get_request, set_request};
use crate::list_writing::put_list;
use crate::request::Request;
use crate::tag::{ACTION_REQUEST, GET_REQUEST, SET_REQUEST};
use cosem_axdr::Octets;
use std::alloc::{AllocError, Global};

/// Returns the bytes of a request, with each length in its shortest form and an access selection as
/// selector 0 with null-data.
///
/// A length or count of 2^32 or more is written as its lowest four bytes, and a Data that exceeds a
/// reader's limits is written in full; such bytes are not read back.
pub fn write_request(alloc: Global, request: &Request) -> Result<Octets, AllocError>
    ensures { IfOk result (λ text. text ≡ request_text request.now) }
{
    let mut out = Octets::new(alloc);
    out.extend_from_slice(&head_of(request))?;
    put_rest(request, &mut out)?;
    Ok(out)
}

// Returns the first bytes of a request: tag, form and invoke-id-and-priority.
#[tactic(auto, unfolding(crate::specs::Requests::request_text))]
fn head_of(request: &Request) -> [u8; 3]
    ensures { result ≡ take 3 (request_text request.now) }
{
    match request {
        Request::Get { id, .. } => [GET_REQUEST, form::NORMAL, id.0],
        Request::GetNext { id, .. } => [GET_REQUEST, get_request::NEXT, id.0],
        Request::GetList { id, .. } => [GET_REQUEST, get_request::WITH_LIST, id.0],
        Request::Set { id, .. } => [SET_REQUEST, form::NORMAL, id.0],
        Request::SetFirst { id, .. } => [SET_REQUEST, set_request::WITH_FIRST_DATABLOCK, id.0],
        Request::SetNext { id, .. } => [SET_REQUEST, set_request::WITH_DATABLOCK, id.0],
        Request::Action { id, .. } => [ACTION_REQUEST, form::NORMAL, id.0],
        Request::ActionFirst { id, .. } => {
            [ACTION_REQUEST, action_request::WITH_FIRST_PBLOCK, id.0]
        }
        Request::ActionNext { id, .. } => [ACTION_REQUEST, action_request::WITH_PBLOCK, id.0],
    }
}

// Appends the rest of a request, after its first bytes.
#[tactic(auto, unfolding(crate::specs::Requests::request_text))]
fn put_rest(request: &Request, out: &mut Octets) -> Result<(), AllocError>
    ensures { OnOk result (out.new ≡ out.old ++ drop 3 (request_text request.now)) }
{
    match request {
        Request::Get { target, .. } => put_target(target, out),
        Request::GetNext { number, .. } => put_number(*number, out),
        Request::GetList { targets, .. } => put_list(targets.as_slice(), out),
        Request::Set { target, value, .. } => {
            put_target(target, out)?;
            cosem_axdr::append(value, out)
        }
        Request::SetFirst { target, block, .. } => {
            put_target(target, out)?;
            put_block(block, out)
        }
        Request::Action {
            method,
            parameter,
            ..
        } => {
            put_method(method, out)?;
            put_parameter(parameter, out)
        }
        Request::ActionFirst { method, block, .. } => {
            put_method(method, out)?;
            put_block(block, out)
        }
        Request::SetNext { block, .. } | Request::ActionNext { block, .. } => put_block(block, out),
    }
}
