//! Writes a response to a GET, SET or ACTION, or an ExceptionResponse, as its bytes (IEC
//! 62056-5-3).
ghost use Rattle.std.specs.Prelude.{◌≡◌, ◌∷◌, ◌++◌, take, drop, IfOk, OnOk, OnErr};
ghost use Rattle.std.proofs.Common.{inl, inr};
ghost use Rattle.cosem_axdr.specs.Appending.{Extends};
ghost use Rattle.wire_bytes.specs.Format.{◌&◌};
ghost use Rattle.xdlms_apdu.specs.Parts.{byte_part, flag_part, number_part, code_part, nothing_part};
ghost use Rattle.xdlms_apdu.specs.Parts.{exception_part, get_block_part};
ghost use Rattle.xdlms_apdu.specs.Responses.{response_text};

use crate::block::DataBlock;
use crate::field_value::{ABSENT, service_error, state_error};
use crate::field_writing::{put_number, put_raw, put_result};
use crate::form::{action_response, get_response, set_response};
use crate::list_writing::put_list;
use crate::response::{Exception, Response};
use crate::tag::{ACTION_RESPONSE, EXCEPTION_RESPONSE, GET_RESPONSE, SET_RESPONSE};
use crate::{choice, form};
use byteorder::{BigEndian, ByteOrder};
use cosem_axdr::Octets;
use cosem_names::ResultCode;
use std::alloc::{AllocError, Global};

/// Returns the bytes of a response, with each length in its shortest form.
///
/// A length or count of 2^32 or more is written as its lowest four bytes, and a Data that exceeds a
/// reader's limits is written in full; such bytes are not read back.
pub fn write_response(alloc: Global, response: &Response) -> Result<Octets, AllocError>
    ensures { IfOk result (λ text. text ≡ response_text response.now) }
{
    let mut out = Octets::new(alloc);
    append_response(response, &mut out)?;
    Ok(out)
}

/// Appends the bytes that [`write_response`] returns. If out of memory, appends nothing.
#[tactic(auto, using(cosem_axdr::proofs::Appending::earlier_again))]
pub fn append_response(response: &Response, out: &mut Octets) -> Result<(), AllocError>
    ensures ok { OnOk result (out.new ≡ out.old ++ response_text response.now) }
    ensures unchanged_on_error { OnErr result (out.new ≡ out.old) }
{
    let before = out.len();
    let done = put_response(response, out);
    if done.is_err() {
        out.truncate(before);
    }
    done
}

// Appends the first bytes of a response, followed by the rest.
#[tactic(auto, using(cosem_axdr::proofs::Appending::extends_same, cosem_axdr::proofs::Appending::extends_more))]
fn put_response(response: &Response, out: &mut Octets) -> Result<(), AllocError>
    ensures ok { OnOk result (out.new ≡ out.old ++ response_text response.now) }
    ensures extends { OnErr result (Extends out.old out.new) }
{
    out.extend_from_slice(&head_of(response))?;
    put_rest(response, out)
}

// Returns the first bytes of a response: tag, form and invoke-id-and-priority; of an exception all
// bytes, its tag and its errors.
#[tactic(auto, unfolding(crate::specs::Responses::response_text))]
fn head_of(response: &Response) -> [u8; 3]
    ensures { result ≡ take 3 (response_text response.now) }
{
    match response {
        Response::Get { id, .. } => [GET_RESPONSE, form::NORMAL, id.0],
        Response::GetBlock { id, .. } | Response::GetBlockRefused { id, .. } => {
            [GET_RESPONSE, get_response::WITH_DATABLOCK, id.0]
        }
        Response::GetList { id, .. } => [GET_RESPONSE, get_response::WITH_LIST, id.0],
        Response::Set { id, .. } => [SET_RESPONSE, form::NORMAL, id.0],
        Response::SetBlock { id, .. } => [SET_RESPONSE, set_response::DATABLOCK, id.0],
        Response::SetLastBlock { id, .. } => [SET_RESPONSE, set_response::LAST_DATABLOCK, id.0],
        Response::Action { id, .. } => [ACTION_RESPONSE, form::NORMAL, id.0],
        Response::ActionBlock { id, .. } => [ACTION_RESPONSE, action_response::NEXT_PBLOCK, id.0],
        Response::Exception(exception) => exception_text(*exception),
    }
}

// Appends the rest of a response, after its first bytes.
#[tactic(auto, unfolding(crate::specs::Responses::response_text), using(cosem_axdr::proofs::Appending::extends_same, cosem_axdr::proofs::Appending::extends_more))]
fn put_rest(response: &Response, out: &mut Octets) -> Result<(), AllocError>
    ensures ok { OnOk result (out.new ≡ out.old ++ drop 3 (response_text response.now)) }
    ensures extends { OnErr result (Extends out.old out.new) }
{
    match response {
        Response::Get {
            result: outcome,
            ..
        } => put_result(outcome, out),
        Response::GetBlock { block, .. } => put_get_block(block, out),
        Response::GetBlockRefused {
            last,
            number,
            code,
            ..
        } => put_refusal(*last, *number, *code, out),
        Response::GetList { results, .. } => put_list(results.as_slice(), out),
        Response::Set { code, .. } => put_code(*code, out),
        Response::SetBlock { number, .. } | Response::ActionBlock { number, .. } => {
            put_number(*number, out)
        }
        Response::SetLastBlock { code, number, .. } => put_last(*code, *number, out),
        Response::Action { code, .. } => put_action(*code, out),
        Response::Exception(_) => Ok(()),
    }
}

// Appends a DataBlock-G with raw data.
#[tactic(auto, using(cosem_axdr::proofs::Appending::extends_same, cosem_axdr::proofs::Appending::extends_more))]
fn put_get_block(block: &DataBlock, out: &mut Octets) -> Result<(), AllocError>
    ensures ok { OnOk result (out.new ≡ out.old
        ++ get_block_part.text (block.now.last, (block.now.number, inl block.now.raw))) }
    ensures extends { OnErr result (Extends out.old out.new) }
{
    put_block_head(block.last, block.number, choice::DATA, out)?;
    put_raw(&block.raw, out)
}

// Appends a DataBlock-G with a result.
#[tactic(auto, using(cosem_axdr::proofs::Appending::extends_same, cosem_axdr::proofs::Appending::extends_more))]
fn put_refusal(
    last: bool,
    number: u32,
    code: ResultCode,
    out: &mut Octets,
) -> Result<(), AllocError>
    ensures ok { OnOk result (out.new ≡ out.old
        ++ get_block_part.text (last, (number, inr code))) }
    ensures extends { OnErr result (Extends out.old out.new) }
{
    put_block_head(last, number, choice::RESULT, out)?;
    put_code(code, out)
}

// Appends the first bytes of a DataBlock-G: whether it is the last, its number and the tag of the
// choice.
fn put_block_head(last: bool, number: u32, tag: u8, out: &mut Octets) -> Result<(), AllocError>
    ensures ok { OnOk result (out.new ≡ out.old
        ++ (flag_part & number_part & byte_part).text (last, (number, tag))) }
    ensures unchanged_on_error { OnErr result (out.new ≡ out.old) }
{
    let mut text = [u8::from(last), 0, 0, 0, 0, tag];
    BigEndian::write_u32(&mut text[1..5], number);
    out.extend_from_slice(&text)
}

// Appends the result of a SET by block transfer and the number of its last block.
fn put_last(code: ResultCode, number: u32, out: &mut Octets) -> Result<(), AllocError>
    ensures ok { OnOk result (out.new ≡ out.old
        ++ (code_part & number_part).text (code, number)) }
    ensures unchanged_on_error { OnErr result (out.new ≡ out.old) }
{
    let mut text = [code.code(), 0, 0, 0, 0];
    BigEndian::write_u32(&mut text[1..], number);
    out.extend_from_slice(&text)
}

// Appends the result of an ACTION without return parameters.
fn put_action(code: ResultCode, out: &mut Octets) -> Result<(), AllocError>
    ensures ok { OnOk result (out.new ≡ out.old ++ (code_part & nothing_part).text (code, tt)) }
    ensures unchanged_on_error { OnErr result (out.new ≡ out.old) }
{
    out.extend_from_slice(&[code.code(), ABSENT])
}

// Appends a Data-Access-Result or an Action-Result.
fn put_code(code: ResultCode, out: &mut Octets) -> Result<(), AllocError>
    ensures ok { OnOk result (out.new ≡ out.old ++ code_part.text code) }
    ensures unchanged_on_error { OnErr result (out.new ≡ out.old) }
{
    out.push(code.code())
}

// Returns the tag, the state-error and the service-error of an ExceptionResponse.
fn exception_text(exception: Exception) -> [u8; 3]
    ensures { result ≡ 0xD8 ∷ exception_part.text exception }
{
    let (state, service) = match exception {
        Exception::NotAllowed => (
            state_error::SERVICE_NOT_ALLOWED,
            service_error::OPERATION_NOT_POSSIBLE,
        ),
        Exception::Unknown => (
            state_error::SERVICE_UNKNOWN,
            service_error::SERVICE_NOT_SUPPORTED,
        ),
        Exception::Unreadable => (
            state_error::SERVICE_NOT_ALLOWED,
            service_error::OTHER_REASON,
        ),
    };
    [EXCEPTION_RESPONSE, state, service]
}
