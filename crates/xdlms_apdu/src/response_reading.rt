//! Reads a response to a GET, SET or ACTION, or an ExceptionResponse, from its bytes (IEC
//! 62056-5-3).
ghost use Rattle.std.specs.Prelude.{◌≡◌, IfOk, MatchResult};
ghost use Rattle.wire_bytes.specs.Outcome.{Gives};
ghost use Rattle.wire_bytes.specs.ByteFormats.{read_one_of};
ghost use Rattle.wire_bytes.specs.Format.{◌&◌};
ghost use Rattle.wire_bytes.specs.Reading.{read_as};
ghost use Rattle.xdlms_apdu.specs.Parts.{Reads, number_part, raw_part, list_part, invoke_id_part};
ghost use Rattle.xdlms_apdu.specs.Parts.{code_part, result_part, nothing_part, exception_part, get_block_part};
ghost use Rattle.xdlms_apdu.specs.Responses.{block_response, get_response_forms};
ghost use Rattle.xdlms_apdu.specs.Responses.{set_response_forms, action_response_forms};
ghost use Rattle.xdlms_apdu.specs.Responses.{response_format, response_of};
ghost use Rattle.xdlms_apdu.specs.Responses.{SpellsResponse};
ghost use Rattle.xdlms_apdu.specs.declared.response.Response.{Response};

use crate::block::DataBlock;
use crate::fault::ApduFault;
use crate::field_reading::{
    read_block_number, read_code, read_flag, read_id_and_number, read_invoke_id, read_raw,
    read_result,
};
use crate::field_value::{ABSENT, service_error, state_error};
use crate::invoke_id::InvokeId;
use crate::list_reading::read_list;
use crate::response::{Exception, Response};
use crate::{choice, form, tag};
use std::alloc::Global;
use wire_bytes::Cursor;

/// Reads a response: the tag of a GET, SET or ACTION response, the form, and its contents, which
/// must end at the last byte; or an ExceptionResponse.
///
/// Returns `UnknownTag` if there are no bytes or the first is not one of the four tags, then
/// `UnknownForm` if the second is not a form of the service, then `Unreadable` for anything else.
/// Returns `Memory` if out of memory.
pub fn read_response(alloc: Global, bytes: &[u8]) -> Result<Response, ApduFault>
    // A response that is read is spelled by all of the bytes.
    ensures found { IfOk result (SpellsResponse bytes.now) }

    // If the bytes spell a response, that response is read, unless out of memory.
    ensures unique { (response : Response) → SpellsResponse bytes.now response
        → MatchResult result (λ read. read ≡ response) (λ fault. fault ≡ ApduFault.Memory) }

    // The fault is that of the definition, or out of memory.
    ensures exact { Gives ApduFault.Memory (λ read. read) result (response_of bytes.now) }
{
    read_whole(alloc, bytes)
}

// Reads a response as `read_response` does; its contract refers to the definition `response_of`
// alone.
#[tactic(auto, unfolding(crate::specs::Responses::response_of))]
fn read_whole(alloc: Global, bytes: &[u8]) -> Result<Response, ApduFault>
    ensures { Gives ApduFault.Memory (λ read. read) result (response_of bytes.now) }
{
    let mut reader = Cursor::new(bytes);
    let response = read_tagged(alloc, &mut reader)?;
    reader.finish(response, ApduFault::Unreadable)
}

// Reads a response at the front of bytes.
fn read_tagged(alloc: Global, reader: &mut Cursor) -> Result<Response, ApduFault>
    ensures { Reads (λ response. response) result reader.new (response_format.read reader.old) }
{
    match reader.read_byte(ApduFault::UnknownTag)? {
        tag::GET_RESPONSE => read_get(alloc, reader),
        tag::SET_RESPONSE => read_set(reader),
        tag::ACTION_RESPONSE => read_action(reader),
        tag::EXCEPTION_RESPONSE => read_exception(reader),
        _ => Err(ApduFault::UnknownTag),
    }
}

// Reads a Get-Response after its tag.
fn read_get(alloc: Global, reader: &mut Cursor) -> Result<Response, ApduFault>
    ensures { Reads (λ response. response) result reader.new
        (read_one_of ApduFault.Unreadable get_response_forms reader.old) }
{
    match reader.read_byte(ApduFault::Unreadable)? {
        form::NORMAL => read_get_normal(alloc, reader),
        form::get_response::WITH_DATABLOCK => read_get_block(alloc, reader),
        form::get_response::WITH_LIST => read_get_list(alloc, reader),
        _ => Err(ApduFault::UnknownForm),
    }
}

// Reads a Get-Response-Normal after its form.
fn read_get_normal(alloc: Global, reader: &mut Cursor) -> Result<Response, ApduFault>
    ensures { Reads (λ response. response) result reader.new
        (read_as (λ p. Response.Get p.0 p.1) ((invoke_id_part & result_part).read reader.old)) }
{
    let id = read_invoke_id(reader)?;
    let result = read_result(alloc, reader)?;
    Ok(Response::Get { id, result })
}

// Reads a Get-Response-With-List after its form.
fn read_get_list(alloc: Global, reader: &mut Cursor) -> Result<Response, ApduFault>
    ensures { Reads (λ response. response) result reader.new
        (read_as (λ p. Response.GetList p.0 p.1)
        ((invoke_id_part & list_part result_part).read reader.old)) }
{
    let id = read_invoke_id(reader)?;
    let results = read_list(alloc, reader)?;
    Ok(Response::GetList { id, results })
}

// Reads a Get-Response-With-Datablock after its form: a DataBlock-G with raw data or a result.
fn read_get_block(alloc: Global, reader: &mut Cursor) -> Result<Response, ApduFault>
    ensures { Reads (λ response. response) result reader.new
        (read_as block_response ((invoke_id_part & get_block_part).read reader.old)) }
{
    let id = read_invoke_id(reader)?;
    let last = read_flag(reader)?;
    let number = read_block_number(reader)?;
    match reader.read_byte(ApduFault::Unreadable)? {
        choice::DATA => read_block_raw(alloc, id, last, number, reader),
        choice::RESULT => read_block_refusal(id, last, number, reader),
        _ => Err(ApduFault::Unreadable),
    }
}

// Reads the raw data of a DataBlock-G.
fn read_block_raw(
    alloc: Global,
    id: InvokeId,
    last: bool,
    number: u32,
    reader: &mut Cursor,
) -> Result<Response, ApduFault>
    ensures { Reads (λ response. response) result reader.new
        (read_as (λ raw. Response.GetBlock id (record { last = last; number = number; raw = raw }))
        (raw_part.read reader.old)) }
{
    let raw = read_raw(alloc, reader)?;
    Ok(Response::GetBlock {
        id,
        block: DataBlock { last, number, raw },
    })
}

// Reads the result of a DataBlock-G that has no raw data.
fn read_block_refusal(
    id: InvokeId,
    last: bool,
    number: u32,
    reader: &mut Cursor,
) -> Result<Response, ApduFault>
    ensures { Reads (λ response. response) result reader.new
        (read_as (Response.GetBlockRefused id last number) (code_part.read reader.old)) }
{
    let code = read_code(reader)?;
    Ok(Response::GetBlockRefused {
        id,
        last,
        number,
        code,
    })
}

// Reads a Set-Response after its tag.
fn read_set(reader: &mut Cursor) -> Result<Response, ApduFault>
    ensures { Reads (λ response. response) result reader.new
        (read_one_of ApduFault.Unreadable set_response_forms reader.old) }
{
    match reader.read_byte(ApduFault::Unreadable)? {
        form::NORMAL => read_set_normal(reader),
        form::set_response::DATABLOCK => read_set_block(reader),
        form::set_response::LAST_DATABLOCK => read_set_last(reader),
        _ => Err(ApduFault::UnknownForm),
    }
}

// Reads a Set-Response-Normal after its form.
fn read_set_normal(reader: &mut Cursor) -> Result<Response, ApduFault>
    ensures { Reads (λ response. response) result reader.new
        (read_as (λ p. Response.Set p.0 p.1) ((invoke_id_part & code_part).read reader.old)) }
{
    let id = read_invoke_id(reader)?;
    let code = read_code(reader)?;
    Ok(Response::Set { id, code })
}

// Reads a Set-Response-Datablock after its form.
fn read_set_block(reader: &mut Cursor) -> Result<Response, ApduFault>
    ensures { Reads (λ response. response) result reader.new
        (read_as (λ p. Response.SetBlock p.0 p.1)
        ((invoke_id_part & number_part).read reader.old)) }
{
    let (id, number) = read_id_and_number(reader)?;
    Ok(Response::SetBlock { id, number })
}

// Reads a Set-Response-Last-Datablock after its form.
fn read_set_last(reader: &mut Cursor) -> Result<Response, ApduFault>
    ensures { Reads (λ response. response) result reader.new
        (read_as (λ p. Response.SetLastBlock p.0 p.1.0 p.1.1)
        ((invoke_id_part & code_part & number_part).read reader.old)) }
{
    let id = read_invoke_id(reader)?;
    let code = read_code(reader)?;
    let number = read_block_number(reader)?;
    Ok(Response::SetLastBlock { id, code, number })
}

// Reads an Action-Response after its tag.
fn read_action(reader: &mut Cursor) -> Result<Response, ApduFault>
    ensures { Reads (λ response. response) result reader.new
        (read_one_of ApduFault.Unreadable action_response_forms reader.old) }
{
    match reader.read_byte(ApduFault::Unreadable)? {
        form::NORMAL => read_action_normal(reader),
        form::action_response::NEXT_PBLOCK => read_action_block(reader),
        _ => Err(ApduFault::UnknownForm),
    }
}

// Reads an Action-Response-Normal after its form.
fn read_action_normal(reader: &mut Cursor) -> Result<Response, ApduFault>
    ensures { Reads (λ response. response) result reader.new
        (read_as (λ p. Response.Action p.0 p.1.0)
        ((invoke_id_part & code_part & nothing_part).read reader.old)) }
{
    let id = read_invoke_id(reader)?;
    let code = read_code(reader)?;
    read_nothing(reader)?;
    Ok(Response::Action { id, code })
}

// Reads an Action-Response-Next-Pblock after its form.
fn read_action_block(reader: &mut Cursor) -> Result<Response, ApduFault>
    ensures { Reads (λ response. response) result reader.new
        (read_as (λ p. Response.ActionBlock p.0 p.1)
        ((invoke_id_part & number_part).read reader.old)) }
{
    let (id, number) = read_id_and_number(reader)?;
    Ok(Response::ActionBlock { id, number })
}

// Reads the byte that marks the return parameters as absent.
fn read_nothing(reader: &mut Cursor) -> Result<(), ApduFault>
    ensures { Reads (λ nothing. nothing) result reader.new (nothing_part.read reader.old) }
{
    if reader.read_byte(ApduFault::Unreadable)? != ABSENT {
        return Err(ApduFault::Unreadable);
    }
    Ok(())
}

// Reads the state-error and the service-error of an ExceptionResponse.
fn read_exception(reader: &mut Cursor) -> Result<Response, ApduFault>
    ensures { Reads (λ response. response) result reader.new
        (read_as Response.Exception (exception_part.read reader.old)) }
{
    Ok(Response::Exception(match reader.read_byte(ApduFault::Unreadable)? {
        state_error::SERVICE_NOT_ALLOWED => match reader.read_byte(ApduFault::Unreadable)? {
            service_error::OPERATION_NOT_POSSIBLE => Exception::NotAllowed,
            service_error::OTHER_REASON => Exception::Unreadable,
            _ => return Err(ApduFault::Unreadable),
        },
        state_error::SERVICE_UNKNOWN => match reader.read_byte(ApduFault::Unreadable)? {
            service_error::SERVICE_NOT_SUPPORTED => Exception::Unknown,
            _ => return Err(ApduFault::Unreadable),
        },
        _ => return Err(ApduFault::Unreadable),
    }))
}
