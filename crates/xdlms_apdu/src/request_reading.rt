//! Reads a GET, SET or ACTION request from its bytes (IEC 62056-5-3).
ghost use Rattle.std.specs.Prelude.{◌≡◌, IfOk, MatchResult};
ghost use Rattle.wire_bytes.specs.Outcome.{Gives};
ghost use Rattle.wire_bytes.specs.ByteFormats.{read_one_of};
ghost use Rattle.wire_bytes.specs.Format.{◌&◌};
ghost use Rattle.wire_bytes.specs.Reading.{read_as};
ghost use Rattle.xdlms_apdu.specs.Parts.{Reads, number_part, data_part, list_part, invoke_id_part};
ghost use Rattle.xdlms_apdu.specs.Parts.{method_part, target_part, parameter_part, block_part};
ghost use Rattle.xdlms_apdu.specs.Requests.{get_forms, set_forms, action_forms, request_format};
ghost use Rattle.xdlms_apdu.specs.Requests.{request_of, SpellsRequest};
ghost use Rattle.xdlms_apdu.specs.declared.request.Request.{Request};

use crate::fault::ApduFault;
use crate::field_reading::{
    read_block, read_data, read_id_and_number, read_invoke_id, read_method, read_parameter,
    read_target,
};
use crate::list_reading::read_list;
use crate::request::Request;
use crate::{form, tag};
use std::alloc::Global;
use wire_bytes::Cursor;

/// Reads a request: the tag of a GET, SET or ACTION, the form, and its contents, which must end at
/// the last byte.
///
/// Returns `UnknownTag` if there are no bytes or the first is not one of the three tags, then
/// `UnknownForm` if the second is not a form of the service, then `Unreadable` for anything else.
/// Returns `Memory` if out of memory.
pub fn read_request(alloc: Global, bytes: &[u8]) -> Result<Request, ApduFault>
    // A request that is read is spelled by all of the bytes.
    ensures found { IfOk result (SpellsRequest bytes.now) }

    // If the bytes spell a request, that request is read, unless out of memory.
    ensures unique { (request : Request) → SpellsRequest bytes.now request
        → MatchResult result (λ read. read ≡ request) (λ fault. fault ≡ ApduFault.Memory) }

    // The fault is that of the definition, or out of memory.
    ensures exact { Gives ApduFault.Memory (λ read. read) result (request_of bytes.now) }
{
    read_whole(alloc, bytes)
}

// Reads a request as `read_request` does; its contract refers to the definition `request_of` alone.
#[tactic(auto, unfolding(crate::specs::Requests::request_of))]
fn read_whole(alloc: Global, bytes: &[u8]) -> Result<Request, ApduFault>
    ensures { Gives ApduFault.Memory (λ read. read) result (request_of bytes.now) }
{
    let mut reader = Cursor::new(bytes);
    let request = read_tagged(alloc, &mut reader)?;
    reader.finish(request, ApduFault::Unreadable)
}

// Reads a request at the front of bytes.
fn read_tagged(alloc: Global, reader: &mut Cursor) -> Result<Request, ApduFault>
    ensures { Reads (λ request. request) result reader.new (request_format.read reader.old) }
{
    match reader.read_byte(ApduFault::UnknownTag)? {
        tag::GET_REQUEST => read_get(alloc, reader),
        tag::SET_REQUEST => read_set(alloc, reader),
        tag::ACTION_REQUEST => read_action(alloc, reader),
        _ => Err(ApduFault::UnknownTag),
    }
}

// Reads a Get-Request after its tag.
fn read_get(alloc: Global, reader: &mut Cursor) -> Result<Request, ApduFault>
    ensures { Reads (λ request. request) result reader.new
        (read_one_of ApduFault.Unreadable get_forms reader.old) }
{
    match reader.read_byte(ApduFault::Unreadable)? {
        form::NORMAL => read_get_normal(alloc, reader),
        form::get_request::NEXT => read_get_next(reader),
        form::get_request::WITH_LIST => read_get_list(alloc, reader),
        _ => Err(ApduFault::UnknownForm),
    }
}

// Reads a Get-Request-Normal after its form.
fn read_get_normal(alloc: Global, reader: &mut Cursor) -> Result<Request, ApduFault>
    ensures { Reads (λ request. request) result reader.new
        (read_as (λ p. Request.Get p.0 p.1) ((invoke_id_part & target_part).read reader.old)) }
{
    let id = read_invoke_id(reader)?;
    let target = read_target(alloc, reader)?;
    Ok(Request::Get { id, target })
}

// Reads a Get-Request-Next after its form.
fn read_get_next(reader: &mut Cursor) -> Result<Request, ApduFault>
    ensures { Reads (λ request. request) result reader.new
        (read_as (λ p. Request.GetNext p.0 p.1) ((invoke_id_part & number_part).read reader.old)) }
{
    let (id, number) = read_id_and_number(reader)?;
    Ok(Request::GetNext { id, number })
}

// Reads a Get-Request-With-List after its form.
fn read_get_list(alloc: Global, reader: &mut Cursor) -> Result<Request, ApduFault>
    ensures { Reads (λ request. request) result reader.new
        (read_as (λ p. Request.GetList p.0 p.1)
        ((invoke_id_part & list_part target_part).read reader.old)) }
{
    let id = read_invoke_id(reader)?;
    let targets = read_list(alloc, reader)?;
    Ok(Request::GetList { id, targets })
}

// Reads a Set-Request after its tag.
fn read_set(alloc: Global, reader: &mut Cursor) -> Result<Request, ApduFault>
    ensures { Reads (λ request. request) result reader.new
        (read_one_of ApduFault.Unreadable set_forms reader.old) }
{
    match reader.read_byte(ApduFault::Unreadable)? {
        form::NORMAL => read_set_normal(alloc, reader),
        form::set_request::WITH_FIRST_DATABLOCK => read_set_first(alloc, reader),
        form::set_request::WITH_DATABLOCK => read_set_next(alloc, reader),
        _ => Err(ApduFault::UnknownForm),
    }
}

// Reads a Set-Request-Normal after its form.
fn read_set_normal(alloc: Global, reader: &mut Cursor) -> Result<Request, ApduFault>
    ensures { Reads (λ request. request) result reader.new
        (read_as (λ p. Request.Set p.0 p.1.0 p.1.1)
        ((invoke_id_part & target_part & data_part).read reader.old)) }
{
    let id = read_invoke_id(reader)?;
    let target = read_target(alloc, reader)?;
    let value = read_data(alloc, reader)?;
    Ok(Request::Set { id, target, value })
}

// Reads a Set-Request-With-First-Datablock after its form.
fn read_set_first(alloc: Global, reader: &mut Cursor) -> Result<Request, ApduFault>
    ensures { Reads (λ request. request) result reader.new
        (read_as (λ p. Request.SetFirst p.0 p.1.0 p.1.1)
        ((invoke_id_part & target_part & block_part).read reader.old)) }
{
    let id = read_invoke_id(reader)?;
    let target = read_target(alloc, reader)?;
    let block = read_block(alloc, reader)?;
    Ok(Request::SetFirst { id, target, block })
}

// Reads a Set-Request-With-Datablock after its form.
fn read_set_next(alloc: Global, reader: &mut Cursor) -> Result<Request, ApduFault>
    ensures { Reads (λ request. request) result reader.new
        (read_as (λ p. Request.SetNext p.0 p.1) ((invoke_id_part & block_part).read reader.old)) }
{
    let id = read_invoke_id(reader)?;
    let block = read_block(alloc, reader)?;
    Ok(Request::SetNext { id, block })
}

// Reads an Action-Request after its tag.
fn read_action(alloc: Global, reader: &mut Cursor) -> Result<Request, ApduFault>
    ensures { Reads (λ request. request) result reader.new
        (read_one_of ApduFault.Unreadable action_forms reader.old) }
{
    match reader.read_byte(ApduFault::Unreadable)? {
        form::NORMAL => read_action_normal(alloc, reader),
        form::action_request::WITH_FIRST_PBLOCK => read_action_first(alloc, reader),
        form::action_request::WITH_PBLOCK => read_action_next(alloc, reader),
        _ => Err(ApduFault::UnknownForm),
    }
}

// Reads an Action-Request-Normal after its form.
fn read_action_normal(alloc: Global, reader: &mut Cursor) -> Result<Request, ApduFault>
    ensures { Reads (λ request. request) result reader.new
        (read_as (λ p. Request.Action p.0 p.1.0 p.1.1)
        ((invoke_id_part & method_part & parameter_part).read reader.old)) }
{
    let id = read_invoke_id(reader)?;
    let method = read_method(reader)?;
    let parameter = read_parameter(alloc, reader)?;
    Ok(Request::Action {
        id,
        method,
        parameter,
    })
}

// Reads an Action-Request-With-First-Pblock after its form.
fn read_action_first(alloc: Global, reader: &mut Cursor) -> Result<Request, ApduFault>
    ensures { Reads (λ request. request) result reader.new
        (read_as (λ p. Request.ActionFirst p.0 p.1.0 p.1.1)
        ((invoke_id_part & method_part & block_part).read reader.old)) }
{
    let id = read_invoke_id(reader)?;
    let method = read_method(reader)?;
    let block = read_block(alloc, reader)?;
    Ok(Request::ActionFirst { id, method, block })
}

// Reads an Action-Request-With-Pblock after its form.
fn read_action_next(alloc: Global, reader: &mut Cursor) -> Result<Request, ApduFault>
    ensures { Reads (λ request. request) result reader.new
        (read_as (λ p. Request.ActionNext p.0 p.1)
        ((invoke_id_part & block_part).read reader.old)) }
{
    let id = read_invoke_id(reader)?;
    let block = read_block(alloc, reader)?;
    Ok(Request::ActionNext { id, block })
}
