//! Turns the meter's reply into the answer to its request: values, result codes, or the first block
//! of a long value.
ghost use Rattle.std.specs.Prelude.{◌≡◌, ◌≤◌, ◌<◌, ◌*◌, ◌-◌, None, length, option_and_then, true, IfOk, IfErr, OnOk, OnErr};
ghost use Rattle.session_core.specs.Answers.{answer_text, due_text, way_text, IsSmall};
ghost use Rattle.session_core.specs.Outgoing.{transfer_after, unsent_transfer, can_go_in_blocks, long_response, long_text, response_in_blocks, text_in_blocks, block_response, code_response, reply_code, reply_response, answer_with_header, reply_in, outgoing_by};
ghost use Rattle.session_core.specs.Rules.{asks_value, reply_text};
ghost use Rattle.session_core.specs.Standard.{block_header};
ghost use Rattle.session_core.specs.declared.answer.Answer.TheVariants.{Service};
ghost use Rattle.xdlms_blocks.specs.Limits.{max_blocks};
ghost use Rattle.xdlms_blocks.specs.Sending.{next_piece, after_next};

use crate::answer::Way;
use crate::asked::{Asked, ReplyForm};
use crate::due::Due;
use crate::link::Link;
use crate::outgoing::{Outgoing, block_answer};
use acse_ber::Conformance;
use bitflags::Flags;
use cosem_axdr::{Data, Octets};
use cosem_names::{GetResult, ResultCode};
use relay_events::Reply;
use std::alloc::{AllocError, Global};
use xdlms_apdu::{InvokeId, Response};
use xdlms_blocks::{BlockFault, GetBlocks};

// The length of a Get-Response-Normal before the bytes of its value.
const GET_HEADER: usize = 4;
// The length of a Get-Response-With-List before the bytes of its results.
const GET_LIST_HEADER: usize = 3;

// The answer to a reply, and the long GET that is in progress after it.
#[derive(Drop)]
pub(crate) struct Answered {
    pub(crate) text: Octets,
    pub(crate) outgoing: Option<Outgoing>,
}

// Returns the answer to a reply, as it is sent this way. If out of memory, returns the reply too.
#[tactic(auto, unfolding(crate::specs::Outgoing::reply_response, crate::specs::Outgoing::reply_transfer), using(crate::proofs::Tasks::value_cut, crate::proofs::Tasks::values_cut))]
pub(crate) fn answer_reply(
    alloc: Global,
    asked: Asked,
    way: Way,
    reply: Reply,
) -> Result<Answered, (AllocError, Reply)>
    ensures text { IfOk result (λ answered. answered.text
        ≡ way_text way asked.link.source (answer_text (Service (reply_response asked reply)))) }
    ensures outgoing { IfOk result (λ answered. answered.outgoing ≡ outgoing_by asked reply) }
    ensures err { IfErr result (λ failed. failed.1 ≡ reply) }
{
    match reply {
        Reply::Value(value) => match asked.form {
            ReplyForm::Get(id) => {
                let normal = Response::Get {
                    id,
                    result: GetResult::Value(value),
                };
                answer_values(alloc, asked.link, way, id, normal, GET_HEADER)
            }
            ReplyForm::GetList(_)
            | ReplyForm::Set(_)
            | ReplyForm::SetLastBlock(_, _)
            | ReplyForm::Action(_) => answer_result(alloc, asked, way, Reply::Value(value)),
        },
        Reply::Values(results) => match asked.form {
            ReplyForm::GetList(id) => {
                let normal = Response::GetList { id, results };
                answer_values(alloc, asked.link, way, id, normal, GET_LIST_HEADER)
            }
            ReplyForm::Get(_)
            | ReplyForm::Set(_)
            | ReplyForm::SetLastBlock(_, _)
            | ReplyForm::Action(_) => answer_result(alloc, asked, way, Reply::Values(results)),
        },
        other => answer_result(alloc, asked, way, other),
    }
}

// Returns the frame with the answer to the reply to a GET of one attribute. A long GET that it
// begins replaces the last one. If out of memory, nothing has changed.
#[tactic(auto, unfolding(crate::specs::Outgoing::reply_response, crate::specs::Outgoing::reply_transfer), using(crate::proofs::Tasks::value_cut))]
#[inline(always)]
pub(crate) fn answer_get(
    alloc: Global,
    asked: Asked,
    reply: &Reply,
    outgoing: &mut Option<Outgoing>,
) -> Result<Octets, AllocError>
    requires { asks_value asked.form ≡ true }
    ensures text { IfOk result (λ text. text ≡ reply_text asked reply.now) }
    ensures outgoing { OnOk result (outgoing.new ≡ outgoing_by asked reply.now) }
    ensures err { OnErr result (outgoing.new ≡ outgoing.old) }
{
    let ReplyForm::Get(id) = asked.form else {
        unreachable!()
    };
    let Reply::Value(value) = reply else {
        let due = Due::response(
            asked.link.source,
            code_response(asked.form, reply_code(reply)),
        );
        let text = due.into_text(alloc, Way::Framed)?;
        *outgoing = None;
        return Ok(text);
    };
    answer_value(alloc, asked.link, id, value, outgoing)
}

// Returns the frame with the answer to a value.
#[tactic(auto, unfolding(crate::specs::Answers::answer_text))]
#[inline(always)]
fn answer_value(
    alloc: Global,
    link: Link,
    id: InvokeId,
    value: &Data,
    outgoing: &mut Option<Outgoing>,
) -> Result<Octets, AllocError>
    ensures text { IfOk result (λ text. text
        ≡ due_text link.source
        (answer_text (Service
        (long_response link (answer_with_header id
        (Response.Get id (GetResult.Value value.now)) 4))))) }
    ensures outgoing { OnOk result (outgoing.new
        ≡ option_and_then (transfer_after 1)
        (long_text link (answer_with_header id (Response.Get id (GetResult.Value value.now)) 4))) }
    ensures err { OnErr result (outgoing.new ≡ outgoing.old) }
{
    let text = Way::Framed.write_value(alloc, id, value)?;
    if Way::Framed.payload(&text).len() <= usize::from(link.limit.bytes()) {
        *outgoing = None;
        return Ok(Way::Framed.end(link.source, text));
    }
    let raw = &Way::Framed.payload(&text)[GET_HEADER..];
    let answered = answer_in_blocks(alloc, link, Way::Framed, id, raw);
    drop(text);
    let answered = answered?;
    *outgoing = answered.outgoing;
    Ok(answered.text)
}

// Returns the answer to values. If out of memory, returns them too.
fn answer_values(
    alloc: Global,
    link: Link,
    way: Way,
    id: InvokeId,
    normal: Response,
    header: usize,
) -> Result<Answered, (AllocError, Reply)>
    requires { header ≤ 4 }
    ensures text { IfOk result (λ answered. answered.text
        ≡ way_text way link.source
        (answer_text (Service (long_response link (answer_with_header id normal header))))) }
    ensures outgoing { IfOk result (λ answered. answered.outgoing
        ≡ option_and_then (transfer_after 1) (long_text link
        (answer_with_header id normal header))) }
    ensures err { IfErr result (λ failed. failed.1 ≡ reply_in normal) }
{
    match answer_long(alloc, link, way, id, &normal, header) {
        Ok(answered) => Ok(answered),
        Err(error) => Err((error, reply_in(normal))),
    }
}

// Returns the reply whose values a response has.
fn reply_in(normal: Response) -> Reply
    ensures { result ≡ reply_in normal }
{
    match normal {
        Response::Get { result, .. } => match result {
            GetResult::Value(value) => Reply::Value(value),
            GetResult::Code(code) => Reply::Code(code),
        },
        Response::GetList { results, .. } => Reply::Values(results),
        Response::GetBlock { .. }
        | Response::GetBlockRefused { .. }
        | Response::Set { .. }
        | Response::SetBlock { .. }
        | Response::SetLastBlock { .. }
        | Response::Action { .. }
        | Response::ActionBlock { .. }
        | Response::Exception(_) => Reply::Code(ResultCode::OtherReason),
    }
}

// Returns the answer that has only the reply's result code. If out of memory, returns the reply
// too.
fn answer_result(
    alloc: Global,
    asked: Asked,
    way: Way,
    reply: Reply,
) -> Result<Answered, (AllocError, Reply)>
    ensures text { IfOk result (λ answered. answered.text
        ≡ way_text way asked.link.source
        (answer_text (Service (code_response asked.form (reply_code reply))))) }
    ensures outgoing { IfOk result (λ answered. answered.outgoing ≡ None) }
    ensures err { IfErr result (λ failed. failed.1 ≡ reply) }
{
    match answer_code(alloc, asked, way, reply_code(&reply)) {
        Ok(answered) => Ok(answered),
        Err(error) => Err((error, reply)),
    }
}

// Returns the result code of a reply; OtherReason for a reply of another kind.
pub(crate) fn reply_code(reply: &Reply) -> ResultCode
    ensures { result ≡ reply_code reply.now }
{
    match reply {
        Reply::Code(code) => *code,
        Reply::Value(_)
        | Reply::Values(_)
        | Reply::Sampled { .. }
        | Reply::SampledBoth { .. }
        | Reply::Ran(_)
        | Reply::Stale { .. } => ResultCode::OtherReason,
    }
}

// Returns the answer that has only a result code.
pub(crate) fn answer_code(
    alloc: Global,
    asked: Asked,
    way: Way,
    code: ResultCode,
) -> Result<Answered, AllocError>
    ensures text { IfOk result (λ answered. answered.text
        ≡ way_text way asked.link.source (answer_text (Service (code_response asked.form code)))) }
    ensures outgoing { IfOk result (λ answered. answered.outgoing ≡ None) }
{
    let due = Due::response(asked.link.source, code_response(asked.form, code));
    Ok(Answered {
        text: due.into_text(alloc, way)?,
        outgoing: None,
    })
}

// Returns the response that has only a result code.
fn code_response(form: ReplyForm, code: ResultCode) -> Response
    ensures response { result ≡ code_response form code }
    ensures small { IsSmall result }
{
    match form {
        ReplyForm::Get(id) | ReplyForm::GetList(id) => Response::Get {
            id,
            result: GetResult::Code(code),
        },
        ReplyForm::Set(id) => Response::Set { id, code },
        ReplyForm::SetLastBlock(id, number) => Response::SetLastBlock { id, code, number },
        ReplyForm::Action(id) => Response::Action { id, code },
    }
}

// Returns the answer with values: whole if it fits, else its first block. The first `header` bytes
// are not sent in blocks.
#[tactic(auto, unfolding(crate::specs::Answers::answer_text))]
fn answer_long(
    alloc: Global,
    link: Link,
    way: Way,
    id: InvokeId,
    normal: &Response,
    header: usize,
) -> Result<Answered, AllocError>
    requires { header ≤ 4 }
    ensures text { IfOk result (λ answered. answered.text
        ≡ way_text way link.source
        (answer_text (Service (long_response link (answer_with_header id normal.now header))))) }
    ensures outgoing { IfOk result (λ answered. answered.outgoing
        ≡ option_and_then (transfer_after 1) (long_text link
        (answer_with_header id normal.now header))) }
{
    let text = way.write(alloc, normal)?;
    if way.payload(&text).len() <= usize::from(link.limit.bytes()) {
        return Ok(Answered {
            text: way.end(link.source, text),
            outgoing: None,
        });
    }
    let raw = &way.payload(&text)[header..];
    let answered = answer_in_blocks(alloc, link, way, id, raw);
    drop(text);
    answered
}

// Returns the answer with values that do not fit in one PDU: the first block of these bytes, else a
// refusal.
fn answer_in_blocks(
    alloc: Global,
    link: Link,
    way: Way,
    id: InvokeId,
    raw: &[u8],
) -> Result<Answered, AllocError>
    requires { 0 < length raw.now }
    ensures text { IfOk result (λ answered. answered.text
        ≡ way_text way link.source (answer_text (Service (response_in_blocks link id raw.now)))) }
    ensures outgoing { IfOk result (λ answered. answered.outgoing
        ≡ option_and_then (transfer_after 1) (text_in_blocks link raw.now)) }
{
    if can_go_in_blocks(link, raw) {
        return begin(alloc, link, way, id, Octets::from_slice(alloc, raw)?);
    }
    let asked = Asked {
        link,
        form: ReplyForm::Get(id),
    };
    answer_code(alloc, asked, way, ResultCode::OtherReason)
}

// Returns whether bytes can be sent to the client in blocks: block transfer was negotiated, and the
// block numbers suffice.
fn can_go_in_blocks(link: Link, raw: &[u8]) -> bool
    ensures { result ≡ can_go_in_blocks link raw.now }
{
    link.conformance
        .contains(Conformance::BLOCK_TRANSFER_WITH_GET_OR_READ)
        && GetBlocks::has_numbers_for(raw, link.limit.raw())
}

// Begins a transfer in blocks; the answer has the first block.
fn begin(
    alloc: Global,
    link: Link,
    way: Way,
    id: InvokeId,
    raw: Octets,
) -> Result<Answered, AllocError>
    requires non_empty { 0 < length raw }
    requires numbered { length raw ≤ max_blocks * (link.limit - block_header) }
    ensures text { IfOk result (λ answered. answered.text
        ≡ way_text way link.source
        (answer_text (Service (block_response id (next_piece (unsent_transfer link.limit raw)))))) }
    ensures outgoing { IfOk result (λ answered. answered.outgoing
        ≡ transfer_after 1 (unsent_transfer link.limit raw)) }
{
    let mut outgoing = Outgoing::new(raw, link.limit);
    match give_first(alloc, link, way, id, &mut outgoing) {
        Ok((text, is_last)) => Ok(Answered {
            text,
            outgoing: if is_last { None } else { Some(outgoing) },
        }),
        Err(error) => {
            drop(outgoing);
            Err(error)
        }
    }
}

// Returns the answer with the first block of a transfer, and whether this is the last.
fn give_first(
    alloc: Global,
    link: Link,
    way: Way,
    id: InvokeId,
    outgoing: &mut Outgoing,
) -> Result<(Octets, bool), AllocError>
    requires open { outgoing.now.is_open ≡ true }
    requires first { outgoing.now.number ≡ 0 }
    ensures text { IfOk result (λ first. first.0
        ≡ way_text way link.source
        (answer_text (Service (block_response id (next_piece outgoing.old))))) }
    ensures last { IfOk result (λ first. first.1 ≡ (next_piece outgoing.old).last) }
    ensures new_state { OnOk result (outgoing.new ≡ after_next outgoing.old) }
{
    match outgoing.next(alloc, 0) {
        Ok(piece) => {
            let is_last = piece.last;
            let text = block_answer(link.source, id, piece).into_text(alloc, way)?;
            Ok((text, is_last))
        }
        Err(BlockFault::Memory) => Err(AllocError),
        Err(BlockFault::NoTransfer | BlockFault::WrongNumber | BlockFault::TooLong) => {
            unreachable!()
        }
    }
}
