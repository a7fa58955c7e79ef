//! Writes the line that the player prints for each event: number, reply, control state and supply
//! output.
ghost use Rattle.std.specs.Prelude.{◌≡◌, ◌++◌, ◌∷◌, [], codes, decimal, IfOk, OnOk, OnErr};
ghost use Rattle.cosem_names.specs.ResultCode.{code_of};
ghost use Rattle.trace_lines.specs.Replies.{result_words, reply_row, line_text};
ghost use Rattle.trace_words.specs.Writing.{data_word, words_after_blanks, all_words};

use cosem_axdr::Data;
use cosem_names::{GetResult, ResultCode};
use relay_events::{Line, Reply};
use std::alloc::{AllocError, Global};
use text_lines::{add_number, add_word, write_number};
use trace_words::add_data;

// Appends a word and a number.
fn add_named(out: &mut Vec<u8>, name: &[u8], number: u64) -> Result<(), AllocError>
    ensures { OnOk result (out.new.items ≡ out.old.items
        ++ words_after_blanks (name.now ∷ decimal number ∷ [])) }
{
    add_word(out, name)?;
    add_number(out, number)
}

// Appends the code of a result.
fn add_code(out: &mut Vec<u8>, code: ResultCode) -> Result<(), AllocError>
    ensures { OnOk result (out.new.items ≡ out.old.items
        ++ words_after_blanks (codes "code" ∷ decimal (code_of code) ∷ [])) }
{
    add_named(out, b"code", u64::from(code.code()))
}

// Appends the encoding of a value.
fn add_value(alloc: Global, out: &mut Vec<u8>, value: &Data) -> Result<(), AllocError>
    ensures { OnOk result (out.new.items ≡ out.old.items
        ++ words_after_blanks (codes "value" ∷ data_word value.now ∷ [])) }
{
    add_word(out, b"value")?;
    add_data(alloc, out, value)
}

// Appends the result of reading one attribute of a list.
fn add_result(alloc: Global, out: &mut Vec<u8>, item: &GetResult) -> Result<(), AllocError>
    ensures { OnOk result (out.new.items ≡ out.old.items
        ++ words_after_blanks (result_words item.now [])) }
{
    match item {
        GetResult::Value(value) => add_value(alloc, out, value),
        GetResult::Code(code) => add_code(out, *code),
    }
}

// Appends the results of reading the attributes of a list.
fn add_results(alloc: Global, out: &mut Vec<u8>, items: &[GetResult]) -> Result<(), AllocError>
    ensures { OnOk result (out.new.items ≡ out.old.items
        ++ words_after_blanks (all_words result_words items.now)) }
{
    for item in items {
        add_result(alloc, out, item)?;
    }
    Ok(())
}

// Appends how many times each side of the import limiter has fired.
fn add_sampled(out: &mut Vec<u8>, over: u64, under: u64) -> Result<(), AllocError>
    ensures { OnOk result (out.new.items ≡ out.old.items
        ++ words_after_blanks (codes "sampled" ∷ decimal over ∷ decimal under ∷ [])) }
{
    add_named(out, b"sampled", over)?;
    add_number(out, under)
}

// Appends how many times each side of the import limiter, and then of the export limiter, has
// fired.
fn add_sampled_both(
    out: &mut Vec<u8>,
    over: u64,
    under: u64,
    export_over: u64,
    export_under: u64,
) -> Result<(), AllocError>
    ensures { OnOk result (out.new.items ≡ out.old.items
        ++ words_after_blanks (codes "sampled" ∷ decimal over ∷ decimal under ∷ decimal export_over
        ∷ decimal export_under ∷ [])) }
{
    add_sampled(out, over, under)?;
    add_number(out, export_over)?;
    add_number(out, export_under)
}

// Appends a reply.
#[tactic(auto, unfolding(crate::specs::Replies::reply_row))]
fn add_reply(alloc: Global, out: &mut Vec<u8>, reply: &Reply) -> Result<(), AllocError>
    ensures { OnOk result (out.new.items ≡ out.old.items
        ++ words_after_blanks (reply_row reply.now)) }
{
    match reply {
        Reply::Value(value) => add_value(alloc, out, value),
        Reply::Code(code) => add_code(out, *code),
        Reply::Values(items) => {
            add_named(out, b"values", items.len() as u64)?;
            add_results(alloc, out, items.as_slice())
        }
        Reply::Sampled { over, under } => add_sampled(out, u64::from(*over), u64::from(*under)),
        Reply::SampledBoth {
            over,
            under,
            export_over,
            export_under,
        } => add_sampled_both(
            out,
            u64::from(*over),
            u64::from(*under),
            u64::from(*export_over),
            u64::from(*export_under),
        ),
        Reply::Ran(due) => add_named(out, b"ran", u64::from(*due)),
        Reply::Stale { last } => add_named(out, b"stale", u64::from(*last)),
    }
}

// The initial capacity of a line, in bytes. It suffices for most lines; a longer line is
// reallocated.
const USUAL_BYTES: usize = 64;

// Returns the text of the line of a reply.
#[tactic(auto, unfolding(crate::specs::Replies::line_text))]
fn line_text(alloc: Global, number: u64, line: &Line) -> Result<Vec<u8>, AllocError>
    ensures { IfOk result (λ text. text.items ≡ line_text number line.now) }
{
    let mut text = Vec::with_capacity(alloc, USUAL_BYTES)?;
    write_number(&mut text, number)?;
    text.push(b':')?;
    add_reply(alloc, &mut text, &line.reply)?;
    text.extend_from_slice(b"; state ")?;
    write_number(&mut text, u64::from(u8::from(line.state)))?;
    text.extend_from_slice(b"; supply ")?;
    let supply: &[u8] = if line.output { b"on" } else { b"off" };
    text.extend_from_slice(supply)?;
    Ok(text)
}

/// Appends the line of a reply, without the byte 0A that ends it: the number of the event, the
/// reply, the control state and whether the supply is on. On an error nothing is appended.
pub fn write_line(
    alloc: Global,
    out: &mut Vec<u8>,
    number: u64,
    line: &Line,
) -> Result<(), AllocError>
    ensures ok { OnOk result (out.new.items ≡ out.old.items ++ line_text number line.now) }
    ensures err { OnErr result (out.new.items ≡ out.old.items) }
{
    let text = line_text(alloc, number, line)?;
    out.extend_from_slice(text.as_slice())
}
