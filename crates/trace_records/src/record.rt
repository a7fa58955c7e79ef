//! `Record`: the values of an event of a run.
ghost use Rattle.std.specs.Prelude.{◌≡◌, IfOk, IfSome, option_map, string_bytes};
ghost use Rattle.trace_records.specs.Records.{event_text, fields_of, len_after_reply, reply_text};

use record_parts::text_of;
use relay_events::{Event, Line};
use std::alloc::{AllocError, Global};
use std::marker::Model;
use trace_lines::{write_event, write_line};

/// The values of an event of a run: its number, the words of its reply, the control state and the
/// supply after it, the last moment of the clock, and the line of the event if it is shown.
#[derive(Debug, Drop)]
pub struct Record {
    pub(crate) number: u64,
    pub(crate) reply: String,
    pub(crate) state: u8,
    pub(crate) output: bool,
    pub(crate) moment: Option<u32>,
    pub(crate) event: Option<String>,
}

impl Model for Record {
    ghost use Rattle.std.specs.Prelude.{option_map, string_bytes};
    ghost use Rattle.trace_records.specs.Records.{Fields};

    ghost Value = { Fields };

    ghost view = { λ r. record {
      number = r.number;
      reply = string_bytes r.reply;
      state = r.state;
      output = r.output;
      moment = r.moment;
      event = option_map string_bytes r.event;
    } };
}

// Returns the number of bytes after the reply in the line of an event.
fn len_after_reply(output: bool) -> usize
    ensures { result ≡ len_after_reply output }
{
    if output {
        b"; state 0; supply on".len()
    } else {
        b"; state 0; supply off".len()
    }
}

// Returns the words of the reply of a line: the text between `0: ` and `; state ` in the line of
// event 0.
#[tactic(auto, using(crate::proofs::ReplyTexts::replies))]
fn reply_text(alloc: Global, line: &Line) -> Result<String, AllocError>
    ensures { IfOk result (λ text. string_bytes text ≡ reply_text line.now.reply) }
{
    let mut text = Vec::new(alloc);
    write_line(alloc, &mut text, 0, line)?;
    let end = text.len() - len_after_reply(line.output);
    let reply = Vec::from_slice(alloc, &text[b"0: ".len()..end])?;
    Ok(text_of(reply))
}

// Returns the line of an event, if it is shown.
#[tactic(auto, using(crate::proofs::AsciiTexts::event_is_ascii))]
fn event_text(alloc: Global, with_event: bool, event: &Event) -> Result<Option<String>, AllocError>
    ensures { IfOk result (λ text. option_map string_bytes text
        ≡ event_text with_event event.now) }
{
    if !with_event {
        return Ok(None);
    }
    let mut text = Vec::new(alloc);
    write_event(alloc, &mut text, event)?;
    Ok(Some(text_of(text)))
}

impl Record {
    /// Returns the record of an event: its number from 1, its reply and the switch after it as its
    /// line has them, and the last moment of the clock, in seconds since 2000-01-01 00:00:00 of the
    /// meter's time. It has the line of the event if `with_event`. Fails only if out of memory.
    pub fn new(
        alloc: Global,
        with_event: bool,
        number: u64,
        event: &Event,
        line: &Line,
        moment: Option<u32>,
    ) -> Result<Record, AllocError>
        ensures { IfOk result (λ r. r ≡ fields_of with_event number event.now line.now moment) }
    {
        let reply = reply_text(alloc, line)?;
        let event = event_text(alloc, with_event, event)?;
        Ok(Record {
            number,
            reply,
            state: u8::from(line.state),
            output: line.output,
            moment,
            event,
        })
    }
}
