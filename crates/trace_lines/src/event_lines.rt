//! Writes an event as a line of a trace.
ghost use Rattle.std.specs.Prelude.{◌≡◌, ◌++◌, OnOk, OnErr};
ghost use Rattle.wire_bytes.specs.Format.{◌&◌};
ghost use Rattle.relay_events.specs.declared.event.Event.TheVariants as event;
ghost use Rattle.text_lines.specs.Lines.{IsPlain};
ghost use Rattle.text_lines.specs.Words.{line_of};
ghost use Rattle.trace_words.specs.Writing.{words_after_blanks, row_text};
ghost use Rattle.trace_lines.specs.Parts.{level_part, selection_part};
ghost use Rattle.trace_lines.specs.Traced.{HasPlainData};
ghost use Rattle.trace_lines.specs.Writing.{event_row};

use crate::limits::event_is_named;
use crate::writing::{
    add_attribute, add_level, add_method, add_pairs, add_parameter, add_selections, add_values,
};
use cosem_names::{AttrRef, Level};
use lane_sampler::Block;
use relay_events::Event;
use std::alloc::{AllocError, Global};
use text_lines::add_number;
use trace_words::{add_data, add_flag};

// Appends the line of a block of samples.
#[tactic(auto, unfolding(crate::specs::Writing::event_row))]
fn add_block(out: &mut Vec<u8>, block: &Block) -> Result<(), AllocError>
    ensures { OnOk result (out.new.items ≡ out.old.items
        ++ row_text (event_row (event.Samples block.now))) }
{
    match block.export() {
        Some(exports) => {
            out.extend_from_slice(b"pairs")?;
            add_pairs(out, block.values(), exports)
        }
        None => {
            out.extend_from_slice(b"samples")?;
            add_values(out, block.values())
        }
    }
}

// Appends the client's port, the attribute, and whether a part of it is requested (selective
// access).
fn add_asked(
    alloc: Global,
    out: &mut Vec<u8>,
    level: Level,
    attr: &AttrRef,
    selected: bool,
) -> Result<(), AllocError>
    ensures { OnOk result (out.new.items ≡ out.old.items
        ++ words_after_blanks ((level_part & selection_part).text
        (level, record { attr = attr.now; selected = selected }))) }
{
    add_level(out, level)?;
    add_attribute(alloc, out, attr)?;
    add_flag(out, selected)
}

// Appends the line of an event.
#[tactic(auto, unfolding(crate::specs::Writing::event_row))]
fn add_event(alloc: Global, out: &mut Vec<u8>, event: &Event) -> Result<(), AllocError>
    ensures ok { OnOk result (out.new.items ≡ out.old.items ++ row_text (event_row event.now)) }
    ensures plain { OnOk result (HasPlainData event.now) }
{
    match event {
        Event::Get {
            level,
            attr,
            selected,
        } => {
            out.extend_from_slice(b"get")?;
            add_asked(alloc, out, *level, attr, *selected)
        }
        Event::GetList { level, items } => {
            out.extend_from_slice(b"getlist")?;
            add_level(out, *level)?;
            add_number(out, items.len() as u64)?;
            add_selections(alloc, out, items.as_slice())
        }
        Event::Set {
            level,
            attr,
            selected,
            value,
        } => {
            out.extend_from_slice(b"set")?;
            add_asked(alloc, out, *level, attr, *selected)?;
            add_data(alloc, out, value)
        }
        Event::Execute {
            level,
            method,
            parameter,
        } => {
            out.extend_from_slice(b"execute")?;
            add_level(out, *level)?;
            add_method(alloc, out, method)?;
            add_parameter(alloc, out, parameter)
        }
        Event::Button => out.extend_from_slice(b"button"),
        Event::Samples(block) => add_block(out, block),
        Event::Moment(now) => {
            out.extend_from_slice(b"moment")?;
            add_number(out, u64::from(*now))
        }
    }
}

/// Appends the line of an event, without the byte 0A that ends it: a line without the bytes 0 and
/// 0A. On an error nothing is appended.
#[tactic(auto, using(trace_words::proofs::Blanks::row_is_text))]
pub fn write_event(alloc: Global, out: &mut Vec<u8>, event: &Event) -> Result<(), AllocError>
    ensures ok { OnOk result (out.new.items ≡ out.old.items ++ line_of (event_row event.now)) }
    ensures plain { OnOk result (IsPlain (line_of (event_row event.now))) }
    ensures err { OnErr result (out.new.items ≡ out.old.items) }
{
    let mut line = Vec::new(alloc);
    add_event(alloc, &mut line, event)?;
    // (no effect: the contract needs this law)
    event_is_named(event);
    out.extend_from_slice(line.as_slice())
}
