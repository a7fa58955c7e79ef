//! Appends the line of an event as a view shows it, and what comes before the first.
ghost use Rattle.std.specs.Prelude.{◌≡◌, ◌++◌, ◌∷◌, [], OnOk};
ghost use Rattle.trace_views.specs.Views.{event_end, head_text, step_text, text_in_view};

use crate::format::TraceFormat;
use crate::view::TraceView;
use relay_events::{Event, Line};
use std::alloc::{AllocError, Global};
use text_lines::end_line;
use trace_lines::{write_event, write_line};
use trace_records::{Record, write_csv, write_csv_head, write_json};

// Appends the event of a line, after `; event `, if the view shows events.
fn add_event(
    alloc: Global,
    out: &mut Vec<u8>,
    with_events: bool,
    event: &Event,
) -> Result<(), AllocError>
    ensures { OnOk result (out.new.items ≡ out.old.items ++ event_end with_events event.now) }
{
    if !with_events {
        return Ok(());
    }
    out.extend_from_slice(b"; event ")?;
    write_event(alloc, out, event)
}

// Appends the line of an event as the player prints it, with the byte 0A that ends it.
fn add_line(
    alloc: Global,
    out: &mut Vec<u8>,
    with_events: bool,
    number: u64,
    event: &Event,
    line: &Line,
) -> Result<(), AllocError>
    ensures { OnOk result (out.new.items ≡ out.old.items
        ++ step_text with_events number event.now line.now) }
{
    write_line(alloc, out, number, line)?;
    add_event(alloc, out, with_events, event)?;
    end_line(out)
}

// Appends the line of an event in the format of the view, with the byte 0A that ends it. `moment`
// is the last moment of the clock after the event.
pub(crate) fn add_step(
    alloc: Global,
    out: &mut Vec<u8>,
    view: &TraceView,
    number: u64,
    event: &Event,
    line: &Line,
    moment: Option<u32>,
) -> Result<(), AllocError>
    ensures { OnOk result (out.new.items ≡ out.old.items
        ++ text_in_view view.now number event.now line.now moment) }
{
    match view.format {
        TraceFormat::Lines => add_line(alloc, out, view.with_events, number, event, line),
        TraceFormat::Csv => {
            let record = Record::new(alloc, view.with_events, number, event, line, moment)?;
            write_csv(alloc, out, &record)
        }
        TraceFormat::Json => {
            let record = Record::new(alloc, view.with_events, number, event, line, moment)?;
            write_json(alloc, out, &record)
        }
    }
}

// Appends what comes before the first event in the format of the view.
pub(crate) fn add_head(alloc: Global, out: &mut Vec<u8>, view: &TraceView) -> Result<(), AllocError>
    ensures { OnOk result (out.new.items ≡ out.old.items ++ head_text view.now) }
{
    match view.format {
        TraceFormat::Csv => write_csv_head(alloc, out, view.with_events),
        TraceFormat::Lines | TraceFormat::Json => Ok(()),
    }
}
