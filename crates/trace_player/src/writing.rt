//! Writes a whole trace as text, which `read_trace` reads back.
ghost use Rattle.std.specs.Prelude.{◌≡◌, ◌≤◌, ◌++◌, ◌∷◌, [], length, map, Ok, IfOk, OnOk};
ghost use Rattle.relay_recorder.specs.Recording.{max_capacity};
ghost use Rattle.trace_lines.specs.Writing.{event_row};
ghost use Rattle.trace_player.specs.Traces.{max_bytes, trace_of, trace_text};
ghost use Rattle.trace_player.specs.Written.{FitsText};
ghost use Rattle.text_lines.specs.Lines.{rows_text};
ghost use Rattle.text_lines.specs.Words.{line_of};

use crate::ranges::trace_is_read_again;
use cosem_axdr::Octets;
use relay_events::Event;
use relay_recorder::Trace;
use std::alloc::{AllocError, Global};
use text_lines::end_line;
use trace_lines::{write_event, write_event_count};
use trace_openings::write_opening;

// Appends the line of an event, with the byte 0A that ends it.
fn add_event(alloc: Global, out: &mut Vec<u8>, event: &Event) -> Result<(), AllocError>
    ensures { OnOk result (out.new.items ≡ out.old.items ++ line_of (event_row event.now) ++ 10
        ∷ []) }
{
    write_event(alloc, out, event)?;
    end_line(out)
}

// Appends the lines of events.
pub(crate) fn add_events(
    alloc: Global,
    out: &mut Vec<u8>,
    events: &[Event],
) -> Result<(), AllocError>
    ensures { OnOk result (out.new.items ≡ out.old.items ++ rows_text (map event_row events.now)) }
{
    'events: for event in events {
        add_event(alloc, out, event)?;
    }
    Ok(())
}

// Returns the lines of a trace as text.
#[tactic(auto, using(crate::proofs::EventsLeft::text_joined))]
fn write_lines(alloc: Global, trace: &Trace) -> Result<Octets, AllocError>
    ensures { IfOk result (λ text. text ≡ trace_text trace.now) }
{
    let mut out = Vec::new(alloc);
    write_opening(alloc, &mut out, &trace.opening)?;
    write_event_count(&mut out, trace.events.len() as u64)?;
    add_events(alloc, &mut out, trace.events.as_slice())?;
    Ok(Octets::from_vec(out))
}

/// Returns the text of a trace, in version 2. Errors: `AllocError`.
///
/// [`read_trace`](crate::read_trace) reads the text back as the same trace if a core can start from
/// the opening, [`fits_line`](trace_lines::fits_line) accepts each event, there are at most 65,536
/// events, and the text has at most 33,554,432 bytes. The text of at most 1,024 such events is
/// never longer.
pub fn write_trace(alloc: Global, trace: &Trace) -> Result<Octets, AllocError>
    ensures text { IfOk result (λ text. text ≡ trace_text trace.now) }
    ensures read_back { IfOk result (λ text. FitsText trace.now → length text ≤ max_bytes
        → trace_of text ≡ Ok trace.now) }
    ensures within_max { IfOk result (λ text. FitsText trace.now
        → length trace.now.events ≤ max_capacity → length text ≤ max_bytes) }
{
    // (no effect: the contract needs this law)
    trace_is_read_again(trace);
    write_lines(alloc, trace)
}
