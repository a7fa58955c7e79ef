//! Reads a whole trace from its text: the opening, the number of events, and the events.
ghost use Rattle.std.specs.Prelude.{◌≡◌, ◌<◌, ◌↔◌, length, IfOk, IsErrOf};
ghost use Rattle.wire_bytes.specs.Outcome.{Gives};
ghost use Rattle.relay_core.specs.Opening.{IsFitOpening};
ghost use Rattle.trace_words.specs.Places.{ReadsLines, ended_at};
ghost use Rattle.trace_words.specs.declared.fault.TraceFault.TheVariants as trace_fault;
ghost use Rattle.trace_player.specs.Traces.{max_bytes, events_at, trace_from, trace_of};

use relay_events::Events;
use relay_recorder::Trace;
use std::alloc::Global;
use trace_lines::{count_events, next_event};
use trace_openings::read_opening;
use trace_words::{TraceFault, TraceLines, Version};

/// The maximum length of the text of a trace, in bytes.
pub const MAX_BYTES: usize = 33_554_432;

// Reads the events of the next `count` lines.
fn read_events(
    alloc: Global,
    version: Version,
    count: u64,
    lines: &mut TraceLines,
) -> Result<Events, TraceFault>
    ensures { ReadsLines (λ events. events) result lines.new (events_at version count lines.old) }
{
    let mut events = Events::new(alloc);
    'events: for _ in 0..count {
        events.push(next_event(alloc, version, lines)?)?;
    }
    Ok(events)
}

// Returns `trace` if nothing is left of the lines.
#[tactic(auto, using(crate::proofs::Ends::ended_as, crate::proofs::Ends::unended_as))]
fn finish(lines: &TraceLines, trace: Trace) -> Result<Trace, TraceFault>
    ensures ended { result ≡ ended_at lines.now trace }
    ensures same { IfOk result (λ whole. whole ≡ trace) }
{
    match lines.end() {
        Ok(()) => Ok(trace),
        Err(fault) => {
            drop(trace);
            Err(fault)
        }
    }
}

// Reads a trace from its lines.
#[tactic(auto, unfolding(crate::specs::Traces::trace_from))]
fn read_lines(alloc: Global, lines: &mut TraceLines) -> Result<Trace, TraceFault>
    ensures exact { Gives trace_fault.Memory (λ trace. trace) result (trace_from lines.old) }
    ensures fit { IfOk result (λ trace. IsFitOpening trace.opening) }
{
    let (version, opening) = read_opening(alloc, lines)?;
    let read = match count_events(lines) {
        Ok(count) => read_events(alloc, version, count, lines),
        Err(fault) => Err(fault),
    };
    match read {
        Ok(events) => finish(lines, Trace { opening, events }),
        Err(fault) => {
            drop(opening);
            Err(fault)
        }
    }
}

/// Reads the text of a trace, in version 1 or 2. If its line of the number of events is `events -`,
/// the events are all whole lines that follow before the first byte 0, and the text after the last
/// of them is skipped. Errors: `TooLong`; `Line` with the number of the first line that is missing
/// or malformed; `Memory`.
#[tactic(auto, unfolding(crate::specs::Traces::trace_of), using(crate::proofs::Faults::told_too_long))]
pub fn read_trace(alloc: Global, text: &[u8]) -> Result<Trace, TraceFault>
    ensures exact { Gives trace_fault.Memory (λ trace. trace) result (trace_of text.now) }
    ensures fit { IfOk result (λ trace. IsFitOpening trace.opening) }
    ensures too_long { IsErrOf result trace_fault.TooLong ↔ (max_bytes < length text.now) }
{
    if text.len() > MAX_BYTES {
        return Err(TraceFault::TooLong);
    }
    let mut lines = TraceLines::new(text);
    read_lines(alloc, &mut lines)
}
