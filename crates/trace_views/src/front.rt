//! `read_front`: reads the whole events of a damaged trace before its first wrong line.
ghost use Rattle.std.specs.Prelude.{◌≡◌, IfErr, IfOk};
ghost use Rattle.wire_bytes.specs.Outcome.{Gives};
ghost use Rattle.relay_core.specs.Opening.{IsFitOpening};
ghost use Rattle.trace_lines.specs.Events.{event_of};
ghost use Rattle.trace_words.specs.Places.{ended_at, line_as};
ghost use Rattle.trace_words.specs.declared.fault.TraceFault.TheVariants as trace_fault;
ghost use Rattle.trace_views.specs.Fronts.{IsLine, ReadsEvent, events_front, front_from, front_of};

use relay_events::{Event, Events};
use std::alloc::{AllocError, Global};
use trace_lines::{count_events, next_event};
use trace_openings::read_opening;
use trace_player::{MAX_BYTES, Trace, TraceFault};
use trace_words::{TraceLines, Version};

/// The front of a trace: its opening and the whole events before its first wrong line.
#[derive(Debug, Drop)]
pub struct Front {
    /// The opening, and the events before the first wrong line.
    pub trace: Trace,
    /// `Line` with the number of the first wrong line; `Ok` if there is none.
    pub end: Result<(), TraceFault>,
}

// Reads the next line as an event, or returns the fault of the line.
#[tactic(auto, using(crate::proofs::Fronts::line_is_never_too_long))]
fn next_or_fault(
    alloc: Global,
    version: Version,
    lines: &mut TraceLines,
) -> Result<Result<Event, TraceFault>, AllocError>
    ensures { IfOk result
        (λ read. ReadsEvent read lines.new (line_as (event_of version) lines.old)) }
{
    match next_event(alloc, version, lines) {
        Ok(event) => Ok(Ok(event)),
        Err(TraceFault::Memory) => Err(AllocError),
        Err(TraceFault::Line(number)) => Ok(Err(TraceFault::Line(number))),
        Err(TraceFault::TooLong) => unreachable!(),
    }
}

// Returns whether nothing is left of the lines, or the fault of the next one.
#[tactic(auto, using(crate::proofs::Fronts::end_is_always_line))]
fn end_of(lines: &TraceLines) -> Result<(), TraceFault>
    ensures end { result ≡ ended_at lines.now tt }
    ensures line { IfErr result IsLine }
{
    match lines.end() {
        Ok(()) => Ok(()),
        Err(TraceFault::Line(number)) => Err(TraceFault::Line(number)),
        Err(_) => unreachable!(),
    }
}

// Reads the events of the next `count` lines before the first that is wrong, and the fault of that
// line. After `count` lines anything that is left is wrong.
fn read_events(
    alloc: Global,
    version: Version,
    count: u64,
    lines: &mut TraceLines,
) -> Result<(Events, Result<(), TraceFault>), AllocError>
    ensures exact { IfOk result (λ front. front ≡ events_front version count lines.old) }
    ensures line { IfOk result (λ front. IfErr front.1 IsLine) }
{
    let mut events = Events::new(alloc);
    'events: for _ in 0..count {
        match next_or_fault(alloc, version, lines)? {
            Ok(event) => events.push(event)?,
            Err(fault) => return Ok((events, Err(fault))),
        }
    }
    Ok((events, end_of(lines)))
}

// Reads the front of a trace from its lines.
#[tactic(auto, unfolding(crate::specs::Fronts::front_from))]
fn read_lines(alloc: Global, lines: &mut TraceLines) -> Result<Front, TraceFault>
    ensures exact { Gives trace_fault.Memory (λ front. (front.trace, front.end)) result
        (front_from lines.old) }
    ensures fit { IfOk result (λ front. IsFitOpening front.trace.opening) }
    ensures line { IfOk result (λ front. IfErr front.end IsLine) }
{
    let (version, opening) = read_opening(alloc, lines)?;
    let read = match count_events(lines) {
        Ok(count) => read_events(alloc, version, count, lines).map_err(TraceFault::from),
        Err(fault) => Err(fault),
    };
    match read {
        Ok((events, end)) => Ok(Front {
            trace: Trace { opening, events },
            end,
        }),
        Err(fault) => {
            drop(opening);
            Err(fault)
        }
    }
}

/// Reads the front of the text of a trace, in version 1 or 2: the opening and the whole events
/// before the first wrong line. Errors: `TooLong`; `Line` with the number of the first wrong line
/// of the opening, or that of the number of events; `Memory`.
#[tactic(auto, unfolding(crate::specs::Fronts::front_of))]
pub fn read_front(alloc: Global, text: &[u8]) -> Result<Front, TraceFault>
    ensures exact { Gives trace_fault.Memory (λ front. (front.trace, front.end)) result
        (front_of text.now) }
    ensures fit { IfOk result (λ front. IsFitOpening front.trace.opening) }
    ensures line { IfOk result (λ front. IfErr front.end IsLine) }
{
    if text.len() > MAX_BYTES {
        return Err(TraceFault::TooLong);
    }
    let mut lines = TraceLines::new(text);
    read_lines(alloc, &mut lines)
}
