//! Reads the next line of a trace as an event, and reports a fault with the line's number.
ghost use Rattle.trace_lines.specs.Events.{event_of};
ghost use Rattle.trace_words.specs.Places.{ReadsLines, line_as};

use crate::events::{read_event, read_event_words};
use relay_events::Event;
use std::alloc::Global;
use trace_words::{HeldLines, TraceFault, TraceLines, Version};

/// Reads the next line as an event. Errors: `Line` with the number of the line if it is missing or
/// not the line of an event in this version; `Memory`.
pub fn next_event(
    alloc: Global,
    version: Version,
    lines: &mut TraceLines,
) -> Result<Event, TraceFault>
    ensures { ReadsLines (λ event. event) result lines.new (line_as (event_of version) lines.old) }
{
    lines.read(|words| read_event_words(alloc, version, words))
}

/// Reads the next line of a held text as an event. Errors: `Line` with the number of the line if it
/// is missing or not the line of an event in this version; `Memory`.
pub fn next_held_event(
    alloc: Global,
    version: Version,
    lines: &mut HeldLines,
) -> Result<Event, TraceFault>
    ensures { ReadsLines (λ event. event) result lines.new (line_as (event_of version) lines.old) }
{
    lines.read(|line| read_event(alloc, version, line))
}
