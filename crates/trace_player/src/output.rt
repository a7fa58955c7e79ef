//! Plays the text of a trace and collects the output before any of it is written.
ghost use Rattle.std.specs.Prelude.{◌≡◌, ◌+◌, ◌-◌, ◌<◌, ◌≤◌, ◌^◌, drop, length};
ghost use Rattle.std.specs.Prelude.{IfErr, IfOk, IsErrOf};
ghost use Rattle.trace_words.specs.Places.{place_at, place_of};
ghost use Rattle.wire_bytes.specs.Outcome.{Fails};
ghost use Rattle.relay_core.specs.Opening.{IsFitOpening};
ghost use Rattle.trace_lines.specs.OpenCount.{counted_events};
ghost use Rattle.trace_words.specs.declared.fault.TraceFault.TheVariants as trace_fault;
ghost use Rattle.trace_player.specs.Playing.{PlaysTrace};
ghost use Rattle.trace_player.specs.Traces.{max_bytes, trace_after, trace_of_opening, trace_from};
ghost use Rattle.trace_player.specs.Traces.{trace_of};

use crate::playing::play_events;
use crate::reading::MAX_BYTES;
use relay_core::{Opening, RelayCore};
use std::alloc::Global;
use trace_lines::read_stated_count;
use trace_openings::read_opening;
use trace_words::{HeldLines, TraceFault, TraceLines, Version};

// The lines that a trace prints, and the number of its events.
#[derive(Debug, Drop)]
pub(crate) struct PlayedLines {
    pub(crate) lines: Vec<u8>,
    pub(crate) count: u64,
}

// Plays the `count` events after an opening. Errors: `Line` if anything follows them, among
// others.
fn play_after_opening(
    alloc: Global,
    version: Version,
    count: u64,
    opening: &Opening,
    lines: &mut HeldLines,
) -> Result<PlayedLines, TraceFault>
    requires { IsFitOpening opening.now }
    ensures ok { IfOk result
        (λ output. PlaysTrace (trace_of_opening version count opening.now lines.old)
        output.lines.items
        output.count) }
    ensures err { IfErr result
        (λ fault. Fails trace_fault.Memory fault
        (trace_of_opening version count opening.now lines.old)) }
{
    let mut core = RelayCore::from_fit_opening(alloc, opening)?;
    let played = play_events(alloc, version, count, lines, &mut core);
    drop(core);
    let output = PlayedLines {
        lines: played?,
        count,
    };
    lines.end()?;
    Ok(output)
}

// Returns the number of events. If none is stated, they are all whole lines, and what follows these
// is dropped.
fn count_events_left(counted: Option<u32>, lines: &mut HeldLines) -> u64
    ensures { counted_events counted lines.old ≡ (result, lines.new) }
{
    match counted {
        Some(count) => u64::from(count),
        None => lines.keep_whole_lines(),
    }
}

// Plays the events in the last `left` bytes of a text; the first line of these has the number
// `number`, and `counted` is the number of events, if one is stated. Text that has been read is
// dropped.
fn play_held(
    alloc: Global,
    version: Version,
    counted: Option<u32>,
    opening: &Opening,
    text: Vec<u8>,
    number: u64,
    left: usize,
) -> Result<PlayedLines, TraceFault>
    requires fit { IsFitOpening opening.now }
    requires within { left ≤ length text.items }
    requires counted { number + length text.items < 2 ^ 64 }
    ensures ok { IfOk result
        (λ output. PlaysTrace
        (trace_after version counted opening.now
        (place_at number (drop (length text.items - left) text.items))) output.lines.items
        output.count) }
    ensures err { IfErr result
        (λ fault. Fails trace_fault.Memory fault
        (trace_after version counted opening.now
        (place_at number (drop (length text.items - left) text.items)))) }
{
    let taken = text.len() - left;
    let mut lines = HeldLines::new(text, taken, number);
    let count = count_events_left(counted, &mut lines);
    let played = play_after_opening(alloc, version, count, opening, &mut lines);
    drop(lines);
    played
}

// Plays the trace of a text.
#[tactic(auto, unfolding(crate::specs::Traces::trace_from))]
fn play_lines(alloc: Global, text: Vec<u8>) -> Result<PlayedLines, TraceFault>
    requires { length text.items ≤ max_bytes }
    ensures ok { IfOk result
        (λ output. PlaysTrace (trace_from (place_of text.items)) output.lines.items output.count) }
    ensures err { IfErr result
        (λ fault. Fails trace_fault.Memory fault (trace_from (place_of text.items))) }
{
    let mut lines = TraceLines::new(text.as_slice());
    let (version, opening) = read_opening(alloc, &mut lines)?;
    let stated = read_stated_count(&mut lines);
    let (number, left) = (lines.number(), lines.rest().len());
    let played = match stated {
        Ok(counted) => play_held(alloc, version, counted, &opening, text, number, left),
        Err(fault) => {
            drop(text);
            Err(fault)
        }
    };
    drop(opening);
    played
}

// Plays the text of a trace, each event as soon as its line is read. Errors: `TooLong`; `Line`
// with the number of the first line that is missing or malformed; `Memory`.
#[tactic(auto, unfolding(crate::specs::Traces::trace_of), using(crate::proofs::Faults::told_too_long))]
pub(crate) fn play_text(alloc: Global, text: Vec<u8>) -> Result<PlayedLines, TraceFault>
    ensures ok { IfOk result
        (λ output. PlaysTrace (trace_of text.items) output.lines.items output.count) }
    ensures err { IfErr result (λ fault. Fails trace_fault.Memory fault (trace_of text.items)) }
    ensures too_long { IsErrOf result trace_fault.TooLong → max_bytes < length text.items }
{
    if text.len() > MAX_BYTES {
        drop(text);
        return Err(TraceFault::TooLong);
    }
    play_lines(alloc, text)
}
