//! Reads the trace of an earlier run from the head of an input.
ghost use Rattle.std.specs.Prelude.{◌≡◌, ◌≤◌, ◌++◌, ◌∷◌, [], ℕ, Bool, true, List, length, drop, Some, Ok, IfOk, IfErr, OnOk, IfSome, IsErrOf};
ghost use Rattle.counted_io.specs.Lines.{has_failed_in, left_in};
ghost use Rattle.counted_io.specs.declared.fault.InputFault.TheVariants.{TooLong};
ghost use Rattle.relay_core.specs.Opening.{IsFitOpening};
ghost use Rattle.server_commands.specs.Heads.{Grows, TakesHead, IsHeadFault, IsReadFault, IsTextFault, IsLine, IsLaidOut, Ahead, first_line, lines_before, rows_from_count};
ghost use Rattle.trace_lines.specs.Events.{events_from};
ghost use Rattle.trace_player.specs.Traces.{max_bytes, trace_of};
ghost use Rattle.trace_words.specs.Rows.{Row};
ghost use Rattle.trace_words.specs.declared.version.Version.{Version};

use crate::plan_fault::PlanFault;
use counted_io::{InputFault, Monitored, read_line_within};
use std::alloc::{AllocError, Global};
use std::io::{BufReader, Read};
use trace_lines::read_event_count;
use trace_player::{MAX_BYTES, OPENING_LINES, Trace, read_trace};
use trace_words::{TraceFault, TraceLines};

// The number of lines before the number of events, in version 1 of the format.
const LINES_OF_VERSION_1: u32 = 20;

// Reads one more line of a text of at most 33,554,432 bytes. Returns whether there is one: at the
// end of the input the text does not change. Errors: `TooLong` above that limit, `Read`, `Memory`.
fn add_line<I: Read>(
    input: &mut BufReader<Monitored<I>>,
    text: &mut Vec<u8>,
) -> Result<bool, InputFault>
    ensures grows { OnOk result
        (Grows text.old.items (left_in I.remaining input.old) text.new.items
        (left_in I.remaining input.new)) }
    ensures ahead { (whole rest : List ℕ) (row : Row) (rows : List Row)
        → Ahead whole rest (row ∷ rows) text.old.items (left_in I.remaining input.old)
        → IfOk result (λ is_read. (is_read ≡ true)
        × Ahead whole rest rows text.new.items (left_in I.remaining input.new)
        × IsLine (drop (length text.old.items) text.new.items) row) }
    ensures too_long { IsErrOf result TooLong → (whole rest : List ℕ) (row : Row) (rows : List Row)
        → length whole ≤ max_bytes
        → ¬ (Ahead whole rest (row ∷ rows) text.old.items (left_in I.remaining input.old)) }
    ensures err { IfErr result (IsReadFault (has_failed_in input.new)) }
{
    match read_line_within(input, text, MAX_BYTES) {
        Ok(0) => Ok(false),
        Ok(_) => Ok(true),
        Err(fault) => Err(fault),
    }
}

// Reads `count` more lines. Returns whether there are that many.
#[tactic(auto, using(crate::proofs::Heads::grows_on, crate::proofs::Heads::grows_none))]
fn add_lines<I: Read>(
    input: &mut BufReader<Monitored<I>>,
    text: &mut Vec<u8>,
    count: u32,
) -> Result<bool, InputFault>
    ensures grows { OnOk result
        (Grows text.old.items (left_in I.remaining input.old) text.new.items
        (left_in I.remaining input.new)) }
    ensures ahead { (whole rest : List ℕ) (front rows : List Row) → length front ≡ count
        → Ahead whole rest (front ++ rows) text.old.items (left_in I.remaining input.old)
        → IfOk result (λ is_read. (is_read ≡ true)
        × Ahead whole rest rows text.new.items (left_in I.remaining input.new)) }
    ensures too_long { IsErrOf result TooLong → (whole rest : List ℕ) (front rows : List Row)
        → length front ≡ count → length whole ≤ max_bytes
        → ¬ (Ahead whole rest (front ++ rows) text.old.items (left_in I.remaining input.old)) }
    ensures err { IfErr result (IsReadFault (has_failed_in input.new)) }
{
    'lines: for _ in 0..count {
        if !add_line(input, text)? {
            return Ok(false);
        }
    }
    Ok(true)
}

// Returns the number of lines before the number of events, which the first line determines. `None`
// for any line that is not the first of a trace.
fn opening_lines(first: &[u8]) -> Option<u32>
    ensures non_empty { IfSome result (λ count. 1 ≤ count) }
    ensures value { (version : Version) → first.now ≡ first_line version
        → result ≡ Some (lines_before version) }
{
    if first == b"RELAYTRACE 1\n".as_slice() {
        Some(LINES_OF_VERSION_1)
    } else if first == b"RELAYTRACE 2\n".as_slice() {
        Some(OPENING_LINES)
    } else {
        None
    }
}

// Returns the number of events that a line states. `None` for any other line. Fails if out of
// memory.
#[tactic(auto, unfolding(trace_words::specs::Places::line_as))]
fn event_count(line: &[u8]) -> Result<Option<u32>, AllocError>
    ensures value { (row : Row) (count : ℕ) → IsLine line.now row → events_from row ≡ Ok count
        → IfOk result (λ events. events ≡ Some count) }
{
    let mut lines = TraceLines::new(line);
    match read_event_count(&mut lines) {
        Ok(events) => Ok(Some(events)),
        Err(TraceFault::Memory) => Err(AllocError),
        Err(TraceFault::Line(_) | TraceFault::TooLong) => Ok(None),
    }
}

// Reads the lines before that of the number of events, onto an empty text. Returns whether they are
// all there.
fn add_opening<I: Read>(
    input: &mut BufReader<Monitored<I>>,
    text: &mut Vec<u8>,
) -> Result<bool, InputFault>
    requires { text.old.items ≡ [] }
    ensures grows { OnOk result
        (Grows text.old.items (left_in I.remaining input.old) text.new.items
        (left_in I.remaining input.new)) }
    ensures ahead { (whole rest : List ℕ) (laid : IsLaidOut whole)
        → left_in I.remaining input.old ≡ Some (whole ++ rest)
        → IfOk result (λ is_read. (is_read ≡ true) × Ahead whole rest (rows_from_count laid)
        text.new.items (left_in I.remaining input.new)) }
    ensures too_long { IsErrOf result TooLong → (whole rest : List ℕ)
        → left_in I.remaining input.old ≡ Some (whole ++ rest) → length whole ≤ max_bytes
        → ¬ (IsLaidOut whole) }
    ensures err { IfErr result (IsReadFault (has_failed_in input.new)) }
{
    if !add_line(input, text)? {
        return Ok(false);
    }
    match opening_lines(text.as_slice()) {
        Some(count) => add_lines(input, text, count - 1),
        None => Ok(false),
    }
}

// Reads the line of the number of events and that of each event. Returns whether they are all
// there.
fn add_events<I: Read>(
    input: &mut BufReader<Monitored<I>>,
    text: &mut Vec<u8>,
) -> Result<bool, InputFault>
    ensures grows { OnOk result
        (Grows text.old.items (left_in I.remaining input.old) text.new.items
        (left_in I.remaining input.new)) }
    ensures whole { (whole rest : List ℕ) (laid : IsLaidOut whole)
        → Ahead whole rest (rows_from_count laid) text.old.items (left_in I.remaining input.old)
        → IfOk result (λ is_read. (is_read ≡ true) × (text.new.items ≡ whole)) }
    ensures too_long { IsErrOf result TooLong → (whole rest : List ℕ) (laid : IsLaidOut whole)
        → length whole ≤ max_bytes
        → ¬ (Ahead whole rest (rows_from_count laid) text.old.items
        (left_in I.remaining input.old)) }
    ensures err { IfErr result (IsReadFault (has_failed_in input.new)) }
{
    let start = text.len();
    if !add_line(input, text)? {
        return Ok(false);
    }
    match event_count(&text[start..]) {
        Ok(Some(events)) => add_lines(input, text, events),
        Ok(None) => Ok(false),
        Err(_) => Err(InputFault::Memory),
    }
}

// Reads the text of the trace at the head of an input, up to the line of its last event, onto an
// empty text. Returns whether the input has a line for each that a trace has. If not, the text is
// what was read: up to its first line, if that is not the first of a trace, up to the line after
// the opening, if that does not state the number of events, or all of the input.
fn read_head_text<I: Read>(
    input: &mut BufReader<Monitored<I>>,
    text: &mut Vec<u8>,
) -> Result<bool, InputFault>
    requires { text.old.items ≡ [] }
    ensures grows { OnOk result
        (Grows text.old.items (left_in I.remaining input.old) text.new.items
        (left_in I.remaining input.new)) }
    ensures whole { (whole rest : List ℕ) → left_in I.remaining input.old ≡ Some (whole ++ rest)
        → IsLaidOut whole
        → IfOk result (λ is_read. (is_read ≡ true) × (text.new.items ≡ whole)) }
    ensures too_long { IsErrOf result TooLong → (whole rest : List ℕ)
        → left_in I.remaining input.old ≡ Some (whole ++ rest) → length whole ≤ max_bytes
        → ¬ (IsLaidOut whole) }
    ensures err { IfErr result (IsReadFault (has_failed_in input.new)) }
{
    if add_opening(input, text)? {
        add_events(input, text)
    } else {
        Ok(false)
    }
}

// Returns the trace of a text, which states the number of its events if `is_counted`. Errors:
// `Line` with the number of the first line that is missing or wrong, `Journal` if it does not state
// that number, `TooLong`, `Memory`.
fn trace_in(alloc: Global, text: &[u8], is_counted: bool) -> Result<Trace, PlanFault>
    ensures ok { IfOk result (λ trace. (is_counted ≡ true) × (trace_of text.now ≡ Ok trace)
        × IsFitOpening trace.opening) }
    ensures err { IfErr result (IsTextFault text.now is_counted) }
{
    match read_trace(alloc, text) {
        Ok(trace) => {
            if is_counted {
                return Ok(trace);
            }
            drop(trace);
            Err(PlanFault::Journal)
        }
        Err(TraceFault::Line(number)) => Err(PlanFault::Line(number)),
        Err(TraceFault::TooLong) => Err(PlanFault::TooLong),
        Err(TraceFault::Memory) => Err(PlanFault::Memory),
    }
}

/// Reads the trace at the head of an input, up to the line of its last event. The input after that
/// line is not read.
///
/// Errors: `Line` with the number of the first line that is missing or wrong, if the input does not
/// begin with a trace; `Journal` if it begins with one that does not state the number of its
/// events; `TooLong` if the trace would have more than 33,554,432 bytes; `Read` if a read fails;
/// `Memory`. After an error a part of the input has been read.
pub fn read_head<I: Read>(
    alloc: Global,
    input: &mut BufReader<Monitored<I>>,
) -> Result<Trace, PlanFault>
    ensures ok { IfOk result
        (λ trace. TakesHead (left_in I.remaining input.old) trace (left_in I.remaining input.new)) }
    ensures err { IfErr result
        (IsHeadFault (left_in I.remaining input.old) (has_failed_in input.new)) }
{
    let mut text = Vec::new(alloc);
    match read_head_text(input, &mut text) {
        Ok(is_counted) => trace_in(alloc, text.as_slice(), is_counted),
        Err(InputFault::TooLong) => Err(PlanFault::TooLong),
        Err(InputFault::Read) => Err(PlanFault::Read),
        Err(InputFault::Memory) => Err(PlanFault::Memory),
    }
}
