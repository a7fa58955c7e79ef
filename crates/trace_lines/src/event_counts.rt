//! Reads and writes the line of the number of events of a trace: a number, or `-` if the events are
//! all whole lines of the text.
ghost use Rattle.std.specs.Prelude.{◌≡◌, ◌≤◌, ◌++◌, ◌∷◌, [], codes, IfOk, IsErrOf, OnOk};
ghost use Rattle.wire_bytes.specs.Outcome.{Gives};
ghost use Rattle.text_lines.specs.Lines.{rows_text};
ghost use Rattle.trace_words.specs.Labels.{number_row};
ghost use Rattle.trace_words.specs.Places.{ReadsLines, line_as};
ghost use Rattle.trace_words.specs.declared.fault.RowFault.TheVariants.{Memory};
ghost use Rattle.trace_lines.specs.Events.{events_from};
ghost use Rattle.trace_lines.specs.OpenCount.{count_at, count_from, count_in, open_row};

use std::alloc::AllocError;
use text_lines::Words;
use trace_words::{
    RowFault, TraceFault, TraceLines, parse_number, read_labelled, write_number_line,
};

/// The maximum number of events of a trace.
pub const MAX_EVENTS: u32 = 65_536;

// Reads the words of the line of the number of events.
fn read_count(words: &mut Words) -> Result<u32, RowFault>
    ensures count { Gives Memory (λ count. count) result (events_from words.old) }
    ensures within_max { IfOk result (λ count. count ≤ 65536) }
    ensures no_memory { ¬ IsErrOf result RowFault.Memory }
{
    read_labelled(b"events", words, |word| parse_number(word, MAX_EVENTS))
}

/// Reads the line of the number of events, at most `MAX_EVENTS`. Errors: `Line` with the number of
/// the line if it is missing or any other.
pub fn read_event_count(lines: &mut TraceLines) -> Result<u32, TraceFault>
    ensures reads { ReadsLines (λ count. count) result lines.new (line_as events_from lines.old) }
    ensures within_max { IfOk result (λ count. count ≤ 65536) }
    ensures no_memory { ¬ IsErrOf result TraceFault.Memory }
{
    lines.read(read_count)
}

// Reads a number of events, or `-` for none.
fn parse_count(word: &[u8]) -> Result<Option<u32>, RowFault>
    ensures count { Gives Memory (λ count. count) result (count_in word.now) }
    ensures no_memory { ¬ IsErrOf result RowFault.Memory }
{
    if word == b"-".as_slice() {
        return Ok(None);
    }
    Ok(Some(parse_number(word, MAX_EVENTS)?))
}

// Reads the words of the line of the number of events, or of the line `events -`.
fn read_stated(words: &mut Words) -> Result<Option<u32>, RowFault>
    ensures count { Gives Memory (λ count. count) result (count_from words.old) }
    ensures no_memory { ¬ IsErrOf result RowFault.Memory }
{
    read_labelled(b"events", words, parse_count)
}

/// Reads the line of the number of events, at most `MAX_EVENTS`, or the line `events -`, for which
/// it returns `None`: the events are then all whole lines of the rest of the text before its first
/// byte 0. Errors: `Line` with the number of the line if it is missing or any other.
pub fn read_stated_count(lines: &mut TraceLines) -> Result<Option<u32>, TraceFault>
    ensures reads { ReadsLines (λ count. count) result lines.new (line_as count_from lines.old) }
    ensures no_memory { ¬ IsErrOf result TraceFault.Memory }
{
    lines.read(read_stated)
}

/// Reads the line of the number of events, as [`read_stated_count`], and returns their number. If
/// the line is `events -`, what follows the last whole line is dropped from `lines`.
#[tactic(auto, unfolding(crate::specs::OpenCount::count_at))]
pub fn count_events(lines: &mut TraceLines) -> Result<u64, TraceFault>
    ensures reads { ReadsLines (λ count. count) result lines.new (count_at lines.old) }
    ensures no_memory { ¬ IsErrOf result TraceFault.Memory }
{
    match read_stated_count(lines)? {
        Some(count) => Ok(u64::from(count)),
        None => Ok(lines.keep_whole_lines()),
    }
}

/// Appends the line `events -`, with the byte 0A that ends it. On an error a part of it may have
/// been appended.
#[tactic(auto, using(crate::proofs::CountLemmas::open_text))]
pub fn write_open_count(out: &mut Vec<u8>) -> Result<(), AllocError>
    ensures { OnOk result (out.new.items ≡ out.old.items ++ rows_text (open_row ∷ [])) }
{
    out.extend_from_slice(b"events -\n")
}

/// Appends the line of the number of events, with the byte 0A that ends it. On an error a part of
/// it may have been appended.
pub fn write_event_count(out: &mut Vec<u8>, count: u64) -> Result<(), AllocError>
    ensures { OnOk result (out.new.items ≡ out.old.items
        ++ rows_text (number_row (codes "events") count ∷ [])) }
{
    write_number_line(out, b"events", count)
}
