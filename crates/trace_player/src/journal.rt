//! Writes and recognizes a journal: the text of a trace to which the lines of further events may be
//! appended.
ghost use Rattle.std.specs.Prelude.{◌≡◌, ◌≤◌, ◌↔◌, ◌++◌, ℕ, List, drop, length, Ok, IfOk, IsTrue};
ghost use Rattle.relay_events.specs.declared.event.Event.{Event};
ghost use Rattle.text_lines.specs.Lines.{lines_of};
ghost use Rattle.trace_words.specs.WholeLines.{IsTail};
ghost use Rattle.trace_player.specs.Journals.{FitsJournal, IsJournal, StartsWith};
ghost use Rattle.trace_player.specs.Journals.{events_text, journal_text, with_events};
ghost use Rattle.trace_player.specs.Traces.{max_bytes, trace_of};
ghost use Rattle.trace_player.specs.Written.{AreTraced};

use crate::ranges::journal_is_read_again;
use crate::writing::add_events;
use cosem_axdr::Octets;
use relay_recorder::Trace;
use std::alloc::{AllocError, Global};
use text_lines::split_line;
use trace_lines::write_open_count;
use trace_openings::write_opening;

/// The number of lines of an opening, in version 2 of the format.
pub const OPENING_LINES: u32 = 30;

// Returns the lines of a journal as text.
#[tactic(auto, using(crate::proofs::EventsLeft::journal_joined))]
fn write_lines(alloc: Global, trace: &Trace) -> Result<Octets, AllocError>
    ensures { IfOk result (λ text. text ≡ journal_text trace.now) }
{
    let mut out = Vec::new(alloc);
    write_opening(alloc, &mut out, &trace.opening)?;
    write_open_count(&mut out)?;
    add_events(alloc, &mut out, trace.events.as_slice())?;
    Ok(Octets::from_vec(out))
}

/// Returns the text of a journal that begins with a trace, in version 2: the opening, the line
/// `events -`, and the lines of the events. Any number of lines of events may be appended. Errors:
/// `AllocError`.
///
/// [`read_trace`](crate::read_trace) reads the text back as the same trace if a core can start from
/// the opening, [`fits_line`](trace_lines::fits_line) accepts each event, and the text has at most
/// 33,554,432 bytes. After lines were appended it reads the same trace with these events, whatever
/// torn tail follows the last whole line.
pub fn write_journal(alloc: Global, trace: &Trace) -> Result<Octets, AllocError>
    ensures text { IfOk result (λ text. text ≡ journal_text trace.now) }
    ensures read_back { IfOk result (λ text. FitsJournal trace.now → length text ≤ max_bytes
        → trace_of text ≡ Ok trace.now) }
    ensures grown { IfOk result (λ text. FitsJournal trace.now → (more : List Event)
        (tail : List ℕ) → AreTraced more → IsTail tail
        → length (text ++ events_text more ++ tail) ≤ max_bytes
        → trace_of (text ++ events_text more ++ tail) ≡ Ok (with_events trace.now more)) }
{
    // (no effect: the contract needs this law)
    journal_is_read_again(trace);
    write_lines(alloc, trace)
}

// Returns the text after the first line, or the same text if no line is ended.
fn skip_line(text: &[u8]) -> &[u8]
    ensures { lines_of result.now ≡ drop 1 (lines_of text.now) }
{
    match split_line(text) {
        Some((_, rest)) => rest,
        None => text,
    }
}

// Returns the text after the first `count` lines, or after all lines if there are fewer.
fn skip_lines(text: &[u8], count: u32) -> &[u8]
    ensures { lines_of result.now ≡ drop count (lines_of text.now) }
{
    let mut rest = text;
    'lines: for _ in 0..count {
        rest = skip_line(rest);
    }
    rest
}

// Returns whether the first line of a text is `line`.
fn starts_with(text: &[u8], line: &[u8]) -> bool
    ensures { IsTrue result ↔ StartsWith (lines_of text.now) line.now }
{
    match split_line(text) {
        Some((first, _)) => first == line,
        None => false,
    }
}

/// Returns whether a text begins as a journal: its version is 2, and `events -` follows the 30
/// lines of its opening. Lines of events may be appended to a text that is read as a trace only if
/// it is a journal: any other trace states the number of its events, or is of version 1.
pub fn is_journal(text: &[u8]) -> bool
    ensures { IsTrue result ↔ IsJournal text.now }
{
    starts_with(text, b"RELAYTRACE 2") && starts_with(skip_lines(text, OPENING_LINES), b"events -")
}
