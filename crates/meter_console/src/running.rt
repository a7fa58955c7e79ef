//! The run of the console: from the lines of an input to the events that a sink takes.
ghost use Rattle.std.specs.Prelude.{◌≡◌, ◌≤◌, ℕ, List, [], Some, OnOk, OnErr, vec_capacity};
ghost use Rattle.meter_console.specs.Ends.{Ends, HandsAll, TakesFrom, has_failed, lost_lines};
ghost use Rattle.meter_console.specs.Lines.{lines_in};
ghost use Rattle.meter_console.specs.declared.skipped.SkipReason.{SkipReason};

use crate::line_event::{console_event, is_own_line};
use crate::lines::{LineBuffer, NextLine, next_line};
use crate::sink::EventSink;
use crate::skipped::{SkipReason, SkippedLines};
use std::alloc::{AllocError, Global};
use std::io::BufRead;

/// How the console ended.
#[derive(Clone, Copy, Debug, PartialEq, Eq, Drop)]
pub struct ConsoleEnd {
    has_failed: bool,
    lost: u64,
}

impl ConsoleEnd {
    /// Returns whether a read failed, so that lines may be left unread.
    pub fn has_failed(&self) -> bool
        ensures { result ≡ has_failed self.now }
    {
        self.has_failed
    }

    /// Returns the number of lines that were lost because the program ran out of memory.
    pub fn lost(&self) -> u64
        ensures { result ≡ lost_lines self.now }
    {
        self.lost
    }
}

// The result of one line.
#[derive(Clone, Copy, Debug, PartialEq, Eq, Drop)]
enum LineResult {
    // The event of the line was passed on.
    Passed,
    // The line has no event, for this reason.
    Skipped(SkipReason),
    // The line was lost: out of memory.
    Lost,
    // There was no further line.
    End,
    // A read failed.
    Failed,
}

// Returns why a line without an event is skipped.
fn reason_of(line: &[u8]) -> SkipReason {
    if !is_own_line(line) {
        SkipReason::OtherWord
    } else if line.ends_with(b"\r") {
        SkipReason::CarriageReturn
    } else {
        SkipReason::NoEvent
    }
}

// Passes on the event of a line. Returns why it is skipped if it has none. Errors: out of memory,
// and the line is lost.
fn hand_line<S: EventSink>(
    alloc: Global,
    line: &[u8],
    sink: &mut S,
) -> Result<Option<SkipReason>, AllocError>
    ensures ok { OnOk result (TakesFrom line.now 0 (S.taken sink.old) (S.taken sink.new)) }
    ensures err { OnErr result (TakesFrom line.now 1 (S.taken sink.old) (S.taken sink.new)) }
{
    match console_event(alloc, line) {
        Ok(Some(event)) => {
            sink.take(event);
            Ok(None)
        }
        Ok(None) => Ok(Some(reason_of(line))),
        Err(error) => Err(error),
    }
}

// Reads a line and passes on its event.
fn pass_line<B: BufRead, S: EventSink>(
    alloc: Global,
    input: &mut B,
    line: &mut Vec<u8>,
    sink: &mut S,
) -> LineResult
    requires room { 8192 ≤ vec_capacity line.old }
    ensures room { 8192 ≤ vec_capacity line.new }
    ensures passed { result ≡ LineResult.Passed
        → HandsAll (B.remaining input.old) (S.taken sink.old) 0 (B.remaining input.new)
        (S.taken sink.new) }
    ensures skipped { (reason : SkipReason) → result ≡ LineResult.Skipped reason
        → HandsAll (B.remaining input.old) (S.taken sink.old) 0 (B.remaining input.new)
        (S.taken sink.new) }
    ensures lost { result ≡ LineResult.Lost
        → HandsAll (B.remaining input.old) (S.taken sink.old) 1 (B.remaining input.new)
        (S.taken sink.new) }
    ensures end { result ≡ LineResult.End → (bytes : List ℕ) → B.remaining input.old ≡ Some bytes
        → lines_in bytes ≡ [] }
    ensures end_taken { result ≡ LineResult.End → S.taken sink.new ≡ S.taken sink.old }
    ensures failed { result ≡ LineResult.Failed → S.taken sink.new ≡ S.taken sink.old }
{
    match next_line(input, line) {
        NextLine::Whole => match hand_line(alloc, line.as_slice(), sink) {
            Ok(None) => LineResult::Passed,
            Ok(Some(reason)) => LineResult::Skipped(reason),
            Err(_) => LineResult::Lost,
        },
        NextLine::TooLong => LineResult::Skipped(SkipReason::TooLong),
        NextLine::End => LineResult::End,
        NextLine::Failed => LineResult::Failed,
    }
}

// Reports on standard error that a line was lost.
fn report_lost<E: Eprint>(errors: &E, number: u64) {
    let _ = eprintln!(errors; "console: line {number}: out of memory, the line is lost");
}

// Reports on standard error that a read failed.
fn report_failure<E: Eprint>(errors: &E) {
    let _ = eprintln!(errors; "console: reading failed, no further line is read");
}

/// Passes the events of an input's lines to a sink, up to the end of the input or to a read that
/// fails.
///
/// A line has at most 8,192 bytes with the byte 0A that ends it; a longer one is skipped, and so is
/// one that has no event. What follows the last byte 0A is not a line. A line whose event cannot be
/// allocated is lost. Each lost line is reported on `errors` with its number, counted from 1, and
/// so is a failed read; if `is_verbose`, also the first line that is skipped for each reason, and
/// how many were skipped. A read that a signal interrupts is retried. After
/// 18,446,744,073,709,551,614 lines the console ends as if a read had failed.
pub fn run_console<B: BufRead, S: EventSink, E: Eprint>(
    alloc: Global,
    input: &mut B,
    buffer: LineBuffer,
    sink: &mut S,
    errors: &E,
    is_verbose: bool,
) -> ConsoleEnd
    ensures { Ends (B.remaining input.old) (S.taken sink.old) result (S.taken sink.new) }
{
    let LineBuffer { bytes: mut line } = buffer;
    let mut lost: u64 = 0;
    let mut skipped = SkippedLines::new(is_verbose);
    'lines: for number in 1..u64::MAX {
        match pass_line(alloc, input, &mut line, sink) {
            LineResult::Passed => {}
            LineResult::Skipped(reason) => skipped.add(errors, number, reason, line.as_slice()),
            LineResult::Lost => {
                lost += 1;
                report_lost(errors, number);
            }
            LineResult::End => {
                skipped.end(errors, number, line.as_slice());
                return ConsoleEnd {
                    has_failed: false,
                    lost,
                };
            }
            LineResult::Failed => {
                report_failure(errors);
                break 'lines;
            }
        }
    }
    ConsoleEnd {
        has_failed: true,
        lost,
    }
}
