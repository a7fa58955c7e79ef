//! `play_view` and `play_front`: play the text of a trace, or its front, and write what a view
//! shows of it.
ghost use Rattle.std.specs.Prelude.{◌≡◌, ◌<◌, length, IfErr, IfOk, IsErrOf};
ghost use Rattle.wire_bytes.specs.Outcome.{Fails};
ghost use Rattle.trace_words.specs.declared.fault.TraceFault.TheVariants as trace_fault;
ghost use Rattle.trace_player.specs.Traces.{max_bytes, trace_of};
ghost use Rattle.trace_views.specs.Fronts.{front_of, trace_by};
ghost use Rattle.trace_views.specs.Plays.{PlaysFront, PlaysView, ShowsTrace, ViewsFront, play_fault_of};

use crate::front::read_front;
use crate::view::TraceView;
use crate::viewing::view_trace;
use counted_io::Writer;
use std::alloc::Global;
use trace_player::{PlayFault, TraceFault, read_trace};

// Returns the fault of a player for the fault of a text.
fn play_fault(fault: TraceFault) -> PlayFault
    ensures { result ≡ play_fault_of fault }
{
    match fault {
        TraceFault::Line(number) => PlayFault::Line(number),
        TraceFault::TooLong => PlayFault::TooLong,
        TraceFault::Memory => PlayFault::Memory,
    }
}

// Returns what a view shows of the trace of a text.
fn view_text(alloc: Global, text: &[u8], view: &TraceView) -> Result<Vec<u8>, TraceFault>
    ensures ok { IfOk result (λ shown. ShowsTrace view.now text.now shown.items) }
    ensures err { IfErr result (λ fault. Fails trace_fault.Memory fault (trace_of text.now)) }
    ensures too_long { IsErrOf result trace_fault.TooLong → max_bytes < length text.now }
{
    let trace = read_trace(alloc, text)?;
    let shown = view_trace(alloc, &trace, view);
    drop(trace);
    Ok(shown?)
}

/// Plays the text of a trace, and writes the lines that a view shows.
///
/// Nothing is written before the last event has run: after a fault of the text or running out of
/// memory the writer is unchanged. Errors: `TooLong`; `Line` with the number of the first line that
/// is missing or malformed; `Memory`; `Write`, after which the writer may have taken some of the
/// lines. Never `Read`.
pub fn play_view<W: Writer>(
    alloc: Global,
    text: &[u8],
    view: &TraceView,
    writer: &mut W,
) -> Result<(), PlayFault>
    requires { W.can_write writer.now }
    ensures { PlaysView W.contents W.failures view.now text.now writer.old result writer.new }
{
    let shown = match view_text(alloc, text, view) {
        Ok(shown) => shown,
        Err(fault) => return Err(play_fault(fault)),
    };
    match writer.write_all(shown.as_slice()) {
        Ok(()) => Ok(()),
        Err(_) => Err(PlayFault::Write),
    }
}

// Returns what a view shows of the front of a text, and the fault of the line at which the front
// ends.
fn view_front(
    alloc: Global,
    text: &[u8],
    view: &TraceView,
) -> Result<(Vec<u8>, Result<(), TraceFault>), TraceFault>
    ensures ok { IfOk result (λ shown. ViewsFront view.now text.now shown.0.items shown.1) }
    ensures err { IfErr result (λ fault. Fails trace_fault.Memory fault (front_of text.now)) }
{
    let front = read_front(alloc, text)?;
    let shown = view_trace(alloc, &front.trace, view);
    let end = front.end;
    drop(front);
    Ok((shown?, end))
}

/// Plays the front of the text of a trace: the whole events before its first wrong line. Writes the
/// lines that a view shows of them.
///
/// After the fault `Line` with the number of the first wrong line these lines are written; they are
/// none if that line is one of the opening, or has the number of events. After `TooLong` or
/// `Memory` the writer is unchanged, and after `Write` it may have taken some of the lines. Never
/// `Read`.
#[tactic(auto, using(crate::proofs::WholeFronts::text_whole))]
pub fn play_front<W: Writer>(
    alloc: Global,
    text: &[u8],
    view: &TraceView,
    writer: &mut W,
) -> Result<(), PlayFault>
    requires { W.can_write writer.now }
    ensures { PlaysFront W.contents W.failures view.now text.now writer.old result writer.new }
{
    let (shown, end) = match view_front(alloc, text, view) {
        Ok(front) => front,
        Err(fault) => return Err(play_fault(fault)),
    };
    if writer.write_all(shown.as_slice()).is_err() {
        return Err(PlayFault::Write);
    }
    match end {
        Ok(()) => Ok(()),
        Err(fault) => Err(play_fault(fault)),
    }
}
