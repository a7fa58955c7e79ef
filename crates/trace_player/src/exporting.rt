//! The text of the trace of a meter's recorder.
ghost use Rattle.std.specs.Prelude.{IfOk};
ghost use Rattle.trace_player.specs.RunTraces.{TellsRun};

use crate::laws::exported_run_is_played;
use crate::writing::write_trace;
use cosem_axdr::Octets;
use relay_recorder::Recorder;
use std::alloc::{AllocError, Global};

/// Returns the text of the trace of a recorder: its opening and the events that it keeps. Played,
/// it prints the lines of these events, with the replies that were given. It is read back as that
/// trace if [`fits_line`](trace_lines::fits_line) accepts each of these events.
pub fn recorder_trace(alloc: Global, recorder: &Recorder) -> Result<Octets, AllocError>
    ensures { IfOk result (TellsRun recorder.now) }
{
    // (no effect: the contract needs this law)
    exported_run_is_played();
    let trace = recorder.export(alloc)?;
    let text = write_trace(alloc, &trace);
    drop(trace);
    text
}
