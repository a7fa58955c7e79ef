//! `play`: reads a trace, runs its events on a meter, and writes a line for each.
ghost use Rattle.trace_player.specs.Plays.{Plays, TakesTrace};

use crate::fault::PlayFault;
use crate::output::{PlayedLines, play_text};
use crate::reading::MAX_BYTES;
use counted_io::{Reader, Writer, read_to_end_within};
use std::alloc::Global;
use trace_words::TraceFault;

// Reads all bytes of a reader and plays the trace in them. The bytes are dropped before it
// returns.
fn play_input<R: Reader>(alloc: Global, reader: &mut R) -> Result<PlayedLines, PlayFault>
    requires { R.can_read reader.now }
    ensures { TakesTrace (R.remaining reader.old) (R.failures reader.old) result
        (R.remaining reader.new) (R.failures reader.new) }
{
    let text = read_to_end_within(alloc, reader, MAX_BYTES)?;
    match play_text(alloc, text) {
        Ok(output) => Ok(output),
        Err(TraceFault::Line(number)) => Err(PlayFault::Line(number)),
        Err(TraceFault::Memory) => Err(PlayFault::Memory),
        Err(TraceFault::TooLong) => unreachable!(),
    }
}

/// Plays a trace: reads its text to the end, runs its events on a meter in the state of the
/// opening, and writes a line for each event with the reply and the switch after it. Returns the
/// number of events.
///
/// Nothing is written before the last event has run: after a fault of the text, a failed read or
/// running out of memory the writer is unchanged. Errors: `Line` with the number of the first line
/// that is missing or malformed; `TooLong`; `Read`; `Write`, after which the writer may have taken
/// some of the lines; `Memory`.
pub fn play<R: Reader, W: Writer>(
    alloc: Global,
    reader: &mut R,
    writer: &mut W,
) -> Result<u64, PlayFault>
    requires readable { R.can_read reader.now }
    requires writable { W.can_write writer.now }
    ensures { Plays R.remaining R.failures W.contents W.failures reader.old writer.old result
        reader.new writer.new }
{
    let PlayedLines { lines, count } = play_input(alloc, reader)?;
    match writer.write_all(lines.as_slice()) {
        Ok(()) => Ok(count),
        Err(_) => Err(PlayFault::Write),
    }
}
