//! Processing of the bytes from the meter, frame by frame.
ghost use Rattle.std.specs.Prelude.{◌≡◌, ◌++◌, IfOk};
ghost use Rattle.client_core.specs.Steps.{progress_after_frame, Hears};

use crate::job::Verb;
use crate::progress::Progress;
use crate::replying::{or_unknown, progress_after};
use std::alloc::{AllocError, Global};
use wrapper_frame::{Deframer, Frame, WrapperFault};

// The port of the meter's management logical device and of the management client.
const PORT: u16 = 1;

/// Processes more bytes from the meter, and returns the progress after them: all whole frames are
/// removed and processed.
pub fn hear_more(
    alloc: Global,
    verb: Verb,
    progress: Progress,
    deframer: &mut Deframer,
    bytes: &[u8],
) -> Result<Progress, AllocError>
    ensures { IfOk result
        (λ new. Hears verb progress (deframer.old ++ bytes.now) new deframer.new) }
{
    match deframer.feed(bytes) {
        Ok(()) => receive(alloc, verb, progress, deframer),
        Err(WrapperFault::Memory) => Err(AllocError),
        Err(WrapperFault::Version) => Ok(or_unknown(progress)),
        Err(WrapperFault::TooLong) => Ok(or_unknown(progress)),
    }
}

// Removes and processes all whole frames, and returns the progress after them.
fn receive(
    alloc: Global,
    verb: Verb,
    progress: Progress,
    deframer: &mut Deframer,
) -> Result<Progress, AllocError>
    ensures { IfOk result (λ new. Hears verb progress deframer.old new deframer.new) }
{
    let mut progress = progress;
    'frames: loop {
        match deframer.take(alloc) {
            Ok(Some(frame)) => {
                progress = progress_after_frame(alloc, verb, progress, &frame);
            }
            Ok(None) => return Ok(progress),
            Err(WrapperFault::Memory) => return Err(AllocError),
            Err(WrapperFault::Version) => return Ok(or_unknown(progress)),
            Err(WrapperFault::TooLong) => return Ok(or_unknown(progress)),
        }
    }
}

// Returns the progress after one more frame. Frames of other ports are skipped.
fn progress_after_frame(alloc: Global, verb: Verb, progress: Progress, frame: &Frame) -> Progress
    ensures { result ≡ progress_after_frame verb progress frame.now }
{
    if frame.src == PORT && frame.dst == PORT {
        progress_after(alloc, verb, progress, frame.payload.as_slice())
    } else {
        progress
    }
}
