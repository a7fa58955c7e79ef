//! A recorder that runs out of memory is unchanged.
ghost use Rattle.std.specs.Prelude.{◌≡◌, ◌≤◌, [], IfOk};

use super::RefusedAndStood;
use crate::meters::new_recorder;
use cosem_axdr::Octets;
use relay_core::{Event, Reply};
use relay_recorder::Recorder;
use std::alloc::{AllocError, Global};
use std::process::Abort;
use std::test::Fail;
use trace_lines::read_event;
use trace_player::write_trace;
use trace_words::Version;

/// Script 3 is written: mode 0, followed by a disconnection.
const WRITE_TABLE: &[u8] =
    b"set 1 9 00000A006AFF 2 0 010102021200030102020516011200460906000060030AFF0F041600020516021200460906000060030AFF0F010F00";

/// Returns the event of a line of a trace.
pub(crate) fn event_of(alloc: Global, line: &[u8]) -> Result<Event, AllocError> {
    read_event(alloc, Version::Two, line).map_err(|_| AllocError)
}

/// Returns the code of a reply, or 255 if it has none.
fn code(reply: &Reply) -> u8 {
    match reply {
        Reply::Code(code) => code.code(),
        _ => 255,
    }
}

/// Returns the text of a recorder's trace.
fn export_text(alloc: Global, recorder: &Recorder) -> Result<Octets, AllocError> {
    let trace = recorder.export(alloc)?;
    let text = write_trace(alloc, &trace);
    drop(trace);
    text
}

/// Returns whether a recorder's trace is this text.
fn is_exported(alloc: Global, recorder: &Recorder, text: &[u8]) -> Result<bool, AllocError> {
    let now = export_text(alloc, recorder)?;
    let same = now.as_slice() == text;
    drop(now);
    Ok(same)
}

/// Writes the script table, and returns the code of the reply, or `None` if the recorder ran out of
/// memory. The error means that an allocation outside the recorder was refused.
fn write_table(alloc: Global, recorder: &mut Recorder) -> Result<Option<u8>, AllocError> {
    let event = event_of(alloc, WRITE_TABLE)?;
    match recorder.apply(alloc, event) {
        Ok(reply) => {
            let code = code(&reply);
            drop(reply);
            Ok(Some(code))
        }
        Err(_) => Ok(None),
    }
}

/// Writes the script table. If out of memory, checks that the recorder's trace is the one before,
/// and writes the table again.
fn take_table(
    rt: &impl Abort,
    alloc: Global,
    recorder: &mut Recorder,
    before: &[u8],
) -> Result<(), Fail> {
    if let Some(code) = write_table(alloc, recorder)? {
        assert!(rt; code == 0);
        return Ok(());
    }
    assert!(rt; is_exported(alloc, recorder, before)?);
    assert!(rt; write_table(alloc, recorder)? == Some(0));
    Err(RefusedAndStood)?
}

/// Exports the recorder's trace, and then writes the script table as [`take_table`] does.
fn look_and_take(rt: &impl Abort, alloc: Global, recorder: &mut Recorder) -> Result<(), Fail> {
    let before = export_text(alloc, recorder)?;
    let taken = take_table(rt, alloc, recorder, before.as_slice());
    drop(before);
    taken
}

#[test]
fn apply_takes_a_table(rt: HostRuntime) -> Result<(), Fail> {
    let alloc = rt.alloc();
    let mut recorder = new_recorder(&rt, alloc, 1)?;
    let taken = look_and_take(&rt, alloc, &mut recorder);
    drop(recorder);
    taken
}
