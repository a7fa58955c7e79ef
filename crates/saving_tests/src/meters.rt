//! A meter with a journal, and its events.
ghost use Rattle.std.specs.Prelude.{◌≡◌, ◌<◌, ◌≤◌, [], IfOk};
ghost use Rattle.shared_meter.specs.Calls.{Stands};

use cosem_axdr::{Data, Octets};
use cosem_names::{AttrRef, ClassId, Level, Obis};
use relay_events::Event;
use relay_recorder::Recorder;
use shared_meter::{Kept, PendingLines};
use std::alloc::{AllocError, Global};
use std::sync::Wait;
use turn_lock::{Port, Shared};

/// Returns a management client's write of mode 1.
fn write_mode() -> Event {
    Event::Set {
        level: Level::Management,
        attr: AttrRef {
            class: ClassId(70),
            name: Obis([0, 0, 96, 3, 10, 255]),
            number: 4,
        },
        selected: false,
        value: Data::Enum(1),
    }
}

/// Returns a new meter, which keeps 16 events.
fn new_recorder(alloc: Global) -> Result<Recorder, AllocError>
    ensures { IfOk result (λ recorder. recorder.events ≡ []) }
{
    let device = Octets::from_slice(alloc, b"RELAY1")?;
    let recorder = Recorder::new(alloc, &device, 16);
    drop(device);
    recorder
}

/// Returns a lock over a meter, and its first port.
fn lock_over(alloc: Global, kept: Kept) -> Result<(Shared<Kept>, Port<Kept>), AllocError>
    requires { Stands kept [] }
{
    match Shared::new(alloc, kept, 100) {
        Ok(made) => Ok(made),
        Err((error, kept)) => {
            drop(kept);
            Err(error)
        }
    }
}

/// Returns a lock over a new meter with a journal, and its first port.
fn new_journal(alloc: Global) -> Result<(Shared<Kept>, Port<Kept>), AllocError> {
    let pending = PendingLines::new(alloc, 64)?;
    match new_recorder(alloc) {
        Ok(recorder) => lock_over(alloc, Kept::with_journal(recorder, pending)),
        Err(error) => {
            drop(pending);
            Err(error)
        }
    }
}

/// Asks a meter for a write of mode 1, a press and a moment. Returns whether it replied to all.
fn ask_three<W: Wait>(rt: &W, alloc: Global, port: &mut Port<Kept>) -> bool {
    port.call(rt, alloc, write_mode()).is_ok()
        && port.call(rt, alloc, Event::Button).is_ok()
        && port.call(rt, alloc, Event::Moment(5)).is_ok()
}

/// Returns the port of a new meter with a journal that replied to three events; `None` if one of
/// them got no reply.
pub(crate) fn asked_port<W: Wait>(rt: &W, alloc: Global) -> Result<Option<Port<Kept>>, AllocError> {
    let (shared, mut port) = new_journal(alloc)?;
    let are_replies = ask_three(rt, alloc, &mut port);
    drop(shared);
    if are_replies {
        return Ok(Some(port));
    }
    drop(port);
    Ok(None)
}
