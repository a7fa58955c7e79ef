//! New meters, alone and behind a lock.
ghost use Rattle.std.specs.Prelude.{◌≡◌, ◌<◌, ◌≤◌, [], IfOk};
ghost use Rattle.turn_lock.specs.Rule.{max_turns};

use cosem_axdr::Octets;
use relay_recorder::Recorder;
use shared_meter::Kept;
use std::alloc::{AllocError, Global};
use std::process::Abort;
use turn_lock::{Port, Shared, Turned};

/// Returns the recorder of a new meter RELAY1, which keeps the given number of events.
pub(crate) fn new_recorder(
    rt: &impl Abort,
    alloc: Global,
    capacity: u16,
) -> Result<Recorder, AllocError>
    requires { (1 ≤ capacity) × (capacity ≤ 1024) }
    ensures { IfOk result (λ recorder. recorder.events ≡ []) }
{
    let device = Octets::from_slice(alloc, b"RELAY1")?;
    assert!(rt; device.len() == 6);
    let recorder = Recorder::new(alloc, &device, capacity);
    drop(device);
    recorder
}

/// Returns a lock for at most `bound` calls over a new meter, and its first port.
pub(crate) fn new_lock(
    rt: &impl Abort,
    alloc: Global,
    bound: u64,
) -> Result<(Shared<Kept>, Port<Kept>), AllocError>
    requires { (0 < bound) × (bound ≤ max_turns) }
    ensures { IfOk result (λ r. r.1.lock ≡ r.0) }
{
    let recorder = new_recorder(rt, alloc, 256)?;
    lock_over(alloc, Kept::new(recorder), bound)
}

// Returns a lock for at most `bound` calls over a value, and its first port.
fn lock_over<T: Turned>(
    alloc: Global,
    value: T,
    bound: u64,
) -> Result<(Shared<T>, Port<T>), AllocError>
    requires value { T.stands value [] }
    requires bound { (0 < bound) × (bound ≤ max_turns) }
    ensures { IfOk result (λ r. r.1.lock ≡ r.0) }
{
    match Shared::new(alloc, value, bound) {
        Ok(made) => Ok(made),
        Err((error, value)) => {
            drop(value);
            Err(error)
        }
    }
}
