//! Serving the connections that are ready.
ghost use Rattle.std.specs.Prelude.{◌≡◌, ◌∷◌, [], ◌<◌, length};
ghost use Rattle.meter_fleet.specs.Rounds.{ServesMore, frame_bytes};

use crate::serving::FleetFault;
use fleet_links::{Stream, Turn};
use fleet_meters::Fleet;
use std::alloc::Global;

// Serves the connections with these keys. Appends the keys of those that may continue at once to
// `next`.
pub(crate) fn serve_ready<S: Stream + Drop>(
    alloc: Global,
    fleet: &mut Fleet<S>,
    ready: &[usize],
    next: &mut Vec<usize>,
    input: &mut [u8],
    frame: &mut [u8],
) -> Result<(), FleetFault>
    requires has_room { 0 < length input.now }
    requires room { length frame.now ≡ frame_bytes }
    ensures { ServesMore fleet.old ready.now next.old.items result next.new.items fleet.new }
{
    'keys: for key in ready {
        match serve_key(alloc, fleet, *key, next, input, frame) {
            Ok(()) => {}
            Err(fault) => return Err(fault),
        }
    }
    Ok(())
}

// Runs the connection with this key, and closes it if it is over. Appends its key to `next` if it
// may continue at once.
fn serve_key<S: Stream + Drop>(
    alloc: Global,
    fleet: &mut Fleet<S>,
    key: usize,
    next: &mut Vec<usize>,
    input: &mut [u8],
    frame: &mut [u8],
) -> Result<(), FleetFault>
    requires has_room { 0 < length input.now }
    requires room { length frame.now ≡ frame_bytes }
    ensures { ServesMore fleet.old (key ∷ []) next.old.items result next.new.items fleet.new }
{
    match fleet.turn(alloc, key, input, frame) {
        Some(Turn::Again) => match next.push(key) {
            Ok(()) => Ok(()),
            Err(_) => Err(FleetFault::Memory),
        },
        Some(Turn::Over(_)) => {
            let stream = fleet.close(key);
            drop(stream);
            Ok(())
        }
        Some(Turn::Waits) => Ok(()),
        None => Ok(()),
    }
}
