//! Closes the connections that were idle for too long.
ghost use Rattle.std.specs.Prelude.{◌∷◌, []};
ghost use Rattle.meter_fleet.specs.Rounds.{ClosesKeys};

use fleet_links::Stream;
use fleet_meters::Fleet;

// Closes the connections with these keys.
pub(crate) fn close_idle<S: Stream + Drop>(fleet: &mut Fleet<S>, keys: &[usize])
    ensures { ClosesKeys fleet.old keys.now fleet.new }
{
    'keys: for key in keys {
        close_key(fleet, *key);
    }
}

// Closes the connection with this key, if there is one.
fn close_key<S: Stream + Drop>(fleet: &mut Fleet<S>, key: usize)
    ensures { ClosesKeys fleet.old (key ∷ []) fleet.new }
{
    let stream = fleet.close(key);
    drop(stream);
}
