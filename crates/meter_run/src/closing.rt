//! The end of a served meter: it is taken out of its lock.
ghost use Rattle.std.specs.Prelude.{◌≡◌, IfOk, IfErr};
ghost use Rattle.shared_meter.specs.Calls.{IsLegal, Stands};
ghost use Rattle.meter_run.specs.Closing.{IsStillOut};
ghost use Rattle.turn_lock.specs.Calls.{Watches, Yields};

use program::Fault;
use shared_meter::Kept;
use turn_lock::{Port, Shared};

/// Takes the meter out of its lock. Errors: `Turns`, together with the port, if another port is
/// still in use, whose calls the meter may have applied. In that case the port read how many turns
/// had ended, and afterwards that more had been drawn.
pub fn close_meter(shared: Shared<Kept>, port: Port<Kept>) -> Result<Kept, (Fault, Port<Kept>)>
    requires { port.lock ≡ shared }
    ensures ok { IfOk result (λ kept. Yields (λ (k : _). k.origin) Stands IsLegal port.known kept) }
    ensures err { IfErr result (λ busy. busy.0 ≡ Fault.Turns) }
    ensures still_out { IfErr result (λ busy. IsStillOut port.known busy.1.known
        × Watches IsLegal port.known busy.1.known) }
{
    match shared.close(port) {
        Ok(kept) => Ok(kept),
        Err((_, _, port)) => Err((Fault::Turns, port)),
    }
}
