//! Shares a ledger among ports, and takes it back.
ghost use Rattle.std.specs.Prelude.{◌≡◌, ◌<◌, ℕ, length, slice_index_or, IfOk, IfSome, []};
ghost use Rattle.std.specs.List.{All};
ghost use Rattle.turn_lock.specs.History.{StartsWith};
ghost use Rattle.turn_lock.specs.Rule.{first_known};
ghost use Rattle.ledger_campaigns.specs.Campaigns.{Closes};

use crate::desk::Desk;
use crate::place::LedgeredPlace;
use campaign_ledger::{Book, Ledger};
use head_end::Connector;
use std::alloc::{AllocError, Global};
use turn_lock::{MAX_TURNS, Port, Shared};

// Makes a lock around a ledger, and its first port. If out of memory, drops the ledger.
pub(crate) fn share<B: Book>(
    alloc: Global,
    ledger: Ledger<B>,
) -> Result<(Shared<Desk<B>>, Port<Desk<B>>), AllocError>
    ensures lock { IfOk result (λ shared. shared.1.lock ≡ shared.0) }
    ensures known { IfOk result (λ shared. shared.1.known ≡ first_known ledger) }
{
    match Shared::new(alloc, Desk::new(ledger), MAX_TURNS) {
        Ok(shared) => Ok(shared),
        Err(refused) => {
            drop(refused);
            Err(AllocError)
        }
    }
}

// The port reads what the ports of all places have seen. The places remain as they are.
pub(crate) fn meet_all<C: Connector, B: Book>(
    port: &mut Port<Desk<B>>,
    places: &mut [LedgeredPlace<C, B>],
)
    requires { All (λ place. place.port.lock ≡ port.old.lock) places.old }
    ensures lock { port.new.lock ≡ port.old.lock }
    ensures origin { port.new.known.origin ≡ port.old.known.origin }
    ensures unchanged { places.new ≡ places.old }
    ensures seen { All (λ place. StartsWith port.new.known.seen place.port.known.seen) places.old }
{
    for i in 0..places.len() {
        let place = &mut places[i];
        let note = place.port.tell();
        port.meet(note);
    }
}

// Closes the lock and returns its ledger, or `None` if a turn of the lock has not ended.
pub(crate) fn close<B: Book>(shared: Shared<Desk<B>>, port: Port<Desk<B>>) -> Option<Ledger<B>>
    requires { port.lock ≡ shared }
    ensures { IfSome result (λ ledger. Closes B.is_honest B.is_marked B.keeps port.known ledger) }
{
    match shared.close(port) {
        Ok(desk) => Some(desk.into_ledger()),
        Err(busy) => {
            drop(busy);
            None
        }
    }
}
