//! Making a lock, and closing it to get its value back.
ghost use Rattle.std.specs.Prelude.{◌≡◌, ◌<◌, ◌≤◌, [], ◌∷◌, Some, None, IfOk, IfErr};
ghost use Rattle.std.specs.Arc.{arc_value};
ghost use Rattle.turn_lock.specs.declared.known.Stage.TheVariants.{New};
ghost use Rattle.turn_lock.specs.Rule.{max_turns, first_known, first_view};
ghost use Rattle.turn_lock.specs.Calls.{Watches, Yields, IsBusy};
ghost use Rattle.turn_lock.specs.Seats.{IsSized, seat_with, state_of, view_of};

use crate::board::{Board, Place, Slot};
use crate::faults::Busy;
use crate::lodged::Lodged;
use crate::port::Port;
use crate::steps::{draw_last, settle};
use crate::turned::Turned;
use atomic_table::{Refused, Table};
use std::alloc::{AllocError, AllocFailed, Global};
use std::marker::Model;
use std::snapshot::Snapshot;
use std::sync::Arc;

/// The right to close a lock. Contracts see its lock. It has no bytes: the ports own the value.
#[derive(Drop)]
pub struct Shared<T: Turned> {
    lock: Snapshot<Board<T>>,
}

impl<T: Turned> Model for Shared<T> {
    ghost use Rattle.atomic_table.specs.Seated.{TableId, table_id_coded};

    ghost Value = { TableId };

    ghost coded = { table_id_coded };

    ghost view = { λ s. s.lock.value.shared.table_id };
}

// Returns the value of a table whose first seat has taken no step.
fn regain<T: Turned>(table: Board<T>, place: Place<T>) -> T
    requires table { place.table_id ≡ table.shared.table_id }
    requires size { table.shared.table_id.slots ≡ 1 }
    requires new { (view_of place).stage ≡ New }
    ensures { result ≡ table.shared.key.value }
{
    let mut closed = table.close_with(place);
    let slot = closed.take(0);
    closed.free();
    slot.value.unwrap().into_value()
}

// Makes the table and its first seat. If out of memory, returns the value.
fn lay<T: Turned>(alloc: Global, value: T) -> Result<(Arc<Board<T>, Global>, Place<T>), T>
    requires { T.stands value [] }
    ensures ok { IfOk result (λ t. (t.1.table_id ≡ (arc_value t.0).shared.table_id)
        × IsSized t.1.table_id × (state_of t.1 ≡ seat_with (first_view (T.origin value)) [])) }
    ensures err { IfErr result (λ x. x ≡ value) }
{
    let key = Snapshot::of(&value);
    let lodged = match Lodged::new(alloc, value) {
        Ok(lodged) => lodged,
        Err(AllocFailed { value }) => return Err(value),
    };
    let slot = Slot {
        value: Some(lodged),
        last: None,
    };
    let mut slots = Vec::new(alloc);
    if let Err(AllocFailed { value: slot }) = slots.push(slot) {
        return Err(slot.value.unwrap().into_value());
    }
    let (table, place) = match Table::new(alloc, &[0, 0], slots, &key) {
        Ok(laid) => laid,
        Err(Refused { mut slots }) => return Err(slots.pop().unwrap().value.unwrap().into_value()),
    };
    match Arc::new(alloc, table) {
        Ok(table) => Ok((table, place)),
        Err(AllocFailed { value: table }) => Err(regain(table, place)),
    }
}

impl<T: Turned> Shared<T> {
    /// Makes a lock around the value, for `bound` turns (1 to 2^62), and its first port. If out of
    /// memory, returns the value.
    pub fn new(alloc: Global, value: T, bound: u64) -> Result<(Shared<T>, Port<T>), (AllocError, T)>
        requires bound { (0 < bound) × (bound ≤ max_turns) }
        requires empty { T.stands value [] }
        ensures ok { IfOk result (λ r. (r.0 ≡ r.1.lock) × (r.1.bound ≡ bound)
            × (r.1.known ≡ first_known (T.origin value))) }
        ensures err { IfErr result (λ e. e.1 ≡ value) }
    {
        match lay(alloc, value) {
            Ok((table, mut place)) => {
                settle(&table.shared, &mut place);
                let board: &Board<T> = &table;
                let lock = Snapshot::of(board);
                Ok((
                    Shared { lock },
                    Port {
                        table,
                        place,
                        bound,
                    },
                ))
            }
            Err(value) => Err((AllocError, value)),
        }
    }

    /// Closes the lock and returns its value. `port` is a port of this lock. Never waits.
    ///
    /// Returns `Busy`, with the lock and the port, if more turns had been drawn than had ended: the
    /// port read the count of ended turns, at least one for each call it had seen, and then a
    /// greater count of drawn turns. After `Ok`, a call on a port that was not joined waits forever
    /// or returns `Exhausted`.
    pub fn close(self, port: Port<T>) -> Result<T, (Busy, Shared<T>, Port<T>)>
        requires { port.lock ≡ self }
        ensures ok { IfOk result (λ x. Yields T.origin T.stands T.legal port.known x) }
        ensures err { IfErr result (λ e. IsBusy port.known e.2.known e.0
            × Watches T.legal port.known e.2.known) }
        ensures returned { IfErr result (λ e. (e.1 ≡ self) × (e.2.lock ≡ port.lock)
            × (e.2.bound ≡ port.bound)) }
    {
        let Port {
            table,
            mut place,
            bound,
        } = port;
        match draw_last(&table.shared, &mut place) {
            Ok(value) => {
                drop(place);
                drop(table);
                Ok(value)
            }
            Err(busy) => Err((
                busy,
                self,
                Port {
                    table,
                    place,
                    bound,
                },
            )),
        }
    }
}
