//! The operations that the calls of a port consist of. Each takes steps on the table; a call that
//! waits repeats them.
ghost use Rattle.std.specs.Prelude.{◌≡◌, ◌+◌, ◌<◌, ◌≤◌, [], ◌∷◌, ◌++◌, Some, None, length, IfOk};
ghost use Rattle.std.specs.Prelude.{IfErr, IfSome, IfNone, List, OnOk, Option, ℕ};
ghost use Rattle.std.specs.declared.snapshot.Snapshot.{Snapshot};
ghost use Rattle.turn_lock.specs.declared.known.Stage.TheVariants.{Young, Idle, Turn};
ghost use Rattle.turn_lock.specs.History.{calls_by};
ghost use Rattle.turn_lock.specs.Rule.{max_turns, LastCall, full_slot, HasNoCalls, IsUnused};
ghost use Rattle.turn_lock.specs.Calls.{IsLegal, Watches, IsBusy};
ghost use Rattle.turn_lock.specs.Seats.{IsSized, IsReady, empty_slot, with_stage, new_entries};
ghost use Rattle.turn_lock.specs.Seats.{parent_view, child_view, note_view, seat_with, at_stage};
ghost use Rattle.turn_lock.specs.Seats.{state_of, view_of, known_of, carried_of};
ghost use Rattle.turn_lock.specs.Plays.{AddsCall, KnowsBoth};

use crate::board::{HOME, Place, SERVING, Slot, TICKET, Top};
use crate::faults::Busy;
use crate::lodged::Lodged;
use crate::plays::{Close, Cut, Draw, End, Look, Merge, SeeServing, Settle, TakeIn, Tell};
use crate::turned::Turned;
use crossbeam_utils::Backoff;
use std::snapshot::Snapshot;
use std::sync::Wait;
use std::time::Duration;

// The longest sleep of a waiting call between two reads of the word, in microseconds.
const NAP: u64 = 50;

// Takes a seat's first step.
pub(crate) fn settle<T: Turned>(top: &Top<T>, place: &mut Place<T>)
    requires table { (place.old.table_id ≡ top.now.table_id) × IsSized top.now.table_id }
    ensures seat { (place.new.table_id ≡ place.old.table_id)
        × (state_of place.new ≡ at_stage (state_of place.old) Idle) }
    ensures young { (view_of place.old).stage ≡ Young → HasNoCalls (known_of place.old) }
{
    top.load::<Settle>(place, SERVING);
}

// Waits for a moment: spins at first, then yields the processor, then sleeps until the count of
// ended turns is no longer `served`, for at most `NAP`, because the end of a turn wakes nobody.
fn pause<T: Turned, W: Wait>(top: &Top<T>, rt: &W, backoff: &Backoff, served: u64)
    requires { IsSized top.now.table_id }
{
    if backoff.is_completed() {
        top.park_timeout(
            rt,
            SERVING,
            (served % (1 << 32)) as u32,
            Duration::from_micros(NAP),
        );
    } else {
        backoff.snooze();
    }
}

// Takes the value out of the slot, which the seat holds.
fn take_out<T: Turned>(top: &Top<T>, place: &mut Place<T>) -> Lodged<T>
    requires table { (place.old.table_id ≡ top.now.table_id) × IsSized top.now.table_id }
    requires holds { (x : T) × (last : LastCall T.Event T.Reply)
        × (carried_of place.old ≡ (0, full_slot x last) ∷ []) }
    ensures seat { (place.new.table_id ≡ place.old.table_id)
        × (state_of place.new ≡ seat_with (view_of place.old) ((0, empty_slot) ∷ [])) }
    ensures value { (last : LastCall T.Event T.Reply)
        × (carried_of place.old ≡ (0, full_slot result last) ∷ []) }
{
    let empty = Slot {
        value: None,
        last: None,
    };
    top.exchange(place, HOME, empty).value.unwrap()
}

// Draws a turn and takes the value, or returns `None` if `bound` turns were drawn. Draws only when
// all drawn turns have ended, so that a thread that is not running never blocks the others.
pub(crate) fn draw<T: Turned, W: Wait>(
    top: &Top<T>,
    place: &mut Place<T>,
    rt: &W,
    bound: u64,
) -> Option<(u64, Lodged<T>)>
    requires table { (place.old.table_id ≡ top.now.table_id) × IsSized top.now.table_id }
    requires bound { bound ≤ max_turns }
    requires ready { IsReady place.old Idle [] × IsLegal T.legal (known_of place.old) }
    ensures seat { place.new.table_id ≡ place.old.table_id }
    ensures watches { Watches T.legal (known_of place.old) (known_of place.new) }
    ensures taken { IfSome result
        (λ t. IsReady place.new (Turn t.0) ((0, empty_slot) ∷ []) × (t.0 < bound)) }
    ensures drawn { IfSome result (λ t. ((known_of place.old).drawn ≤ t.0)
        × (t.0 < (known_of place.new).drawn)) }
    ensures value { IfSome result (λ t. ((known_of place.new).origin ≡ Some (T.origin t.1))
        × T.stands t.1 (known_of place.new).seen) }
    ensures none { IfNone result (IsReady place.new Idle []
        × (bound ≤ (known_of place.new).drawn)) }
{
    let backoff = Backoff::new();
    for _ in rt.forever() {
        let turn = top.load::<Look<T>>(place, TICKET);
        if turn >= bound {
            return None;
        }
        let served = top.load::<SeeServing>(place, SERVING);
        if served == turn
            && top.compare_exchange::<Draw<T>>(place, TICKET, turn, turn + 1) == turn
        {
            return Some((turn, take_out(top, place)));
        }
        pause(top, rt, &backoff, served);
    }
    unreachable!()
}

// Puts the value back and ends the turn, adding the entry in `last`, if any, to the history.
pub(crate) fn end_turn<T: Turned>(
    top: &Top<T>,
    place: &mut Place<T>,
    turn: u64,
    value: Lodged<T>,
    last: Option<(Snapshot<T::Event>, Snapshot<T::Reply>)>,
)
    requires table { (place.old.table_id ≡ top.now.table_id) × IsSized top.now.table_id }
    requires taken { IsReady place.old (Turn turn) ((0, empty_slot) ∷ []) }
    requires value { ((known_of place.old).origin ≡ Some (T.origin value))
        × T.stands value ((known_of place.old).seen
        ++ new_entries (known_of place.old).number last) }
    ensures seat { (place.new.table_id ≡ place.old.table_id) × (carried_of place.new ≡ []) }
    ensures call { AddsCall T.legal last (view_of place.old) (view_of place.new) }
    ensures within { length (known_of place.new).seen ≤ turn + 1 }
{
    let slot = Slot {
        value: Some(value),
        last,
    };
    drop(top.exchange(place, HOME, slot));
    top.fetch_add::<End<T>>(place, SERVING, 1);
}

// Splits off a port's seat.
pub(crate) fn divide<T: Turned>(top: &Top<T>, place: &mut Place<T>) -> Place<T>
    requires table { (place.old.table_id ≡ top.now.table_id) × IsSized top.now.table_id }
    requires ready { IsReady place.old Idle [] }
    ensures seat { (place.new.table_id ≡ place.old.table_id)
        × (state_of place.new ≡ seat_with (parent_view (view_of place.old)) []) }
    ensures child { (result.table_id ≡ place.old.table_id)
        × (state_of result ≡ seat_with (with_stage (child_view (view_of place.old)) Idle) []) }
    ensures young { HasNoCalls (known_of result) }
{
    let mut child = top.split_seat::<Cut>(place);
    settle(top, &mut child);
    child
}

// Splits off a note's seat, which has seen what the port has seen.
pub(crate) fn write_note<T: Turned>(top: &Top<T>, place: &mut Place<T>) -> Place<T>
    requires table { (place.old.table_id ≡ top.now.table_id) × IsSized top.now.table_id }
    requires ready { IsReady place.old Idle [] }
    ensures seat { (place.new.table_id ≡ place.old.table_id)
        × (state_of place.new ≡ state_of place.old) }
    ensures note { (result.table_id ≡ place.old.table_id)
        × (state_of result ≡ seat_with (note_view (view_of place.old)) []) }
{
    top.split_seat::<Tell>(place)
}

// Joins another seat into this one, which has then seen all that the other had seen.
pub(crate) fn take_in<T: Turned>(top: &Top<T>, place: &mut Place<T>, other: Place<T>)
    requires table { (place.old.table_id ≡ top.now.table_id) × (other.table_id ≡ top.now.table_id)
        × IsSized top.now.table_id }
    requires ready { IsReady place.old Idle [] × (carried_of other ≡ []) }
    ensures seat { (place.new.table_id ≡ place.old.table_id) × (carried_of place.new ≡ []) }
    ensures merged { KnowsBoth T.legal (known_of place.old) (view_of other) (view_of place.new) }
{
    top.join_seat::<TakeIn>(place, other);
    top.load::<Merge<T>>(place, SERVING);
}

// Draws the last turn if all drawn turns have ended, and takes the value. Else returns `Busy`.
pub(crate) fn draw_last<T: Turned>(top: &Top<T>, place: &mut Place<T>) -> Result<T, Busy>
    requires table { (place.old.table_id ≡ top.now.table_id) × IsSized top.now.table_id }
    requires ready { IsReady place.old Idle [] }
    ensures seat { place.new.table_id ≡ place.old.table_id }
    ensures watches { Watches T.legal (known_of place.old) (known_of place.new) }
    ensures ok { IfOk result (λ x. ((known_of place.new).origin ≡ Some (T.origin x))
        × T.stands x (known_of place.new).seen) }
    ensures unused { OnOk result ((q : List ℕ) → IsUnused (known_of place.old) q
        → calls_by q (known_of place.new).seen ≡ []) }
    ensures err { IfErr result (λ b. IsReady place.new Idle []
        × IsBusy (known_of place.old) (known_of place.new) b) }
{
    let served = top.load::<SeeServing>(place, SERVING);
    let drawn = top.compare_exchange::<Close<T>>(place, TICKET, served, served + 1);
    if drawn == served {
        Ok(Box::into_inner(take_out(top, place).inner))
    } else {
        Err(Busy { drawn, served })
    }
}
