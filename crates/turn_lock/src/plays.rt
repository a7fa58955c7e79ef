//! The steps on the table, and how each changes the view of the seat that takes it.
use crate::board::Slot;
use crate::known::View;
use crate::turned::Turned;
use atomic_table::{Join, Play, Split};
use std::marker::PhantomData;

// A seat's first load.
pub(crate) struct Settle;

impl<T, E, R, O> Play<Slot<T, E, R>, View<E, R, O>> for Settle {
    ghost use Rattle.turn_lock.specs.Plays.{play, Settles};

    ghost then = { play Settles };
}

// A load of the count of drawn turns.
pub(crate) struct Look<T> {
    value: PhantomData<T>,
}

impl<T: Turned> Play<Slot<T, T::Event, T::Reply>, View<T::Event, T::Reply, T::Origin>> for Look<T> {
    ghost use Rattle.turn_lock.specs.Plays.{play, Looks};

    ghost then = { play (Looks T.legal) };
}

// A compare-exchange that draws a turn and takes the slot.
pub(crate) struct Draw<T> {
    value: PhantomData<T>,
}

impl<T: Turned> Play<Slot<T, T::Event, T::Reply>, View<T::Event, T::Reply, T::Origin>> for Draw<T> {
    ghost use Rattle.turn_lock.specs.Plays.{play, Draws};

    ghost then = { play (Draws T.origin T.stands T.legal) };
}

// The end of a turn, which returns the slot.
pub(crate) struct End<T> {
    value: PhantomData<T>,
}

impl<T: Turned> Play<Slot<T, T::Event, T::Reply>, View<T::Event, T::Reply, T::Origin>> for End<T> {
    ghost use Rattle.turn_lock.specs.Plays.{play, Ends};

    ghost then = { play (Ends T.legal) };
}

// A load of the count of ended turns, before a turn is drawn.
pub(crate) struct SeeServing;

impl<T, E, R, O> Play<Slot<T, E, R>, View<E, R, O>> for SeeServing {
    ghost use Rattle.turn_lock.specs.Plays.{play, SeesServing};

    ghost then = { play SeesServing };
}

// A compare-exchange that draws the last turn, which never ends.
pub(crate) struct Close<T> {
    value: PhantomData<T>,
}

impl<T: Turned> Play<Slot<T, T::Event, T::Reply>, View<T::Event, T::Reply, T::Origin>>
    for Close<T> {
    ghost use Rattle.turn_lock.specs.Plays.{play, Closes};

    ghost then = { play (Closes T.origin T.stands T.legal) };
}

// The load after a seat was taken in.
pub(crate) struct Merge<T> {
    value: PhantomData<T>,
}

impl<T: Turned> Play<Slot<T, T::Event, T::Reply>, View<T::Event, T::Reply, T::Origin>>
    for Merge<T> {
    ghost use Rattle.turn_lock.specs.Plays.{play, Merges};

    ghost then = { play (Merges T.legal) };
}

// The split of a seat for a new port.
pub(crate) struct Cut;

impl<E, R, O> Split<View<E, R, O>> for Cut {
    ghost use Rattle.turn_lock.specs.Seats.{parent_view, child_view};

    ghost left = { parent_view };

    ghost right = { child_view };
}

// The split of a seat for a note.
pub(crate) struct Tell;

impl<E, R, O> Split<View<E, R, O>> for Tell {
    ghost use Rattle.turn_lock.specs.Seats.{note_view};

    ghost left = { λ v. v };

    ghost right = { note_view };
}

// The join of a port's or a note's seat.
pub(crate) struct TakeIn;

impl<E, R, O> Join<View<E, R, O>> for TakeIn {
    ghost use Rattle.turn_lock.specs.Seats.{view_with, spent_view};

    ghost both = { view_with };

    ghost spent = { spent_view };
}
