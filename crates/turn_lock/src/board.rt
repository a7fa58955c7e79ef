//! The table that the ports of one lock share, and its invariant.
//!
//! Word 0 counts the turns drawn, word 1 the turns ended. Slot 0 has the value, or nothing while a
//! turn is held, and the event and reply of the last turn.
use crate::known::View;
use crate::lodged::Lodged;
use crate::turned::Turned;
use atomic_table::{Seat, Shared as Words, Table, TableRule};
use std::alloc::Global;
use std::marker::PhantomData;
use std::snapshot::Snapshot;

// The word that counts the turns drawn.
pub(crate) const TICKET: usize = 0;

// The word that counts the turns ended.
pub(crate) const SERVING: usize = 1;

// The only slot.
pub(crate) const HOME: usize = 0;

/// The largest bound on turns that a lock may be made with: 2^62.
pub const MAX_TURNS: u64 = 1 << 62;

/// The slot's content. `last` is the event and the reply of the last turn, as snapshots without
/// bytes (only the tag takes space): from it the step that ends a turn knows which entry to add to
/// the history, if any.
#[derive(Drop)]
pub struct Slot<T, E, R> {
    pub value: Option<Lodged<T>>,
    pub last: Option<(Snapshot<E>, Snapshot<R>)>,
}

/// The type that names the table's invariant.
pub struct Turns<T> {
    value: PhantomData<T>,
}

impl<T: Turned> TableRule<
    Slot<T, T::Event, T::Reply>,
    View<T::Event, T::Reply, T::Origin>,
    Snapshot<T>,
> for Turns<T> {
    ghost use Rattle.turn_lock.specs.Rule.{IsLockState, first_view};

    ghost holds = { λ key. IsLockState T.origin T.stands T.legal key.value };

    ghost first = { λ key. first_view (T.origin key.value) };
}

/// The table with the memory it owns.
pub type Board<T> = Table<
    Slot<T, <T as Turned>::Event, <T as Turned>::Reply>,
    View<<T as Turned>::Event, <T as Turned>::Reply, <T as Turned>::Origin>,
    Snapshot<T>,
    Turns<T>,
    Global,
>;

/// The table's shared words and slots, on which steps are taken.
pub type Top<T> = Words<
    Slot<T, <T as Turned>::Event, <T as Turned>::Reply>,
    View<<T as Turned>::Event, <T as Turned>::Reply, <T as Turned>::Origin>,
    Snapshot<T>,
    Turns<T>,
>;

/// A port's or a note's seat at the table.
pub type Place<T> = Seat<
    Slot<T, <T as Turned>::Event, <T as Turned>::Reply>,
    View<<T as Turned>::Event, <T as Turned>::Reply, <T as Turned>::Origin>,
>;
