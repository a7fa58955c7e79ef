//! The knowledge of each seat at the table. Values of these types exist only in contracts and
//! proofs.
use crate::turned::Entry;
use std::collections::LinkedList;

/// A port that was joined into another: its number, and the count of ports that were split off from
/// it.
pub struct JoinedPort {
    pub number: LinkedList<u64>,
    pub splits: u64,
}

/// A port's knowledge, as contracts see it.
///
/// `origin` is the origin of the value that the lock was made with (`None` if the port was joined
/// into another). `number` identifies the port; the first port's is empty. `splits` counts the
/// ports split off from it, and `joined` has those joined in. `seen` is the history
/// that the port has seen, `drawn` the greatest count of drawn turns that it has read, and `served`
/// the last count of ended turns that it has read.
pub struct Known<E, R, O> {
    pub origin: Option<O>,
    pub number: LinkedList<u64>,
    pub splits: u64,
    pub joined: LinkedList<JoinedPort>,
    pub seen: LinkedList<Entry<E, R>>,
    pub drawn: u64,
    pub served: u64,
}

/// The next action of a seat.
pub enum Stage<E, R, O> {
    /// The first seat before its first step: the slot has the value that the table was made with.
    New,
    /// A seat that was split off, before its first step: no call in the history is its own.
    Young,
    /// Between two calls.
    Idle,
    /// The seat has drawn this turn and holds it and the slot.
    Turn(u64),
    /// The seat has read that this number of turns have ended.
    SawServing(u64),
    /// The seat has joined another: whether that was a port's, and its knowledge.
    Met(bool, Known<E, R, O>),
}

/// A seat's view: its knowledge, whether it is a port's or a note's, and its next action.
pub struct View<E, R, O> {
    pub known: Known<E, R, O>,
    pub is_port: bool,
    pub stage: Stage<E, R, O>,
}
