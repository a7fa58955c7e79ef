//! Ports, through which threads call the value, and the notes that one port writes for another.
ghost use Rattle.std.specs.Prelude.{◌≡◌, ◌≤◌, length, IfOk, IfErr, IfSome, IfNone, OnOk, OnSome};
ghost use Rattle.std.specs.Prelude.{OnErr};
ghost use Rattle.turn_lock.specs.Rule.{HasNoCalls};
ghost use Rattle.turn_lock.specs.Calls.{IsLegal, Called, Watches, IsCause, EndsTurn};
ghost use Rattle.turn_lock.specs.Calls.{parent_after_split, child_after_split, Meets, Joins};
ghost use Rattle.turn_lock.specs.Calls.{FindsOf};

use crate::board::{Board, Place};
use crate::call_fault::CallFault;
use crate::steps::{divide, draw, end_turn, take_in, write_note};
use crate::turned::{Inspected, Turned};
use std::alloc::{AllocError, Global};
use std::marker::Model;
use std::snapshot::Snapshot;
use std::sync::{Arc, Wait};

/// A thread's handle to the value of a lock.
///
/// Contracts see its lock, the lock's bound on turns, and the port's knowledge.
#[derive(Drop)]
pub struct Port<T: Turned> {
    pub(crate) table: Arc<Board<T>, Global>,
    pub(crate) place: Place<T>,
    pub(crate) bound: u64,
}

impl<T: Turned> Model for Port<T> {
    ghost use Rattle.std.specs.Arc.{arc_value};
    ghost use Rattle.turn_lock.specs.Seats.{IsPortSeat, known_of};
    ghost use Rattle.turn_lock.specs.Shown.{ShownPort};

    ghost Value = { ShownPort T.Event T.Reply T.Origin };

    ghost view = { λ p. record {
      lock = p.place.table_id;
      bound = p.bound;
      known = known_of p.place;
    } };

    ghost invariant = { λ p. IsPortSeat T.legal (arc_value p.table).shared.table_id p.place
        p.bound };
}

/// A record of the history that a port had seen, for another port of the same lock to read.
#[derive(Drop)]
pub struct Note<T: Turned> {
    pub(crate) place: Place<T>,
}

impl<T: Turned> Model for Note<T> {
    ghost use Rattle.turn_lock.specs.Seats.{IsNoteSeat, known_of};
    ghost use Rattle.turn_lock.specs.Shown.{ShownNote};

    ghost Value = { ShownNote T.Event T.Reply T.Origin };

    ghost view = { λ n. record {
      lock = n.place.table_id;
      origin = (known_of n.place).origin;
      seen = (known_of n.place).seen;
    } };

    ghost invariant = { λ n. IsNoteSeat T.legal n.place };
}

impl<T: Turned> Port<T> {
    /// Proves that the port has the lock's origin and has seen a history that is legal from it.
    /// Does nothing at run time.
    pub fn history_is_legal(&self)
        ensures { IsLegal T.legal self.now.known }
    {
        let _bound = self.bound;
    }

    /// Waits for a turn and applies the event to the value.
    ///
    /// After `Ok` the port has seen a legal history that begins with all that it had seen and ends
    /// with this call. Errors: `Memory` if the value's turn ran out of memory, which uses up the
    /// turn; `Exhausted` if the port has read that all turns of the lock's bound were drawn. After
    /// an error the value is unchanged.
    pub fn call<W: Wait>(
        &mut self,
        rt: &W,
        alloc: Global,
        event: T::Event,
    ) -> Result<T::Reply, CallFault>
        ensures lock { (self.new.lock ≡ self.old.lock) × (self.new.bound ≡ self.old.bound) }
        ensures ok { IfOk result (λ r. Called T.legal self.old.known event r self.new.known) }
        ensures err { IfErr result (λ f. Watches T.legal self.old.known self.new.known
            × IsCause T.sure event self.old.bound self.new.known f) }
        ensures within { OnOk result (length self.new.known.seen ≤ self.old.bound) }
        ensures turn { EndsTurn self.old.known self.new.known result }
    {
        let top = &self.table.shared;
        let place = &mut self.place;
        let Some((turn, mut value)) = draw(top, place, rt, self.bound) else {
            return Err(CallFault::Exhausted);
        };
        let asked = Snapshot::of(&event);
        match value.inner.turn(alloc, event) {
            Ok(reply) => {
                let last = Some((asked, Snapshot::of(&reply)));
                end_turn(top, place, turn, value, last);
                Ok(reply)
            }
            Err(_) => {
                end_turn(top, place, turn, value, None);
                Err(CallFault::Memory)
            }
        }
    }

    /// Makes a second port, which has seen the same history and has made no call. It can be sent to
    /// another thread.
    ///
    /// Returns `AllocError`, with nothing changed, if the lock cannot have another owner.
    pub fn split(&mut self) -> Result<Port<T>, AllocError>
        ensures lock { (self.new.lock ≡ self.old.lock) × (self.new.bound ≡ self.old.bound) }
        ensures parent { OnOk result (self.new.known ≡ parent_after_split self.old.known) }
        ensures child { IfOk result (λ p. (p.lock ≡ self.old.lock) × (p.bound ≡ self.old.bound)
            × (p.known ≡ child_after_split self.old.known) × HasNoCalls p.known) }
        ensures err { OnErr result (self.new.known ≡ self.old.known) }
    {
        match Arc::try_clone(&self.table) {
            Ok(table) => {
                let place = divide(&table.shared, &mut self.place);
                Ok(Port {
                    table,
                    place,
                    bound: self.bound,
                })
            }
            Err(fault) => Err(fault),
        }
    }

    /// Writes a note of all that this port has seen.
    pub fn tell(&mut self) -> Note<T>
        ensures unchanged { self.new ≡ self.old }
        ensures note { (result.lock ≡ self.old.lock) × (result.origin ≡ self.old.known.origin)
            × (result.seen ≡ self.old.known.seen) }
    {
        let table = &self.table;
        let place = write_note(&table.shared, &mut self.place);
        Note { place }
    }

    /// Reads a note of the same lock: the port has now seen all that the note records.
    pub fn meet(&mut self, note: Note<T>)
        requires { note.lock ≡ self.old.lock }
        ensures lock { (self.new.lock ≡ self.old.lock) × (self.new.bound ≡ self.old.bound) }
        ensures meets { Meets T.legal self.old.known note.origin note.seen self.new.known }
    {
        let table = &self.table;
        let Note { place } = note;
        take_in(&table.shared, &mut self.place, place);
    }

    /// Takes in another port of the same lock, with its number and those joined into it. The port
    /// has now seen all that the other had seen.
    pub fn join(&mut self, port: Port<T>)
        requires { port.lock ≡ self.old.lock }
        ensures lock { (self.new.lock ≡ self.old.lock) × (self.new.bound ≡ self.old.bound) }
        ensures joins { Joins T.legal self.old.known port.known self.new.known }
    {
        let table = &self.table;
        let Port {
            table: _,
            place: other,
            bound: _,
        } = port;
        take_in(&table.shared, &mut self.place, other);
    }
}

impl<T: Inspected> Port<T> {
    /// Waits for a turn and asks the value a question, which no history records.
    ///
    /// The finding is right for the history that the port has then seen; the port has made no
    /// further call. Returns `None` if the port has read that all turns of the lock's bound were
    /// drawn.
    pub fn inspect<W: Wait>(
        &mut self,
        rt: &W,
        alloc: Global,
        question: T::Question,
    ) -> Option<T::Finding>
        ensures lock { (self.new.lock ≡ self.old.lock) × (self.new.bound ≡ self.old.bound) }
        ensures watches { Watches T.legal self.old.known self.new.known }
        ensures finds { IfSome result (FindsOf T.finds self.new.known question) }
        ensures within { OnSome result (length self.new.known.seen ≤ self.old.bound) }
        ensures exhausted { IfNone result (self.old.bound ≤ self.new.known.drawn) }
    {
        let top = &self.table.shared;
        let place = &mut self.place;
        let (turn, mut value) = draw(top, place, rt, self.bound)?;
        let finding = value.inner.inspect(alloc, question);
        end_turn(top, place, turn, value, None);
        Some(finding)
    }

    /// Waits for a turn, applies the event to the value, and asks it a question in the same turn.
    ///
    /// After `Ok` the port has seen what it has seen after [`call`](Port::call), and the finding is
    /// right for that history. The errors are those of `call`; the question is then not asked.
    pub fn call_and_inspect<W: Wait>(
        &mut self,
        rt: &W,
        alloc: Global,
        event: T::Event,
        question: T::Question,
    ) -> Result<(T::Reply, T::Finding), CallFault>
        ensures lock { (self.new.lock ≡ self.old.lock) × (self.new.bound ≡ self.old.bound) }
        ensures ok { IfOk result (λ r. Called T.legal self.old.known event r.0 self.new.known) }
        ensures finds { IfOk result (λ r. FindsOf T.finds self.new.known question r.1) }
        ensures err { IfErr result (λ f. Watches T.legal self.old.known self.new.known
            × IsCause T.sure event self.old.bound self.new.known f) }
        ensures within { OnOk result (length self.new.known.seen ≤ self.old.bound) }
        ensures turn { EndsTurn self.old.known self.new.known result }
    {
        let top = &self.table.shared;
        let place = &mut self.place;
        let drawn = draw(top, place, rt, self.bound).ok_or(CallFault::Exhausted);
        let (turn, mut value) = drawn?;
        let asked = Snapshot::of(&event);
        let Ok(reply) = value.inner.turn(alloc, event) else {
            end_turn(top, place, turn, value, None);
            return Err(CallFault::Memory);
        };
        let found = value.inner.inspect(alloc, question);
        let replied = Snapshot::of(&reply);
        end_turn(top, place, turn, value, Some((asked, replied)));
        Ok((reply, found))
    }
}
