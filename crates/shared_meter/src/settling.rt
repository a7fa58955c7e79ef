//! Waits until the journal has reached the disk.
ghost use Rattle.std.specs.Prelude.{◌≡◌, ℕ, ⊤, false, IfSome, IsTrue};
ghost use Rattle.atomic_table.specs.Seated.{TableId};
ghost use Rattle.turn_lock.specs.Calls.{Watches};
ghost use Rattle.turn_lock.specs.Shown.{IsSame};
ghost use Rattle.shared_meter.specs.Calls.{Calls, IsLegal};
ghost use Rattle.shared_meter.specs.Handed.{MeterPort};
ghost use Rattle.shared_meter.specs.Settling.{AreDurable};

use crate::kept::Kept;
use std::alloc::AllocError;
use std::sync::Wait;
use turn_lock::Port;

/// A handle of a journal, by which a thread waits for the disk.
///
/// Lines are counted from the start of the lock's history.
pub trait Durability: Drop {
    /// Ghost predicate: the journal is that of this lock.
    ghost fits: { TableId → Type 0 };

    /// Ghost predicate: the first lines of these calls, of this number, are on the disk.
    ghost is_durable: { Calls → ℕ → Type 0 };

    /// Ghost predicate: the journal has ended. The default claims nothing.
    ghost has_ended: { Type 0 } = { ⊤ };

    /// Ghost predicate: the journal had not failed when this port looked, which had seen these
    /// calls. The default claims nothing.
    ghost was_running: { MeterPort → Type 0 } = { λ _. ⊤ };

    /// Waits until this number of lines is on the disk. Returns false if the journal has ended
    /// before, stopped or failed. After true the port has seen the calls whose lines they are.
    fn wait<W: Wait>(&self, rt: &W, port: &mut Port<Kept>, lines: u64) -> bool
        requires { fits port.old.lock }
        ensures same { IsSame port.old port.new }
        ensures watches { Watches IsLegal port.old.known port.new.known }
        ensures durable { IsTrue result → AreDurable is_durable port.new.known.seen lines }
        ensures ended { result ≡ false → has_ended };

    /// Returns whether the journal has failed, for a port that is about to pass an event on. Once
    /// it has, this does not change.
    fn has_failed(&self, port: &Port<Kept>) -> bool
        ensures ended { IsTrue result → has_ended }
        ensures running { result ≡ false → was_running port.now };

    /// Returns another handle of the same journal, for another thread. Returns `AllocError` if out
    /// of memory; this handle is unchanged.
    fn share(&self) -> Result<Self, AllocError>
    where
        Self: Sized;
}

/// A journal that claims nothing about the disk, never waits and never ends: the type to name for a
/// meter without a journal. Does not allocate.
#[derive(Debug, Drop)]
pub struct NoJournal;

impl Durability for NoJournal {
    ghost fits = { λ _. ⊤ };

    ghost is_durable = { λ _ _. ⊤ };

    ghost has_ended = { ⊥ };

    fn wait<W: Wait>(&self, _rt: &W, port: &mut Port<Kept>, _lines: u64) -> bool {
        // (no effect: the contract needs this law)
        port.history_is_legal();
        true
    }

    fn has_failed(&self, _port: &Port<Kept>) -> bool {
        false
    }

    fn share(&self) -> Result<NoJournal, AllocError> {
        Ok(NoJournal)
    }
}

/// Waits until at least this number of lines of the port's history is on the disk. Returns false if
/// the journal has ended before: it was stopped, or has failed.
///
/// `known` is a number of lines that were seen to be on the disk, or `None`. If it is no less than
/// `lines`, the journal is not looked at.
pub fn settle<D: Durability, W: Wait>(
    rt: &W,
    port: &mut Port<Kept>,
    durability: &D,
    known: Option<u64>,
    lines: u64,
) -> bool
    requires fits { D.fits port.old.lock }
    requires known { IfSome known (AreDurable D.is_durable port.old.known.seen) }
    ensures same { IsSame port.old port.new }
    ensures watches { Watches IsLegal port.old.known port.new.known }
    ensures durable { IsTrue result → AreDurable D.is_durable port.new.known.seen lines }
    ensures ended { result ≡ false → D.has_ended }
{
    if let Some(known) = known
        && lines <= known
    {
        // (no effect: the contract needs this law)
        port.history_is_legal();
        return true;
    }
    durability.wait(rt, port, lines)
}
