//! `Timers`: when connections are late.
ghost use Rattle.std.specs.Prelude.{◌≡◌, ◌≤◌, ◌++◌, [], ◌∷◌, length, IfNone, IfSome, OnErr, OnOk};
ghost use Rattle.campaign_wires.specs.Timing.{IsNotDue, first_moment};

use std::alloc::{AllocError, Global};
use std::collections::VecDeque;
use std::marker::Model;

// When the connection of a place is late, in milliseconds.
#[derive(Clone, Copy, Debug, Drop, PartialEq, Eq)]
pub(crate) struct Timer {
    pub(crate) at: u32,
    pub(crate) moment: u64,
}

// The timers of connections that all have the same limit, so that the first one set is the first
// one due. That of a connection that has ended stays until it is due. Contracts see the list.
#[derive(Drop)]
pub(crate) struct Timers {
    timers: VecDeque<Timer>,
}

impl Model for Timers {
    ghost use Rattle.std.specs.Prelude.{List};
    ghost use Rattle.campaign_wires.specs.declared.timers.Timer.{Timer};

    ghost Value = { List Timer };

    ghost view = { λ timers. timers.timers.items };
}

impl Timers {
    // Returns no timer.
    pub(crate) fn new(alloc: Global) -> Timers
        ensures { result ≡ [] }
    {
        Timers {
            timers: VecDeque::new(alloc),
        }
    }

    // Sets a timer, which is due no earlier than those set before. If out of memory, nothing
    // changes.
    pub(crate) fn set(&mut self, timer: Timer) -> Result<(), AllocError>
        ensures ok { OnOk result (self.new ≡ self.old ++ timer ∷ []) }
        ensures err { OnErr result (self.new ≡ self.old) }
    {
        match self.timers.push_back(timer) {
            Ok(()) => Ok(()),
            Err(_) => Err(AllocError),
        }
    }

    // Returns the moment of the first timer.
    pub(crate) fn first(&self) -> Option<u64>
        ensures { result ≡ first_moment self.now }
    {
        match self.timers.front() {
            Some(timer) => Some(timer.moment),
            None => None,
        }
    }

    // Takes the first timer if it is due now.
    pub(crate) fn take_due(&mut self, now: u64) -> Option<Timer>
        ensures taken { IfSome result
            (λ timer. (timer.moment ≤ now) × (self.old ≡ timer ∷ self.new)) }
        ensures none { IfNone result ((self.new ≡ self.old) × IsNotDue now self.old) }
    {
        match self.timers.front() {
            Some(timer) if timer.moment <= now => self.timers.pop_front(),
            _ => None,
        }
    }

    // Returns the number of timers.
    pub(crate) fn len(&self) -> usize
        ensures { result ≡ length self.now }
    {
        self.timers.len()
    }
}
