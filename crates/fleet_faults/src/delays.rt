//! `Delays`: when the events of each connection are reported.
ghost use Rattle.std.specs.Prelude.{◌≡◌, ◌<◌, ◌++◌, [], OnOk, OnErr, length, map, slice_get, true};
ghost use Rattle.fleet_faults.specs.Delays.{TakesFirst, delay_after_search, delays_after_event};
ghost use Rattle.fleet_faults.specs.Delays.{delays_after_set, delays_up_to, due_keys, is_due, is_late};
ghost use Rattle.fleet_faults.specs.Delays.{reported_keys};

use std::alloc::{AllocError, Global};
use std::marker::Model;

/// When the events of a connection are reported. Moments are numbers of a clock that never goes
/// back.
#[derive(Clone, Copy, Debug, PartialEq, Eq)]
pub enum Delay {
    /// At once.
    Prompt,
    /// Late. No event is held back.
    Late,
    /// Late. An event is held back until this moment.
    Held(u64),
}

/// The delay of the connection with each key.
#[derive(Drop)]
pub struct Delays {
    delays: Vec<Delay>,
}

impl Model for Delays {
    ghost use Rattle.std.specs.Coded.{codes};
    ghost use Rattle.std.specs.Prelude.{List};
    ghost use Rattle.fleet_faults.specs.contracts.delays.Delay as delay_row;
    ghost use Rattle.fleet_faults.specs.declared.delays.Delay.{Delay};

    ghost Value = { List Delay };

    ghost coded = { Prim.hlevel (codes, delay_row.the_row.coded) };

    ghost view = { λ delays. delays.delays.items };
}

// Returns whether an event is held back that must be reported now.
fn is_due(now: u64, delay: Delay) -> bool
    ensures { result ≡ is_due now delay }
{
    match delay {
        Delay::Held(moment) => moment <= now,
        Delay::Prompt | Delay::Late => false,
    }
}

// Appends the keys of the connections whose events must be reported.
#[tactic(auto, using(crate::proofs::Due::due_on, crate::proofs::Due::due_not, crate::proofs::Due::takes_first))]
fn append_due(delays: &[Delay], now: u64, ready: &mut Vec<usize>) -> Result<(), AllocError>
    ensures ok { OnOk result (ready.new.items ≡ ready.old.items ++ due_keys now delays.now) }
    ensures err { OnErr result (TakesFirst now delays.now ready.old.items ready.new.items) }
{
    'delays: for (key, delay) in delays.iter().enumerate() {
        if is_due(now, *delay) {
            match ready.push(key) {
                Ok(()) => {}
                Err(_) => return Err(AllocError),
            }
        }
    }
    Ok(())
}

// No event that must be reported is held back any more.
#[tactic(auto, using(crate::proofs::Due::all_released))]
fn release_due(delays: &mut [Delay], now: u64)
    ensures { delays.new ≡ map (delay_after_search now) delays.old }
{
    'delays: for delay in delays.iter_mut() {
        if is_due(now, *delay) {
            *delay = Delay::Late;
        }
    }
}

impl Delays {
    /// Returns the delays of no connection.
    pub fn new(alloc: Global) -> Delays
        ensures { result ≡ [] }
    {
        Delays {
            delays: Vec::new(alloc),
        }
    }

    // Makes prompt delays up to that of this key, if it has none.
    fn reach(&mut self, key: usize) -> Result<(), AllocError>
        ensures ok { OnOk result (self.new ≡ delays_up_to key self.old) }
        ensures within { OnOk result (key < length self.new) }
        ensures err { OnErr result (self.new ≡ self.old) }
    {
        if key < self.delays.len() {
            return Ok(());
        }
        match key.checked_add(1) {
            Some(count) => self.delays.resize(count, Delay::Prompt),
            None => Err(AllocError),
        }
    }

    /// Notes that a connection was opened under this key, whose events are reported late or at
    /// once. If out of memory, nothing changes.
    pub fn set(&mut self, key: usize, is_late: bool) -> Result<(), AllocError>
        ensures ok { OnOk result (self.new ≡ delays_after_set key is_late self.old) }
        ensures err { OnErr result (self.new ≡ self.old) }
    {
        self.reach(key)?;
        self.delays[key] = if is_late { Delay::Late } else { Delay::Prompt };
        Ok(())
    }

    // Returns whether the events of the connection with this key are reported late.
    fn is_late(&self, key: usize) -> bool
        ensures value { result ≡ is_late (slice_get self.now key) }
        ensures within { result ≡ true → key < length self.now }
    {
        match self.delays.get(key) {
            Some(Delay::Late | Delay::Held(_)) => true,
            Some(Delay::Prompt) | None => false,
        }
    }

    /// Reports an event of the connection with this key: appends the key to `ready`, or holds the
    /// event back until `moment` if the connection is late. An event that was held back before is
    /// reported with it. If out of memory, nothing changes.
    pub fn report(
        &mut self,
        key: usize,
        moment: u64,
        ready: &mut Vec<usize>,
    ) -> Result<(), AllocError>
        ensures delays { OnOk result (self.new ≡ delays_after_event key moment self.old) }
        ensures ready { OnOk result (ready.new.items
            ≡ ready.old.items ++ reported_keys key self.old) }
        ensures unchanged { OnErr result (self.new ≡ self.old) }
        ensures err { OnErr result (ready.new.items ≡ ready.old.items) }
    {
        if self.is_late(key) {
            self.delays[key] = Delay::Held(moment);
            return Ok(());
        }
        match ready.push(key) {
            Ok(()) => Ok(()),
            Err(_) => Err(AllocError),
        }
    }

    /// Appends the keys of the connections whose events must be reported, each once and in
    /// ascending order. These events are not held back any more. If out of memory, all delays are
    /// unchanged, and only the first of the keys are appended.
    pub fn take_due(&mut self, now: u64, ready: &mut Vec<usize>) -> Result<(), AllocError>
        ensures keys { OnOk result (ready.new.items ≡ ready.old.items ++ due_keys now self.old) }
        ensures delays { OnOk result (self.new ≡ map (delay_after_search now) self.old) }
        ensures err { OnErr result (self.new ≡ self.old) }
        ensures first { OnErr result (TakesFirst now self.old ready.old.items ready.new.items) }
    {
        append_due(self.delays.as_slice(), now, ready)?;
        release_due(self.delays.as_mut_slice(), now);
        Ok(())
    }
}
