//! `ActivityTimes`: when each connection was last active.
ghost use Rattle.std.specs.Prelude.{◌≡◌, ◌++◌, [], OnOk, OnErr, length, map};
ghost use Rattle.fleet_sockets.specs.Activity.{TakesFirst, is_idle, idle_keys, moment_after_search};
ghost use Rattle.fleet_sockets.specs.Activity.{times_after_touch};

use std::alloc::{AllocError, Global};
use std::marker::Model;

/// The moment at which the connection with each key was last active. Moments are numbers of a clock
/// that never goes back. All connections have the same limit.
#[derive(Drop)]
pub struct ActivityTimes {
    moments: Vec<u64>,
}

impl Model for ActivityTimes {
    ghost use Rattle.std.specs.Coded.{codes};
    ghost use Rattle.std.specs.Prelude.{List, ℕ};

    ghost Value = { List ℕ };

    ghost coded = { Prim.hlevel (codes) };

    ghost view = { λ times. times.moments.items };
}

// Returns whether a connection is idle `now` that was last active at this moment.
fn is_idle(limit: u64, now: u64, moment: u64) -> bool
    ensures { result ≡ is_idle limit now moment }
{
    now.saturating_sub(moment) >= limit
}

// Appends the keys of the connections that are idle.
#[tactic(auto, using(crate::proofs::Idle::idle_on, crate::proofs::Idle::idle_not, crate::proofs::Idle::takes_first))]
fn append_idle(
    moments: &[u64],
    limit: u64,
    now: u64,
    idle: &mut Vec<usize>,
) -> Result<(), AllocError>
    ensures ok { OnOk result (idle.new.items
        ≡ idle.old.items ++ idle_keys limit now moments.now) }
    ensures err { OnErr result (TakesFirst limit now moments.now idle.old.items idle.new.items) }
{
    'moments: for (key, moment) in moments.iter().enumerate() {
        if is_idle(limit, now, *moment) {
            match idle.push(key) {
                Ok(()) => {}
                Err(_) => return Err(AllocError),
            }
        }
    }
    Ok(())
}

// Counts the connections that are idle as active now.
#[tactic(auto, using(crate::proofs::Idle::all_renewed))]
fn renew_idle(moments: &mut [u64], limit: u64, now: u64)
    ensures { moments.new ≡ map (moment_after_search limit now) moments.old }
{
    'moments: for moment in moments.iter_mut() {
        if is_idle(limit, now, *moment) {
            *moment = now;
        }
    }
}

impl ActivityTimes {
    /// Returns the times of no connection.
    pub fn new(alloc: Global) -> ActivityTimes
        ensures { result ≡ [] }
    {
        ActivityTimes {
            moments: Vec::new(alloc),
        }
    }

    /// Notes that the connection with this key is active now. If out of memory, nothing changes.
    pub fn touch(&mut self, key: usize, now: u64) -> Result<(), AllocError>
        ensures ok { OnOk result (self.new ≡ times_after_touch key now self.old) }
        ensures err { OnErr result (self.new ≡ self.old) }
    {
        if let Some(last) = self.moments.get_mut(key) {
            *last = now;
            return Ok(());
        }
        match key.checked_add(1) {
            Some(count) => self.moments.resize(count, now),
            None => Err(AllocError),
        }
    }

    /// Appends the keys of the connections that were not active for at least `limit`, each once and
    /// in ascending order, and counts these connections as active now. If out of memory, all times
    /// are unchanged, and only the first of the keys are appended.
    pub fn take_idle(
        &mut self,
        limit: u64,
        now: u64,
        idle: &mut Vec<usize>,
    ) -> Result<(), AllocError>
        ensures keys { OnOk result (idle.new.items
            ≡ idle.old.items ++ idle_keys limit now self.old) }
        ensures times { OnOk result (self.new ≡ map (moment_after_search limit now) self.old) }
        ensures err { OnErr result (self.new ≡ self.old) }
        ensures first { OnErr result (TakesFirst limit now self.old idle.old.items idle.new.items) }
    {
        append_idle(self.moments.as_slice(), limit, now, idle)?;
        renew_idle(self.moments.as_mut_slice(), limit, now);
        Ok(())
    }
}
