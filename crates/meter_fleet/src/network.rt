//! `Network`: where clients come from, which connections are ready, and what the operator asks for.
ghost use Rattle.std.specs.Prelude.{List, ◌∷◌, [], Option};
ghost use Rattle.fleet_meters.specs.Calls.{GivesEvents};
ghost use Rattle.meter_fleet.specs.Networks.{NetworkEvent, PollsTo, AcceptsBy, Tells, operated};

use fleet_links::Stream;
use fleet_meters::Fleet;
use std::alloc::Global;
use thiserror::Error;

/// Why a network cannot wait for further events.
#[derive(Clone, Copy, Debug, PartialEq, Eq, Error)]
pub enum NetworkFault {
    /// The network failed.
    #[error("the network failed")]
    Failed,
    /// Out of memory.
    #[error("out of memory")]
    Memory,
}

/// The result of accepting a connection.
#[derive(Drop)]
pub enum NextClient<S> {
    /// A connection, and the IPv4 address of this machine that the client named.
    Client(S, [u8; 4]),
    /// A connection that was closed at once: it failed, or its address is not one of IPv4.
    Closed,
    /// No connection is waiting.
    None,
}

/// A network that reports which connections are ready, and the operator of the fleet. It reports
/// each change once: a connection is ready again after it has blocked.
pub trait Network {
    /// The stream of a connection.
    type Stream: Stream + Drop;

    // Ghost value: what the network has reported so far, if that is known.
    ghost log: { Self → Option (List NetworkEvent) };

    /// Waits until a connection is ready, clients are waiting or a connection was idle for too
    /// long; returns at once if `may_wait` is false, and may return without a reason. Appends the
    /// keys of connections that are ready to `ready` and those of connections that were idle for
    /// too long to `idle`, and returns whether clients may be waiting.
    fn wait(
        &mut self,
        may_wait: bool,
        ready: &mut Vec<usize>,
        idle: &mut Vec<usize>,
    ) -> Result<bool, NetworkFault>
        ensures { PollsTo (log self.old) may_wait ready.old.items idle.old.items result
            ready.new.items idle.new.items (log self.new) };

    /// Gives the events to meters that the operator of the fleet asks for, and answers the
    /// operator's questions about the meters. Returns at once if nothing is asked for.
    fn operate(&mut self, alloc: Global, fleet: &mut Fleet<Self::Stream>)
        ensures gives { GivesEvents fleet.old fleet.new }
        ensures log { Tells (log self.old) (operated ∷ []) (log self.new) };

    /// Accepts a connection, whose events are then reported under this key.
    fn accept(&mut self, key: usize) -> NextClient<Self::Stream>
        ensures { AcceptsBy Self.Stream.state (log self.old) key result (log self.new) };
}
