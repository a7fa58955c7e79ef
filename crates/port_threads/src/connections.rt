//! Connections and their listeners.
ghost use Rattle.std.specs.Prelude.{◌≡◌, ⊤, ℕ, List, [], Option, None, IfOk, OnOk, OnErr};
ghost use Rattle.std.specs.Borrow.{GName};
ghost use Rattle.port_threads.specs.Listening.{IfReady, RisesBy, setup_failures_of};

use std::alloc::Global;
use std::sync::Wait;
use thiserror::Error;

/// A connection of a peer, served by a thread of its own through a port of type `P`.
///
/// Dropping it closes it without a byte sent. The ghost value `terms` holds the terms on which it
/// is served, as bytes (for example a password). The relation `hands_back` states what a session on
/// these terms does with the port: for [`serve_connections`](crate::serve_connections) it must
/// imply `IsSame` of turn_lock. The predicate `fits` states through which ports it can be served.
pub trait PortConnection<P>: Drop + Send {
    /// Ghost value: the terms on which the peer is served, as bytes.
    ghost terms: { Self → List ℕ } = { λ _. [] };

    /// Ghost predicate: the connection can be served through this port. The default is every port.
    ghost fits: { P → Type 0 } = { λ _. ⊤ };

    /// Ghost relation: what a session on these terms does with its port.
    ghost hands_back: { List ℕ → P → P → Type 0 };

    /// Serves the peer to the end, closes the connection, and returns the port.
    fn serve<W: Wait>(self, rt: &W, alloc: Global, port: P) -> P
    where
        Self: Sized,
        requires { fits port }
        ensures { hands_back (terms self) port result };
}

/// The result of an accepted connection: one to serve, or the reason why the listener closed it
/// without a byte sent.
#[derive(Drop)]
pub enum Arrival<C> {
    /// A connection to serve.
    Ready(C),
    /// Closed: out of memory.
    OutOfMemory,
    /// Closed: the stream could not be set up.
    SetupFailed,
}

/// The listener failed and accepts no further connection.
#[derive(Clone, Copy, Debug, PartialEq, Eq, Error)]
#[error("the listener failed")]
pub struct ListenFault;

/// A source of connections.
pub trait ConnectionSource<P> {
    /// A connection that the source accepts.
    type Connection: PortConnection<P> + 'static;

    /// Ghost predicate: the listener has failed. The default claims nothing.
    ghost has_failed: { Self → Type 0 } = { λ _. ⊤ };

    /// Ghost value: the terms on which its connections are served. They never change.
    ghost terms: { Self → List ℕ } = { λ _. [] };

    /// Ghost value: the number of connections accepted so far, if the listener counts them. The
    /// default claims nothing.
    ghost accepted: { Self → Option ℕ } = { λ _. None };

    /// Ghost value: the number of connections accepted so far whose stream could not be set up, if
    /// the listener counts them. The default claims nothing.
    ghost setup_failures: { Self → Option ℕ } = { λ _. None };

    /// Ghost value: the mutable borrow that it holds, if any. It never changes.
    ghost borrowed: { Self → Option GName } = { λ _. None };

    /// Waits for the next connection, and returns it or the reason why it was closed. After an
    /// error no further connection is accepted.
    fn accept(&mut self, alloc: Global) -> Result<Arrival<Self::Connection>, ListenFault>
        ensures failed { OnErr result (has_failed self.new) }
        ensures terms { terms self.new ≡ terms self.old }
        ensures served { IfOk result (IfReady (λ c. Self.Connection.terms c ≡ terms self.old)) }
        ensures accepted { OnOk result (RisesBy (accepted self.old) 1 (accepted self.new)) }
        ensures accepted_err { OnErr result (RisesBy (accepted self.old) 0 (accepted self.new)) }
        ensures setup_failures { IfOk result (λ arrival. RisesBy (setup_failures self.old)
            (setup_failures_of arrival) (setup_failures self.new)) }
        ensures setup_failures_err { OnErr result
            (RisesBy (setup_failures self.old) 0 (setup_failures self.new)) }
        ensures borrowed { borrowed self.new ≡ borrowed self.old };
}
