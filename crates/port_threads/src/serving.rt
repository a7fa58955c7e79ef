//! The loop that accepts connections.
ghost use Rattle.std.specs.Prelude.{◌≡◌, ◌+◌, IsTrue, IfOk, IfSome, IfNone, OnOk, OnErr};
ghost use Rattle.port_threads.specs.Listening.{RisesBy, IsCounted};
ghost use Rattle.port_threads.specs.Ports.{PortContinues, AreJoined, AreServed};
ghost use Rattle.port_threads.specs.Sessions.{port_of, terms_of, AreHeld, KeepsPorts, Takes, IsComplete, IsServed};
ghost use Rattle.port_threads.specs.Sessions.{FailsSetup, HaveReasons, IsCrowd, IsEmpty, Opens};
ghost use Rattle.slab.specs.Slab.{slab_len};
ghost use Rattle.turn_lock.specs.Calls.{IsLegal};
ghost use Rattle.turn_lock.specs.Shown.{IsSame};

use crate::accepted::{Accepted, Admission};
use crate::connections::ConnectionSource;
use crate::sessions::Sessions;
use std::alloc::{AllocError, Global};
use std::sync::Wait;
use std::thread::Threads;
use turn_lock::{Port, Turned};

// Waits for a connection and admits it. Returns `None` if the listener failed.
fn take_next<
    T: Turned + Send + 'static,
    L: ConnectionSource<Port<T>>,
    R: Threads + Wait + Copy + Send + 'static,
>(
    rt: &R,
    alloc: Global,
    listener: &mut L,
    sessions: &mut Sessions<T, L::Connection>,
    port: &mut Port<T>,
) -> Option<Admission>
where
    T::Event: Send + 'static,
    T::Reply: Send + 'static,
    T::Origin: 'static,
    requires held { AreHeld port_of port.old sessions.old.handles }
    requires hands_back { (t : _) (p : _) (q : _) → L.Connection.hands_back t p q → IsSame p q }
    requires fits { (p : _) → p.lock ≡ port.old.lock → L.Connection.fits p }
    ensures keeps_ports { KeepsPorts port_of (terms_of L.Connection.terms) L.Connection.hands_back
        (L.terms listener.old) port.old sessions.old.handles port.new sessions.new.handles }
    ensures splits { IfSome result
        (λ outcome. Takes outcome port.old.known.splits port.new.known.splits) }
    ensures failed { IfNone result (L.has_failed listener.new) }
    ensures borrowed { L.borrowed listener.new ≡ L.borrowed listener.old }
    ensures terms { L.terms listener.new ≡ L.terms listener.old }
    ensures accepted { IfSome result
        (λ _. RisesBy (L.accepted listener.old) 1 (L.accepted listener.new)) }
    ensures accepted_none { IfNone result (RisesBy (L.accepted listener.old) 0
        (L.accepted listener.new)) }
    ensures count { IfSome result
        (λ outcome. Opens outcome (slab_len sessions.old.handles) (slab_len sessions.new.handles)) }
    ensures crowded { IfSome result (λ outcome. IsCrowd outcome sessions.old.handles) }
    ensures setup_failures { IfSome result (λ outcome. FailsSetup outcome
        (L.setup_failures listener.old) (L.setup_failures listener.new)) }
    ensures setup_failures_none { IfNone result (RisesBy (L.setup_failures listener.old) 0
        (L.setup_failures listener.new)) }
    ensures none { IfNone result (port.new.known.splits ≡ port.old.known.splits) }
{
    let next = listener.accept(alloc);
    sessions.reap(rt, port);
    match next {
        Ok(incoming) => Some(sessions.take_in(rt, alloc, incoming, port)),
        Err(_) => None,
    }
}

// Admits connections until the limit is reached or the listener fails.
fn accept_all<
    T: Turned + Send + 'static,
    L: ConnectionSource<Port<T>>,
    R: Threads + Wait + Copy + Send + 'static,
>(
    rt: &R,
    alloc: Global,
    listener: &mut L,
    sessions: &mut Sessions<T, L::Connection>,
    port: &mut Port<T>,
    limit: u64,
) -> Accepted
where
    T::Event: Send + 'static,
    T::Reply: Send + 'static,
    T::Origin: 'static,
    requires held { AreHeld port_of port.old sessions.old.handles }
    requires hands_back { (t : _) (p : _) (q : _) → L.Connection.hands_back t p q → IsSame p q }
    requires fits { (p : _) → p.lock ≡ port.old.lock → L.Connection.fits p }
    requires empty { IsEmpty sessions.old.handles }
    ensures keeps_ports { KeepsPorts port_of (terms_of L.Connection.terms) L.Connection.hands_back
        (L.terms listener.old) port.old sessions.old.handles port.new sessions.new.handles }
    ensures complete { IsComplete limit result }
    ensures served { IsServed port.old.known.splits port.new.known.splits result }
    ensures failed { IsTrue result.has_failed → L.has_failed listener.new }
    ensures borrowed { L.borrowed listener.new ≡ L.borrowed listener.old }
    ensures terms { L.terms listener.new ≡ L.terms listener.old }
    ensures counted { IsCounted (L.accepted listener.old) (result.served + result.turned_away)
        (L.accepted listener.new) }
    ensures reasons { HaveReasons (L.setup_failures listener.old) result
        (L.setup_failures listener.new) }
{
    let mut accepted = Accepted::new();
    'connections: for _ in rt.forever() {
        if accepted.has_reached(limit) {
            return accepted;
        }
        let Some(outcome) = take_next(rt, alloc, listener, sessions, port) else {
            accepted.has_failed = true;
            return accepted;
        };
        accepted.count(outcome);
    }
    unreachable!()
}

/// Accepts connections, and serves each in a thread of its own through a port split off from this
/// one.
///
/// Returns after `limit` connections (0 means no limit), or after the listener failed, once every
/// session has ended. A connection is closed without a byte sent and counted as turned away if
/// eight sessions are open, if no memory, port or thread is available for it, or if its stream
/// could not be set up. If fewer than eight connections were served and none was out of memory, a
/// port or a thread, those turned away are the ones whose stream could not be set up, as the
/// listener counts them. Returns `AllocError` if the memory for eight sessions could not be
/// allocated; then no connection was accepted.
pub fn serve_connections<
    T: Turned + Send + 'static,
    L: ConnectionSource<Port<T>>,
    R: Threads + Wait + Copy + Send + 'static,
>(
    rt: &R,
    alloc: Global,
    listener: &mut L,
    port: &mut Port<T>,
    limit: u64,
) -> Result<Accepted, AllocError>
where
    T::Event: Send + 'static,
    T::Reply: Send + 'static,
    T::Origin: 'static,
    requires hands_back { (t : _) (p : _) (q : _) → L.Connection.hands_back t p q → IsSame p q }
    requires fits { (p : _) → p.lock ≡ port.old.lock → L.Connection.fits p }
    ensures port_continues { PortContinues port.old port.new }
    ensures lawful { OnOk result (IsLegal T.legal port.new.known) }
    ensures joined { AreJoined port.old.known.splits port.new }
    ensures sessions { AreServed (L.Connection.hands_back (L.terms listener.old))
        port.old.known.splits port.new }
    ensures complete { IfOk result (IsComplete limit) }
    ensures served { IfOk result (IsServed port.old.known.splits port.new.known.splits) }
    ensures failed { IfOk result (λ accepted. IsTrue accepted.has_failed
        → L.has_failed listener.new) }
    ensures borrowed { L.borrowed listener.new ≡ L.borrowed listener.old }
    ensures counted { IfOk result
        (λ accepted. IsCounted (L.accepted listener.old) (accepted.served + accepted.turned_away)
        (L.accepted listener.new)) }
    ensures reasons { IfOk result (λ accepted. HaveReasons (L.setup_failures listener.old) accepted
        (L.setup_failures listener.new)) }
    ensures err { OnErr result (port.new ≡ port.old) }
{
    let mut sessions = Sessions::new(alloc)?;
    let accepted = accept_all(rt, alloc, listener, &mut sessions, port, limit);
    sessions.close_all(rt, port);
    // (no effect: the contract needs this law)
    port.history_is_legal();
    Ok(accepted)
}
