//! The open sessions, each with a place, a thread and a port.
ghost use Rattle.std.specs.Prelude.{◌≡◌, ◌≢◌, ℕ, ◌<◌, ◌≤◌, List, None, IfOk};
ghost use Rattle.slab.specs.Slab.{get, slab_len};
ghost use Rattle.port_threads.specs.Sessions.{port_of, terms_of, AreHeld, IsEmpty, KeepsPorts};
ghost use Rattle.port_threads.specs.Sessions.{Takes, Opens, IsCrowd, IsClosedFor};
ghost use Rattle.port_threads.specs.Listening.{IfReady};
ghost use Rattle.turn_lock.specs.Calls.{Joins};
ghost use Rattle.turn_lock.specs.Shown.{IsSame};

use crate::accepted::Admission;
use crate::connections::{Arrival, PortConnection};
use crate::flags::{Flags, SESSIONS};
use crate::session::{SessionThread, start};
use slab::Slab;
use std::alloc::{AllocError, Global};
use std::sync::{Arc, Wait};
use std::thread::Threads;
use turn_lock::{Port, Turned};

// The open sessions, at most eight, and the flags of their places.
#[derive(Drop)]
pub(crate) struct Sessions<T: Turned, C: PortConnection<Port<T>>> {
    pub(crate) handles: Slab<SessionThread<T, C>>,
    flags: Arc<Flags, Global>,
}

// Joins a port in again for which no thread could be started.
fn take_back<T: Turned>(port: &mut Port<T>, unused: Port<T>) -> Admission
    requires { unused.lock ≡ port.old.lock }
    ensures lock { (port.new.lock ≡ port.old.lock) × (port.new.bound ≡ port.old.bound) }
    ensures joins { Joins T.legal port.old.known unused.known port.new.known }
    ensures outcome { result ≡ Admission.Starved }
{
    port.join(unused);
    Admission::Starved
}

impl<T: Turned, C: PortConnection<Port<T>>> Sessions<T, C> {
    // Returns an empty set of sessions. Allocates all memory for eight sessions.
    pub(crate) fn new(alloc: Global) -> Result<Sessions<T, C>, AllocError>
        ensures { IfOk result (λ sessions. IsEmpty sessions.handles) }
    {
        let mut handles = Slab::new(alloc);
        handles.reserve(SESSIONS)?;
        let flags = Arc::new(alloc, Flags::new())?;
        Ok(Sessions { handles, flags })
    }

    // Waits for the end of the session at this place, if one is open there, and joins its port in.
    fn close<R: Threads>(&mut self, rt: &R, key: usize, port: &mut Port<T>)
        requires held { AreHeld port_of port.old self.old.handles }
        requires hands_back { (t : _) (p : _) (q : _) → C.hands_back t p q → IsSame p q }
        ensures keeps_ports { (t : List ℕ)
            → KeepsPorts port_of (terms_of C.terms) C.hands_back t port.old self.old.handles
            port.new
            self.new.handles }
        ensures splits { port.new.known.splits ≡ port.old.known.splits }
        ensures count { slab_len self.new.handles ≤ slab_len self.old.handles }
        ensures closed { get self.new.handles key ≡ None }
        ensures others { (other : ℕ) → get self.old.handles other ≡ None
            → get self.new.handles other ≡ None }
    {
        if let Some(session) = self.handles.try_remove(key) {
            let own = session.join(rt);
            port.join(own);
        }
    }

    // Closes the session at this place if its thread has ended.
    fn reap_one<R: Threads>(&mut self, rt: &R, key: usize, port: &mut Port<T>)
        requires place { key < SESSIONS }
        requires held { AreHeld port_of port.old self.old.handles }
        requires hands_back { (t : _) (p : _) (q : _) → C.hands_back t p q → IsSame p q }
        ensures keeps_ports { (t : List ℕ)
            → KeepsPorts port_of (terms_of C.terms) C.hands_back t port.old self.old.handles
            port.new
            self.new.handles }
        ensures splits { port.new.known.splits ≡ port.old.known.splits }
        ensures count { slab_len self.new.handles ≤ slab_len self.old.handles }
    {
        if self.flags.has_ended(key) {
            self.close(rt, key, port);
        }
    }

    // Closes each session whose thread has ended.
    pub(crate) fn reap<R: Threads>(&mut self, rt: &R, port: &mut Port<T>)
        requires held { AreHeld port_of port.old self.old.handles }
        requires hands_back { (t : _) (p : _) (q : _) → C.hands_back t p q → IsSame p q }
        ensures keeps_ports { (t : List ℕ)
            → KeepsPorts port_of (terms_of C.terms) C.hands_back t port.old self.old.handles
            port.new
            self.new.handles }
        ensures splits { port.new.known.splits ≡ port.old.known.splits }
        ensures count { slab_len self.new.handles ≤ slab_len self.old.handles }
    {
        'places: for key in 0..SESSIONS {
            self.reap_one(rt, key, port);
        }
    }

    // Waits for the end of every session.
    pub(crate) fn close_all<R: Threads>(&mut self, rt: &R, port: &mut Port<T>)
        requires held { AreHeld port_of port.old self.old.handles }
        requires hands_back { (t : _) (p : _) (q : _) → C.hands_back t p q → IsSame p q }
        ensures keeps_ports { (t : List ℕ)
            → KeepsPorts port_of (terms_of C.terms) C.hands_back t port.old self.old.handles
            port.new
            self.new.handles }
        ensures splits { port.new.known.splits ≡ port.old.known.splits }
        ensures count { slab_len self.new.handles ≤ slab_len self.old.handles }
        ensures closed { (key : ℕ) → key < SESSIONS → get self.new.handles key ≡ None }
    {
        'last: for key in 0..SESSIONS {
            self.close(rt, key, port);
        }
    }

    // Starts a thread for the connection with a port split off from this one, or closes the
    // connection.
    pub(crate) fn admit<R: Threads + Wait + Copy + Send + 'static>(
        &mut self,
        rt: &R,
        alloc: Global,
        connection: C,
        port: &mut Port<T>,
    ) -> Admission
    where
        T: Send + 'static,
        C: 'static,
        T::Event: Send + 'static,
        T::Reply: Send + 'static,
        T::Origin: 'static,
        requires held { AreHeld port_of port.old self.old.handles }
        requires hands_back { (t : _) (p : _) (q : _) → C.hands_back t p q → IsSame p q }
        requires fits { (p : _) → p.lock ≡ port.old.lock → C.fits p }
        ensures keeps_ports { KeepsPorts port_of (terms_of C.terms) C.hands_back
            (C.terms connection) port.old
            self.old.handles port.new self.new.handles }
        ensures splits { Takes result port.old.known.splits port.new.known.splits }
        ensures count { Opens result (slab_len self.old.handles) (slab_len self.new.handles) }
        ensures crowded { IsCrowd result self.old.handles }
        ensures admitted { result ≢ Admission.SetupFailed }
    {
        if self.handles.len() >= SESSIONS {
            return Admission::Crowded;
        }
        let key = self.handles.vacant_key();
        if key >= SESSIONS {
            return Admission::Starved;
        }
        let Ok(own) = port.split() else {
            return Admission::Starved;
        };
        match start(rt, alloc, &self.flags, key, connection, own) {
            Ok(session) => {
                self.handles.insert_reserved(session);
                Admission::Served
            }
            Err(own) => take_back(port, own),
        }
    }

    // Starts a thread for an accepted connection with a port split off from this one, or closes
    // the connection. If the listener closed it, the result is the listener's reason.
    pub(crate) fn take_in<R: Threads + Wait + Copy + Send + 'static>(
        &mut self,
        rt: &R,
        alloc: Global,
        incoming: Arrival<C>,
        port: &mut Port<T>,
    ) -> Admission
    where
        T: Send + 'static,
        C: 'static,
        T::Event: Send + 'static,
        T::Reply: Send + 'static,
        T::Origin: 'static,
        requires held { AreHeld port_of port.old self.old.handles }
        requires hands_back { (t : _) (p : _) (q : _) → C.hands_back t p q → IsSame p q }
        requires fits { (p : _) → p.lock ≡ port.old.lock → C.fits p }
        ensures keeps_ports { (t : List ℕ) → IfReady (λ c. C.terms c ≡ t) incoming
            → KeepsPorts port_of (terms_of C.terms) C.hands_back t port.old self.old.handles
            port.new self.new.handles }
        ensures splits { Takes result port.old.known.splits port.new.known.splits }
        ensures count { Opens result (slab_len self.old.handles) (slab_len self.new.handles) }
        ensures crowded { IsCrowd result self.old.handles }
        ensures closed { IsClosedFor incoming result }
    {
        match incoming {
            Arrival::Ready(connection) => self.admit(rt, alloc, connection, port),
            Arrival::OutOfMemory => Admission::Starved,
            Arrival::SetupFailed => Admission::SetupFailed,
        }
    }
}
