//! One session in a thread of its own.
ghost use Rattle.std.specs.Prelude.{◌≡◌, ◌<◌, IfOk, IfErr};
ghost use Rattle.port_threads.specs.Ports.{Returns};

use crate::connections::PortConnection;
use crate::flags::{Flags, SESSIONS};
use std::alloc::Global;
use std::snapshot::Snapshot;
use std::sync::{Arc, Wait};
use std::thread;
use std::thread::{Promise, PromisedHandle, Threads};
use turn_lock::{Port, Turned};

// The promise of a session's thread: it returns the port that it was lent, either unchanged or as
// the connection's session left it.
#[derive(Drop)]
pub(crate) struct Lent<T: Turned, C> {
    pub(crate) connection: Snapshot<C>,
    pub(crate) port: Snapshot<Port<T>>,
}

impl<T: Turned, C: PortConnection<Port<T>>> Promise<Port<T>> for Lent<T, C> {
    ghost use Rattle.port_threads.specs.Ports.{Returns};

    ghost kept_by = { λ lent port.
        Returns (C.hands_back (C.terms lent.connection.value)) lent.port.value port };
}

// The handle of a session's thread.
pub(crate) type SessionThread<T, C> = PromisedHandle<Port<T>, Lent<T, C>>;

// Serves the connection at this place, in the session's thread. If the thread was refused, closes
// the connection without a byte sent.
pub(crate) fn attend<T: Turned, C: PortConnection<Port<T>>, W: Wait + Copy>(
    rt: W,
    alloc: Global,
    flags: Arc<Flags, Global>,
    key: usize,
    connection: C,
    port: Port<T>,
) -> Port<T>
    requires place { key < SESSIONS }
    requires fits { C.fits port }
    ensures { Returns (C.hands_back (C.terms connection)) port result }
{
    if flags.is_refused(key) {
        return port;
    }
    let port = connection.serve(&rt, alloc, port);
    flags.end(key);
    port
}

// Starts a thread that serves the connection at this place. If no thread can be started, closes
// the connection and returns the port.
pub(crate) fn start<
    T: Turned + Send + 'static,
    C: PortConnection<Port<T>> + 'static,
    R: Threads + Wait + Copy + Send + 'static,
>(
    rt: &R,
    alloc: Global,
    flags: &Arc<Flags, Global>,
    key: usize,
    connection: C,
    port: Port<T>,
) -> Result<SessionThread<T, C>, Port<T>>
where
    T::Event: Send + 'static,
    T::Reply: Send + 'static,
    T::Origin: 'static,
    requires place { key < SESSIONS }
    requires fits { C.fits port }
    ensures ok { IfOk result (λ session. session.promise.port.value ≡ port) }
    ensures connection { IfOk result (λ session. session.promise.connection.value ≡ connection) }
    ensures err { IfErr result (λ back. Returns (C.hands_back (C.terms connection)) port back) }
{
    let Ok(theirs) = Arc::try_clone(flags) else {
        return Err(port);
    };
    flags.begin(key);
    let here = *rt;
    let lent = Lent {
        connection: Snapshot::of(&connection),
        port: Snapshot::of(&port),
    };
    let session = thread::spawn_with(
        rt,
        lent,
        move || -> Port<T>
            requires { (key < SESSIONS) × C.fits port }
        { attend(here, alloc, theirs, key, connection, port) },
    );
    match session {
        Ok(session) => Ok(session),
        Err(refused) => {
            flags.refuse(key);
            Err((refused.value)())
        }
    }
}
