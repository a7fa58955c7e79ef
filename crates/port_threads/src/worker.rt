//! Workers, each with a thread of its own and a port that was split off for it.
ghost use Rattle.std.specs.Prelude.{◌≡◌, ◌+◌, ◌≤◌, IfOk, IfErr, IfSome, IfNone};
ghost use Rattle.turn_lock.specs.Shown.{IsSame};
ghost use Rattle.port_threads.specs.Ports.{PortContinues, AreJoined, SplitsOff};
ghost use Rattle.port_threads.specs.Workers.{EndsWork, ReturnsPort};

use std::alloc::Global;
use std::snapshot::Snapshot;
use std::sync::atomic::{AtomicBool, Ordering};
use std::sync::{Arc, Wait};
use std::thread;
use std::thread::{Promise, PromisedHandle, Threads};
use turn_lock::{Port, Turned};

/// Work for a thread of its own, through a port of type `P`.
///
/// The relation `did` states what was done, in terms of the worker at its start, its port as lent
/// and as returned, and the result. The predicate `fits` states through which ports it can work.
pub trait Worker<P>: Drop + Send {
    ghost use Rattle.std.specs.Prelude.{⊤};

    /// The result of the work.
    type End: Drop;

    /// Ghost predicate: the worker can work through this port. The default is every port.
    ghost fits: { P → Type 0 } = { λ _. ⊤ };

    /// Ghost relation: what the worker did with its port, and its result.
    ghost did: { Self → P → P → Self.End → Type 0 };

    /// Works until nothing is left to do or a call is refused, and returns the port and the result.
    fn work<W: Wait>(self, rt: &W, alloc: Global, port: P) -> (P, Self::End)
    where
        Self: Sized,
        requires { fits port }
        ensures { did self port result.0 result.1 };
}

/// The result of a worker's thread: the port, and the result of the work, or `None` if the work was
/// not started.
pub type Handed<T, E> = (Port<T>, Option<E>);

/// The promise of a worker's thread: the worker did its work through this port.
#[derive(Drop)]
pub struct WorkerPromise<T: Turned, K> {
    pub worker: Snapshot<K>,
    pub port: Snapshot<Port<T>>,
}

impl<T: Turned, K: Worker<Port<T>>> Promise<Handed<T, K::End>> for WorkerPromise<T, K> {
    ghost kept_by = { λ task handed.
        EndsWork (K.did task.worker.value) task.port.value handed.0 handed.1 };
}

/// The handle of a running worker's thread.
pub type WorkerThread<T, K, E> = PromisedHandle<Handed<T, E>, WorkerPromise<T, K>>;

// Does the work of a worker's thread. If the thread was refused, does nothing.
pub(crate) fn do_work<T: Turned, K: Worker<Port<T>>, W: Wait + Copy>(
    rt: W,
    alloc: Global,
    refused: Arc<AtomicBool, Global>,
    worker: K,
    port: Port<T>,
) -> Handed<T, K::End>
    requires { K.fits port }
    ensures { EndsWork (K.did worker) port result.0 result.1 }
{
    if refused.load(Ordering::SeqCst) {
        return (port, None);
    }
    let (port, end) = worker.work(&rt, alloc, port);
    (port, Some(end))
}

// Starts the thread of a worker. If out of memory, or if no thread can be started, returns the
// port.
fn start_thread<
    T: Turned + Send + 'static,
    K: Worker<Port<T>> + 'static,
    R: Threads + Wait + Copy + Send + 'static,
>(rt: &R, alloc: Global, worker: K, port: Port<T>) -> Result<WorkerThread<T, K, K::End>, Port<T>>
where
    K::End: Send + 'static,
    T::Event: Send + 'static,
    T::Reply: Send + 'static,
    T::Origin: 'static,
    requires hands_back { (w : _) (p : _) (q : _) (end : _) → K.did w p q end → IsSame p q }
    requires fits { K.fits port }
    ensures ok { IfOk result (λ running. (running.promise.worker.value ≡ worker)
        × (running.promise.port.value ≡ port)) }
    ensures err { IfErr result (λ back. IsSame port back) }
{
    let Ok(refused) = Arc::new(alloc, AtomicBool::new(false)) else {
        return Err(port);
    };
    let Ok(theirs) = Arc::try_clone(&refused) else {
        return Err(port);
    };
    let here = *rt;
    let task = WorkerPromise {
        worker: Snapshot::of(&worker),
        port: Snapshot::of(&port),
    };
    let work = move || -> Handed<T, K::End>
        requires { K.fits port }
    { do_work(here, alloc, theirs, worker, port) };
    match thread::spawn_with(rt, task, work) {
        Ok(running) => Ok(running),
        Err(unused) => {
            refused.store(true, Ordering::SeqCst);
            Err((unused.value)().0)
        }
    }
}

/// Starts a thread for the worker, with a port split off from this one. Returns `None` if no
/// memory, port or thread is available; the worker is dropped, and no port is lost.
pub fn start_worker<
    T: Turned + Send + 'static,
    K: Worker<Port<T>> + 'static,
    R: Threads + Wait + Copy + Send + 'static,
>(rt: &R, alloc: Global, worker: K, port: &mut Port<T>) -> Option<WorkerThread<T, K, K::End>>
where
    K::End: Send + 'static,
    T::Event: Send + 'static,
    T::Reply: Send + 'static,
    T::Origin: 'static,
    requires hands_back { (w : _) (p : _) (q : _) (end : _) → K.did w p q end → IsSame p q }
    requires fits { (p : _) → p.lock ≡ port.old.lock → K.fits p }
    ensures worker { IfSome result (λ running. running.promise.worker.value ≡ worker) }
    ensures port { IfSome result
        (λ running. SplitsOff port.old running.promise.port.value port.new) }
    ensures none { IfNone result (PortContinues port.old port.new
        × AreJoined port.old.known.splits port.new) }
    ensures within_one { IfNone result (port.new.known.splits ≤ port.old.known.splits + 1) }
{
    let Ok(own) = port.split() else {
        return None;
    };
    match start_thread(rt, alloc, worker, own) {
        Ok(running) => Some(running),
        Err(unused) => {
            port.join(unused);
            None
        }
    }
}

/// Waits for the end of a worker and joins its port in. Returns `None` if the work was not started.
pub fn join_worker<T: Turned, K: Worker<Port<T>>, R: Threads>(
    rt: &R,
    running: WorkerThread<T, K, K::End>,
    port: &mut Port<T>,
) -> Option<K::End>
    requires lock { running.promise.port.value.lock ≡ port.old.lock }
    requires hands_back { (w : _) (p : _) (q : _) (end : _) → K.did w p q end → IsSame p q }
    ensures { let task = running.promise
        in ReturnsPort (K.did task.worker.value) task.port.value result port.old port.new }
{
    let (own, end) = running.join(rt);
    port.join(own);
    end
}
