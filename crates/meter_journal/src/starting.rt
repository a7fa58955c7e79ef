//! Starts the thread of a journal, and stops it.
ghost use Rattle.std.specs.Prelude.{◌≡◌, ◌+◌, ◌≤◌, IfNone, IfSome};
ghost use Rattle.port_threads.specs.Ports.{AreJoined, PortContinues, SplitsOff};
ghost use Rattle.port_threads.specs.Workers.{ReturnsPort};
ghost use Rattle.meter_journal.specs.Saving.{Keeps};

use crate::journal::JournalEnd;
use crate::last_save::JournalIdentity;
use crate::progress::JournalProgress;
use crate::relay::SupplyOutput;
use crate::worker::{FailureAction, JournalWorker};
use durable_lines::DurableFile;
use port_threads::{WorkerThread, join_worker, start_worker};
use shared_meter::Kept;
use std::alloc::Global;
use std::sync::Wait;
use std::thread::Threads;
use turn_lock::Port;

/// The handle of a running journal's thread.
pub type JournalThread<F, W, A, L> = WorkerThread<
    Kept,
    JournalWorker<F, W, A, L>,
    JournalEnd<F, W>,
>;

/// Starts a thread for the worker of a journal, with a port split off from this one. Returns `None`
/// if no memory, port or thread is available; the worker is dropped with its file, the end of the
/// journal is recorded as if it had been asked to stop, which the caller may do, and no port is
/// lost.
pub fn start_journal<
    F: DurableFile + Send + 'static,
    W: SupplyOutput + Send + 'static,
    A: FailureAction + 'static,
    L: JournalIdentity + Send + Sync + 'static,
    R: Threads + Wait + Copy + Send + 'static,
>(
    rt: &R,
    alloc: Global,
    worker: JournalWorker<F, W, A, L>,
    progress: &JournalProgress<F, L>,
    port: &mut Port<Kept>,
) -> Option<JournalThread<F, W, A, L>>
    requires lock { port.old.lock ≡ L.lock }
    requires may_end { L.may_end }
    ensures worker { IfSome result (λ running. running.promise.worker.value ≡ worker) }
    ensures port { IfSome result
        (λ running. SplitsOff port.old running.promise.port.value port.new) }
    ensures none { IfNone result (PortContinues port.old port.new
        × AreJoined port.old.known.splits port.new) }
    ensures within_one { IfNone result (port.new.known.splits ≤ port.old.known.splits + 1) }
{
    let running = start_worker(rt, alloc, worker, port);
    if running.is_none() {
        progress.end();
    }
    running
}

/// Asks the worker of a journal to save the lines that have been noted, waits for its end, and
/// joins its port in. Returns how the worker ended, or `None` if the work was not started.
pub fn stop_journal<
    F: DurableFile + Send,
    W: SupplyOutput + Send,
    A: FailureAction,
    L: JournalIdentity + Send + Sync,
    R: Threads,
>(
    rt: &R,
    running: JournalThread<F, W, A, L>,
    progress: &JournalProgress<F, L>,
    port: &mut Port<Kept>,
) -> Option<JournalEnd<F, W>>
    requires lock { running.promise.port.value.lock ≡ port.old.lock }
    requires may_end { L.may_end }
    ensures { let task = running.promise
        in ReturnsPort (Keeps F.model W.contents L.may_end A.has_acted task.worker.value)
        task.port.value result port.old port.new }
{
    progress.stop();
    join_worker(rt, running, port)
}
