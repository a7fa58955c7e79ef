//! `JournalProgress`: how many lines of a journal are on the disk, for the sessions that wait for
//! theirs.
ghost use Rattle.std.specs.Prelude.{◌≡◌, ◌<◌, false, IsTrue, OnOk};
ghost use Rattle.durable_lines.specs.Lines.{IsReady};
ghost use Rattle.meter_journal.specs.Faults.{EndsFor};
ghost use Rattle.meter_journal.specs.Saving.{AreOnDisk, AreStored, IsFileOf};
ghost use Rattle.meter_journal.specs.declared.fault.JournalFault.{JournalFault};

use crate::fault::JournalFault;
use crate::last_save::{JournalIdentity, LastSave};
use durable_lines::DurableFile;
use shared_meter::{Durability, Kept};
use std::alloc::{AllocError, Global};
use std::marker::PhantomData;
use std::sync::atomic::{AtomicIn, AtomicU64, Ordering, Rule};
use std::sync::{Arc, Condvar, Mutex, Wait};
use std::time::Duration;
use turn_lock::Port;

// The time after which the worker looks for lines that no session waits for, in milliseconds.
const PERIOD: u64 = 50;

// The time after which a session looks again at the number of lines, in milliseconds. It is woken
// when the number changes.
const PATIENCE: u64 = 1_000;

// The time for which the worker waits for the next request of the sessions that it woke, in
// microseconds.
const GATHERING: u64 = 200;

// The rule of the number of lines on the disk: a sync of the journal's file returned while the file
// had as many lines of a history. No value of it is made.
struct StoredLines<F, L>(PhantomData<(F, L)>);

impl<F: DurableFile, L: JournalIdentity> Rule for StoredLines<F, L> {
    ghost invariant = { λ n. AreStored F.model L.file L.first n };
}

// The rule of the flag that is 1 once the journal was asked to stop: only who may end it asks. No
// value of it is made.
struct StopAsked<L>(PhantomData<L>);

impl<L: JournalIdentity> Rule for StopAsked<L> {
    ghost invariant = { λ n. 0 < n → L.may_end };
}

// The rule of the flag that is 1 once the journal has failed, with a fault that it may have. No
// value of it is made.
struct FailureRecorded<L>(PhantomData<L>);

impl<L: JournalIdentity> Rule for FailureRecorded<L> {
    ghost invariant = { λ n. 0 < n → (fault : JournalFault) × L.may_fail fault };
}

// The rule of the flag that is 1 once the journal has ended, for one of the two reasons. No value
// of it is made.
struct EndRecorded<L>(PhantomData<L>);

impl<L: JournalIdentity> Rule for EndRecorded<L> {
    ghost invariant = { λ n. 0 < n → EndsFor L.may_end L.may_fail };
}

// What the handles of a journal share. Of the two conditions one is changed for sessions that wait
// for lines, the other for the worker: by the request that brings their number to `wake_at`.
#[derive(Drop)]
struct ProgressState<F: DurableFile, L: JournalIdentity> {
    lines: AtomicIn<StoredLines<F, L>>,
    last: Mutex<LastSave<F, L>>,
    has_ended: AtomicIn<EndRecorded<L>>,
    has_failed: AtomicIn<FailureRecorded<L>>,
    is_stopped: AtomicIn<StopAsked<L>>,
    requests: AtomicU64,
    wake_at: AtomicU64,
    saved: Condvar,
    wanted: Condvar,
}

impl<F: DurableFile, L: JournalIdentity> ProgressState<F, L> {
    // Waits until this number of lines is on the disk, or the journal has ended. Returns whether
    // the journal has ended.
    fn wait<W: Wait>(&self, rt: &W, lines: u64) -> bool
        ensures { IsTrue result → EndsFor L.may_end L.may_fail }
    {
        for _ in rt.forever() {
            let seen = self.saved.notifications();
            let has_ended = self.has_ended.load(Ordering::SeqCst) > 0;
            if has_ended || self.lines.load(Ordering::SeqCst) >= lines {
                return has_ended;
            }
            self.request();
            self.saved.sleep(rt, seen, Duration::from_millis(PATIENCE));
        }
        unreachable!()
    }

    // Records that no further lines will be on the disk: from now on every wait for more lines
    // returns false at once.
    fn end(&self)
        requires { EndsFor L.may_end L.may_fail }
    {
        self.has_ended.store(1, Ordering::SeqCst);
        self.saved.notify_all();
    }

    // Requests a save. Wakes the worker if it waits for no more requests than there are now.
    fn request(&self) {
        let before = self.requests.fetch_add(1, Ordering::SeqCst);
        let wake_at = self.wake_at.load(Ordering::SeqCst);
        if before.wrapping_add(1) >= wake_at {
            self.wanted.notify_all();
        }
    }

    // Sleeps for at most a time, unless there are `count` more requests than `seen`.
    fn sleep<W: Wait>(&self, rt: &W, seen: u64, count: u64, patience: Duration) {
        self.wake_at
            .store(seen.wrapping_add(count), Ordering::SeqCst);
        let notified = self.wanted.notifications();
        if self.requests.load(Ordering::SeqCst).wrapping_sub(seen) < count {
            self.wanted.sleep(rt, notified, patience);
        }
    }
}

/// A handle of a journal: how many of its lines are on the disk, and whether it has ended. The
/// worker has one, each session has one, and the program has one to stop the worker.
///
/// Lines are counted from the start of the history of the meter's lock; those that the file had
/// before are not counted. The type parameter `L` names the lock and the file.
#[derive(Drop)]
pub struct JournalProgress<F: DurableFile, L: JournalIdentity> {
    state: Arc<ProgressState<F, L>, Global>,
}

impl<F: DurableFile, L: JournalIdentity> JournalProgress<F, L> {
    /// Returns the handle of a journal without lines, which will be written to this file through a
    /// port of this lock: a wait for 0 lines returns true. Errors: `AllocError`.
    pub fn new(
        alloc: Global,
        port: &mut Port<Kept>,
        file: &F,
    ) -> Result<JournalProgress<F, L>, AllocError>
        requires lock { port.old.lock ≡ L.lock }
        requires file { IsFileOf F.model L.file L.first file.now }
        requires settled { IsReady F.model file.now }
        ensures port { port.new ≡ port.old }
        ensures stored { OnOk result (AreStored F.model L.file L.first 0) }
    {
        // (no effect: the contract needs this law)
        port.history_is_legal();
        let _file = file;
        let state = ProgressState {
            lines: AtomicIn::new(0),
            last: Mutex::new(LastSave::new(port, 0)),
            has_ended: AtomicIn::new(0),
            has_failed: AtomicIn::new(0),
            is_stopped: AtomicIn::new(0),
            requests: AtomicU64::new(0),
            wake_at: AtomicU64::new(0),
            saved: Condvar::new(),
            wanted: Condvar::new(),
        };
        Ok(JournalProgress {
            state: Arc::new(alloc, state)?,
        })
    }

    /// Returns the number of lines that are on the disk.
    pub fn lines(&self) -> u64
        ensures { AreStored F.model L.file L.first result }
    {
        self.state.lines.load(Ordering::SeqCst)
    }

    // Records that this number of lines of the port's history is on the disk, and wakes the
    // sessions that wait. If there was more than one further line, then waits a moment for as many
    // requests: otherwise the session that is first to return would have a sync for itself, and the
    // others the next one. Only the worker calls it.
    pub(crate) fn announce<W: Wait>(&self, rt: &W, port: &mut Port<Kept>, lines: u64)
        requires lock { port.old.lock ≡ L.lock }
        requires synced { AreOnDisk F.model L.file L.first port.old.known.seen lines }
        ensures { port.new ≡ port.old }
    {
        // (no effect: the contract needs this law)
        port.history_is_legal();
        let woken = lines.saturating_sub(self.lines());
        let seen = self.requests();
        self.state.last.lock(rt).update(port, lines);
        self.state.lines.store(lines, Ordering::SeqCst);
        self.state.saved.notify_all();
        if woken > 1 {
            self.gather(rt, seen, woken);
        }
    }

    // Waits until there were this number of requests after the first `seen`, as long as each comes
    // soon after the one before.
    fn gather<W: Wait>(&self, rt: &W, seen: u64, count: u64) {
        for _ in 0..count {
            let before = self.requests();
            self.state
                .sleep(rt, seen, count, Duration::from_micros(GATHERING));
            let now = self.requests();
            if now == before || now.wrapping_sub(seen) >= count {
                return;
            }
        }
    }

    // Records that the journal has ended as it was asked to, or that its worker was not started.
    pub(crate) fn end(&self)
        requires { L.may_end }
    {
        self.state.end();
    }

    // Records that the journal has failed with this fault, and ended.
    pub(crate) fn fail(&self, fault: JournalFault)
        requires { L.may_fail fault }
    {
        let _fault = fault;
        self.state.has_failed.store(1, Ordering::SeqCst);
        self.state.end();
    }

    /// Asks the worker to save the lines that have been noted, and then to end. Once it has ended,
    /// every wait for more lines than are on the disk returns false at once.
    pub fn stop(&self)
        requires { L.may_end }
    {
        self.state.is_stopped.store(1, Ordering::SeqCst);
        self.state.requests.fetch_add(1, Ordering::SeqCst);
        self.state.wanted.notify_all();
    }

    // Returns whether the worker was asked to end.
    pub(crate) fn is_stopped(&self) -> bool
        ensures { IsTrue result → L.may_end }
    {
        self.state.is_stopped.load(Ordering::SeqCst) > 0
    }

    // Returns the number of requests for a save so far, which wraps.
    pub(crate) fn requests(&self) -> u64 {
        self.state.requests.load(Ordering::SeqCst)
    }

    // Sleeps for a period, unless there were more requests than `seen`.
    pub(crate) fn sleep<W: Wait>(&self, rt: &W, seen: u64) {
        self.state.sleep(rt, seen, 1, Duration::from_millis(PERIOD));
    }
}

impl<F: DurableFile, L: JournalIdentity> Durability for JournalProgress<F, L> {
    ghost fits = { λ lock. lock ≡ L.lock };

    ghost is_durable = { AreOnDisk F.model L.file L.first };

    ghost has_ended = { EndsFor L.may_end L.may_fail };

    fn wait<W: Wait>(&self, rt: &W, port: &mut Port<Kept>, lines: u64) -> bool {
        // (no effect: the contract needs this law)
        port.history_is_legal();
        'turns: for _ in rt.forever() {
            let has_ended = self.state.wait(rt, lines);
            let saved = self.state.last.lock(rt).show(port);
            if saved >= lines {
                return true;
            }
            // Otherwise a save was announced that its handles do not show yet.
            if has_ended {
                return false;
            }
        }
        unreachable!()
    }

    fn share(&self) -> Result<JournalProgress<F, L>, AllocError> {
        Ok(JournalProgress {
            state: Arc::try_clone(&self.state)?,
        })
    }

    fn has_failed(&self, _port: &Port<Kept>) -> bool {
        self.state.has_failed.load(Ordering::SeqCst) > 0
    }
}
