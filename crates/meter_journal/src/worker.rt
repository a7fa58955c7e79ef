//! The worker that writes a journal and gives a relay each change, in a thread of its own.
ghost use Rattle.std.specs.Prelude.{◌≡◌, ⊤, IfOk};
ghost use Rattle.durable_lines.specs.Lines.{IsReady};
ghost use Rattle.meter_journal.specs.Faults.{IsSaveFault};
ghost use Rattle.meter_journal.specs.Saving.{IsFileOf};
ghost use Rattle.meter_journal.specs.declared.fault.JournalFault.{JournalFault};

use crate::fault::JournalFault;
use crate::journal::{JournalEnd, JournalParts, MeterJournal};
use crate::keeping::keep_lines;
use crate::last_save::JournalIdentity;
use crate::progress::JournalProgress;
use crate::relay::SupplyOutput;
use durable_lines::DurableFile;
use port_threads::Worker;
use shared_meter::{Durability, Kept};
use std::alloc::{AllocError, Global};
use std::marker::Model;
use std::sync::Wait;
use turn_lock::Port;

/// What is done when a journal or its relay fails, such as to stop the server.
pub trait FailureAction: Drop + Send {
    /// Ghost predicate: it was called with this fault. The default claims nothing.
    ghost has_acted: { JournalFault → Type 0 } = { λ _. ⊤ };

    /// Is called once, by the worker's thread, after the waits of the sessions have ended.
    fn act(self, fault: JournalFault)
    where
        Self: Sized,
        ensures { has_acted fault };
}

/// The worker of a journal: it saves the lines of the meter's events to its file, gives the relay
/// the changes of the supply output by the events that are on the disk, and announces them, until
/// the journal is stopped or fails. Its file has whole lines, and all of them are on the disk. It
/// works through a port of the lock of `L`, and its journal may fail with each fault of a save.
/// Contracts see the file and the relay.
#[derive(Drop)]
pub struct JournalWorker<F: DurableFile, W: SupplyOutput, A: FailureAction, L: JournalIdentity> {
    parts: JournalParts<F, W>,
    progress: JournalProgress<F, L>,
    on_failure: A,
    // Memory for the text of the next save.
    room: Vec<u8>,
}

impl<F: DurableFile, W: SupplyOutput, A: FailureAction, L: JournalIdentity> Model
    for JournalWorker<F, W, A, L> {
    ghost use Rattle.durable_lines.specs.Lines.{IsReady};
    ghost use Rattle.meter_journal.specs.Faults.{IsSaveFault};
    ghost use Rattle.meter_journal.specs.Saving.{IsFileOf};
    ghost use Rattle.meter_journal.specs.declared.fault.JournalFault.{JournalFault};
    ghost use Rattle.meter_journal.specs.declared.journal.JournalParts.{JournalParts};

    ghost Value = { JournalParts F W };

    ghost view = { λ w. w.parts };

    ghost invariant = { λ w. IsFileOf F.model L.file L.first w.parts.file
        × IsReady F.model w.parts.file
        × ((fault : JournalFault) → IsSaveFault F.model L.file L.lock fault → L.may_fail fault) };
}

impl<F: DurableFile, W: SupplyOutput, A: FailureAction, L: JournalIdentity> JournalWorker<
    F,
    W,
    A,
    L,
> {
    /// Makes the worker of a journal that was recovered or begun, so that its file has whole lines
    /// and all of them are on the disk. `room` is the memory for the text of the next save, in
    /// bytes; more is allocated if it does not suffice. Errors: `AllocError`.
    pub fn new(
        alloc: Global,
        journal: MeterJournal<F, W, A>,
        progress: &JournalProgress<F, L>,
        room: usize,
    ) -> Result<JournalWorker<F, W, A, L>, AllocError>
        requires file { IsFileOf F.model L.file L.first journal.parts.file }
        requires settled { IsReady F.model journal.parts.file }
        requires may_fail { (fault : JournalFault)
            → IsSaveFault F.model L.file L.lock fault → L.may_fail fault }
        ensures { IfOk result (λ worker. worker ≡ journal.parts) }
    {
        let MeterJournal { parts, on_failure } = journal;
        let mut text = Vec::new(alloc);
        text.reserve(room)?;
        Ok(JournalWorker {
            parts,
            progress: progress.share()?,
            on_failure,
            room: text,
        })
    }
}

impl<
    F: DurableFile + Send,
    W: SupplyOutput + Send,
    A: FailureAction,
    L: JournalIdentity + Send + Sync,
> Worker<Port<Kept>> for JournalWorker<F, W, A, L> {
    ghost use Rattle.meter_journal.specs.Saving.{Keeps};

    ghost fits = { λ port. port.lock ≡ L.lock };

    type End = JournalEnd<F, W>;

    ghost did = { λ worker p q end.
        Keeps F.model W.contents L.may_end A.has_acted worker p q end };

    /// Saves lines until the journal is stopped, and returns the file, the relay, and the number of
    /// lines of the history, all of which the file has. The error is that of a save, or `Relay`.
    fn work<R: Wait>(
        self,
        rt: &R,
        alloc: Global,
        port: Port<Kept>,
    ) -> (Port<Kept>, JournalEnd<F, W>) {
        let JournalWorker {
            mut parts,
            progress,
            on_failure,
            room,
        } = self;
        let mut port = port;
        let saved = keep_lines(rt, alloc, &mut port, &mut parts, &progress, room);
        match saved {
            Ok(_) => progress.end(),
            Err(fault) => {
                progress.fail(fault);
                on_failure.act(fault);
            }
        }
        (port, JournalEnd { parts, saved })
    }
}
