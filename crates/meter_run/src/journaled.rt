//! A run with a journal: each event is on the disk before it is answered.
ghost use Rattle.std.specs.Prelude.{◌≡◌, ◌⊎◌, ⊤, ◌+◌, [], Some, IfOk, IfErr, IfSome, length};
ghost use Rattle.acse_ber.specs.Password.{IsPassword};
ghost use Rattle.durable_lines.specs.Lines.{IsReady, lines_in};
ghost use Rattle.meter_journal.specs.Faults.{EndsFor, IsSaveFault};
ghost use Rattle.meter_journal.specs.Saving.{IsFileOf, Keeps};
ghost use Rattle.meter_journal.specs.declared.fault.JournalFault.{JournalFault};
ghost use Rattle.meter_run.specs.Journaled.{AnyEnd, IsFinished, IsStarted, Runs};
ghost use Rattle.meter_run.specs.Journaled.{fault_of_journal, fault_of_worker, parts_of_journal};
ghost use Rattle.meter_server.specs.ServingAll.{Accounts, counts_of};
ghost use Rattle.program.specs.declared.fault.Fault.TheVariants.{Memory, Turns, Write};
ghost use Rattle.relay_core.specs.Opening.{opening_of};
ghost use Rattle.relay_core.specs.declared.opening.Opening.{Opening};
ghost use Rattle.relay_recorder.specs.Recording.{Recording};
ghost use Rattle.shared_meter.specs.Calls.{IsLegal};
ghost use Rattle.shared_meter.specs.Pending.{lines_of_calls};
ghost use Rattle.turn_lock.specs.Calls.{Watches};
ghost use Rattle.turn_lock.specs.Rule.{first_known};
ghost use Rattle.turn_lock.specs.Shown.{IsSame};

use crate::running::{MeterRun, RunTerms, close_and_export, lock, no_run};
use cosem_axdr::Octets;
use durable_lines::DurableFile;
use meter_journal::{
    FailureAction, JournalEnd, JournalFault, JournalIdentity, JournalParts, JournalProgress,
    JournalThread, JournalWorker, MeterJournal, SupplyOutput, start_journal, stop_journal,
};
use meter_server::{ClientTerms, Listener, OwnSources, serve};
use program::Fault;
use relay_recorder::Recorder;
use shared_meter::{Durability, Finding, Kept, PendingLines, Question};
use std::alloc::{AllocError, Global};
use std::marker::Brand;
use std::sync::Wait;
use std::thread::Threads;
use turn_lock::{Port, Shared};

// The memory for the text of the lines that wait for a sync, and for those that are being written,
// in bytes each. More is allocated if it does not suffice.
const ROOM: usize = 65_536;

// A meter in its lock, and the running worker of its journal.
#[derive(Drop)]
struct Started<
    F: DurableFile + Send,
    O: SupplyOutput + Send,
    A: FailureAction,
    L: JournalIdentity + Send + Sync,
> {
    shared: Shared<Kept>,
    port: Port<Kept>,
    // A handle of the journal for the sessions, and one to stop the worker.
    sessions: JournalProgress<F, L>,
    progress: JournalProgress<F, L>,
    running: JournalThread<F, O, A, L>,
}

// Returns a lock over a recorder with a journal, and its first port.
fn lock_journaled(
    alloc: Global,
    recorder: Recorder,
) -> Result<(Shared<Kept>, Port<Kept>), AllocError>
    requires { recorder.events ≡ [] }
    ensures lock { IfOk result (λ r. r.1.lock ≡ r.0) }
    ensures known { IfOk result (λ r. r.1.known ≡ first_known (opening_of recorder.core)) }
{
    match PendingLines::new(alloc, ROOM) {
        Ok(pending) => lock(alloc, Kept::with_journal(recorder, pending)),
        Err(error) => {
            drop(recorder);
            Err(error)
        }
    }
}

// Starts the worker of the journal of a meter in its lock. Returns `None` if no memory, port or
// thread is available.
fn start<
    F: DurableFile + Send + 'static,
    O: SupplyOutput + Send + 'static,
    A: FailureAction + 'static,
    L: JournalIdentity + Send + Sync + 'static,
    R: Threads + Wait + Copy + Send + 'static,
>(
    rt: &R,
    alloc: Global,
    meter: (Shared<Kept>, Port<Kept>),
    journal: MeterJournal<F, O, A>,
) -> Option<Started<F, O, A, L>>
    requires lock { meter.1.lock ≡ meter.0 }
    requires same_lock { meter.1.lock ≡ L.lock }
    requires may_end { L.may_end }
    requires may_fail { (fault : JournalFault)
        → IsSaveFault F.model L.file L.lock fault → L.may_fail fault }
    requires file { IsFileOf F.model L.file L.first journal.parts.file }
    requires settled { IsReady F.model journal.parts.file }
    ensures lock { IfSome result (λ s. s.port.lock ≡ s.shared) }
    ensures same_lock { IfSome result (λ s. s.port.lock ≡ L.lock) }
    ensures lent { IfSome result (λ s. s.running.promise.port.value.lock ≡ s.port.lock) }
    ensures starts { IfSome result (λ s. (o : Opening) → meter.1.known ≡ first_known o
        → IsStarted o s.running.promise.port.value s.port) }
    ensures parts { IfSome result (λ s. s.running.promise.worker.value ≡ journal.parts) }
{
    let (shared, mut port) = meter;
    let Ok(progress) = JournalProgress::<F, L>::new(alloc, &mut port, &journal.parts.file) else {
        return None;
    };
    let Ok(sessions) = progress.share() else {
        return None;
    };
    let Ok(worker) = JournalWorker::new(alloc, journal, &progress, ROOM) else {
        return None;
    };
    let Some(running) = start_journal(rt, alloc, worker, &progress, &mut port) else {
        return None;
    };
    Some(Started {
        shared,
        port,
        sessions,
        progress,
        running,
    })
}

// Returns the number of lines of the history that the port then knows. Returns `None` if all turns
// were drawn, or a line was lost.
fn count_lines<W: Wait>(rt: &W, alloc: Global, port: &mut Port<Kept>) -> Option<u64>
    ensures same { IsSame port.old port.new }
    ensures watches { Watches IsLegal port.old.known port.new.known }
    ensures count { IfSome result
        (λ count. count ≡ length (lines_of_calls port.new.known.seen)) }
{
    match port.inspect(rt, alloc, Question::Count) {
        Some(Finding::Count(count)) => Some(count),
        Some(
            Finding::Taken {
                text,
                count: _,
                switches: _,
            },
        ) => {
            drop(text);
            None
        }
        Some(Finding::Incomplete) | None => None,
    }
}

// Returns the fault of a journal by the result of its worker, which has saved a number of lines,
// and by the number of lines of the run.
fn fault_of(saved: Result<u64, JournalFault>, lines: Option<u64>) -> Result<(), Fault>
    ensures fault { result ≡ fault_of_worker saved lines }
    ensures err { IfErr result (λ fault. (fault ≡ Write) ⊎ (fault ≡ Memory)) }
{
    match (saved, lines) {
        (Ok(count), Some(lines)) if count == lines => Ok(()),
        (Ok(_), _) => Err(Fault::Memory),
        (Err(_), _) => Err(Fault::Write),
    }
}

// Returns the fault of a journal by the end of its worker and by the number of lines of the run,
// and its file and relay.
fn journal_end<F: DurableFile, O: SupplyOutput>(
    end: Option<JournalEnd<F, O>>,
    lines: Option<u64>,
) -> (Result<(), Fault>, Option<JournalParts<F, O>>)
    ensures fault { result.0 ≡ fault_of_journal end lines }
    ensures parts { result.1 ≡ parts_of_journal end }
    ensures err { IfErr result.0 (λ fault. (fault ≡ Write) ⊎ (fault ≡ Memory)) }
{
    match end {
        Some(JournalEnd { parts, saved }) => (fault_of(saved, lines), Some(parts)),
        None => (Err(Fault::Memory), None),
    }
}

// Stops the journal once it has written all lines, closes the lock, and writes the trace.
fn finish<
    F: DurableFile + Send,
    O: SupplyOutput + Send,
    A: FailureAction,
    L: JournalIdentity + Send + Sync,
    R: Threads + Wait,
>(
    rt: &R,
    alloc: Global,
    shared: Shared<Kept>,
    mut port: Port<Kept>,
    progress: JournalProgress<F, L>,
    running: JournalThread<F, O, A, L>,
) -> (
    Result<Octets, Fault>,
    Result<(), Fault>,
    Option<JournalParts<F, O>>,
)
    requires lock { port.lock ≡ shared }
    requires lent { running.promise.port.value.lock ≡ port.lock }
    requires may_end { L.may_end }
    ensures finished { let task = running.promise
        in IsFinished (Keeps F.model O.contents L.may_end A.has_acted task.worker.value)
        task.port.value port result.0 result.1 result.2 }
    ensures err { IfErr result.0 (λ fault. (fault ≡ Turns) ⊎ (fault ≡ Memory)) }
    ensures journal { IfErr result.1 (λ fault. (fault ≡ Write) ⊎ (fault ≡ Memory)) }
{
    let end = stop_journal(rt, running, &progress, &mut port);
    drop(progress);
    let lines = count_lines(rt, alloc, &mut port);
    let (journal, parts) = journal_end(end, lines);
    (close_and_export(alloc, shared, port), journal, parts)
}

// Runs a meter with a journal that is in its lock already, as `run_journaled` does. `K` is that
// lock, and the file of the journal.
fn run_in_lock<
    L: Listener,
    S: OwnSources,
    F: DurableFile + Send + 'static,
    O: SupplyOutput + Send + 'static,
    A: FailureAction + 'static,
    K: JournalIdentity + Send + Sync + 'static,
    R: Threads + Wait + Copy + Send + 'static,
>(
    rt: &R,
    alloc: Global,
    meter: (Shared<Kept>, Port<Kept>),
    listener: &mut L,
    sources: S,
    journal: MeterJournal<F, O, A>,
    terms: &RunTerms<'_>,
) -> MeterRun<F, O>
    requires lock { meter.1.lock ≡ meter.0 }
    requires same_lock { meter.1.lock ≡ K.lock }
    requires may_end { K.may_end }
    requires may_fail { (fault : JournalFault)
        → IsSaveFault F.model K.file K.lock fault → K.may_fail fault }
    requires file { IsFileOf F.model K.file K.first journal.parts.file }
    requires settled { IsReady F.model journal.parts.file }
    requires unrelayed { IfSome journal.parts.relay (λ relay. relay.given ≡ 0) }
    requires password { IsPassword terms.now.password.now }
    ensures runs { (recorder : Recording) → meter.1.known ≡ first_known (opening_of recorder.core)
        → Runs F.model O.contents L.Input.remaining L.Output.contents
        (EndsFor K.may_end K.may_fail) (Some journal.parts) recorder terms.now.password.now
        (S.forecasts sources) A.has_acted result }
    ensures accounts { Accounts terms.now.limit
        (counts_of L.accepted L.setup_failures listener.old)
        (counts_of L.accepted L.setup_failures listener.new) ⊤ (L.has_failed listener.new)
        result.served }
{
    let Some(started) = start::<F, O, A, K, R>(rt, alloc, meter, journal) else {
        drop(sources);
        return no_run(Err(Fault::Memory));
    };
    let Started {
        shared,
        port,
        sessions,
        progress,
        running,
    } = started;
    let terms = ClientTerms {
        password: terms.password,
        limit: terms.limit,
        journal: Some(sessions),
    };
    let (port, served) = serve(rt, alloc, listener, sources, port, &terms);
    drop(terms);
    let (trace, journal, parts) = finish(rt, alloc, shared, port, progress, running);
    MeterRun {
        served,
        trace,
        journal,
        parts,
    }
}

// Runs a meter with a journal, as `run_meter` does.
pub(crate) fn run_journaled<
    L: Listener,
    S: OwnSources,
    F: DurableFile + Send + 'static,
    O: SupplyOutput + Send + 'static,
    A: FailureAction + 'static,
    R: Threads + Wait + Copy + Send + 'static,
>(
    rt: &R,
    alloc: Global,
    recorder: Recorder,
    listener: &mut L,
    sources: S,
    journal: MeterJournal<F, O, A>,
    terms: &RunTerms<'_>,
) -> MeterRun<F, O>
    requires unused { recorder.events ≡ [] }
    requires settled { IsReady F.model journal.parts.file }
    requires unrelayed { IfSome journal.parts.relay (λ relay. relay.given ≡ 0) }
    requires password { IsPassword terms.now.password.now }
    ensures runs { Runs F.model O.contents L.Input.remaining L.Output.contents AnyEnd
        (Some journal.parts) recorder terms.now.password.now (S.forecasts sources) A.has_acted
        result }
    ensures accounts { Accounts terms.now.limit
        (counts_of L.accepted L.setup_failures listener.old)
        (counts_of L.accepted L.setup_failures listener.new) ⊤ (L.has_failed listener.new)
        result.served }
{
    match lock_journaled(alloc, recorder) {
        Ok(meter) => run_in_lock::<L, S, F, O, A, Brand, R>(
            rt, alloc, meter, listener, sources, journal, terms,
        ),
        Err(_) => {
            drop(sources);
            drop(journal);
            no_run(Err(Fault::Memory))
        }
    }
}
