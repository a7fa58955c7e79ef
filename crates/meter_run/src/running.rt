//! `run_meter`: one run from the recorder to the text of the trace, with clients and the meter's
//! own events in parallel.
ghost use Rattle.std.specs.Prelude.{◌≡◌, ◌⊎◌, ⊤, [], Err, None, Ok, IfOk, IfErr, IfSome, IsErrOf};
ghost use Rattle.acse_ber.specs.Password.{IsPassword};
ghost use Rattle.durable_lines.specs.Lines.{IsReady};
ghost use Rattle.meter_run.specs.Closing.{FindsTurn};
ghost use Rattle.meter_run.specs.Journaled.{AnyEnd, Runs, parts_in};
ghost use Rattle.meter_run.specs.Runs.{Traces};
ghost use Rattle.meter_server.specs.ServingAll.{Accounts, counts_of};
ghost use Rattle.shared_meter.specs.Calls.{Stands};
ghost use Rattle.session_io.specs.declared.fault.ServeFault.TheVariants as fault;
ghost use Rattle.trace_player.specs.RunTraces.{TellsRun};
ghost use Rattle.turn_lock.specs.Rule.{first_known};
ghost use Rattle.program.specs.declared.fault.Fault.TheVariants.{Memory, Turns};

use crate::closing::close_meter;
use crate::journaled::run_journaled;
use cosem_axdr::Octets;
use durable_lines::DurableFile;
use meter_journal::{FailureAction, JournalParts, MeterJournal, SupplyOutput};
use meter_server::{ClientTerms, Listener, OwnSources, ServeFault, Served, serve};
use program::Fault;
use relay_recorder::Recorder;
use shared_meter::{Kept, NoJournal};
use std::alloc::{AllocError, Global};
use std::sync::Wait;
use std::thread::Threads;
use trace_player::recorder_trace;
use turn_lock::{Port, Shared};

// The maximum number of calls in one run: 2^62, the largest bound of a lock.
const MAX_CALLS: u64 = 4_611_686_018_427_387_904;

/// The terms on which the clients of a run are served.
#[derive(Clone, Copy)]
pub struct RunTerms<'a> {
    /// The password of the management client, 1 to 32 bytes.
    pub password: &'a Octets,
    /// The number of connections to accept; 0 means no limit.
    pub limit: u64,
}

/// How a run ended.
#[derive(Drop)]
pub struct MeterRun<F: DurableFile, W: SupplyOutput> {
    /// The number of connections that were served and turned away, or why the server stopped.
    pub served: Result<Served, ServeFault>,
    /// The text of the trace. Errors: `Turns` if a call was still in its turn; `Memory`.
    pub trace: Result<Octets, Fault>,
    /// Whether each line of the run is on the disk, and the relay was given each change; `Ok` also
    /// if the meter has no journal. Errors: `Write` if the journal or its relay failed; `Memory` if
    /// it was not started, or it is not known that it has all lines.
    pub journal: Result<(), Fault>,
    /// The journal's file and its relay, also if the journal has failed; `None` if there is none,
    /// or it was not started.
    pub parts: Option<JournalParts<F, W>>,
}

// Returns a lock for 2^62 calls over a recorder without calls, and its first port.
pub(crate) fn lock(alloc: Global, kept: Kept) -> Result<(Shared<Kept>, Port<Kept>), AllocError>
    requires { Stands kept [] }
    ensures lock { IfOk result (λ r. r.1.lock ≡ r.0) }
    ensures bound { IfOk result (λ r. r.1.bound ≡ 4611686018427387904) }
    ensures known { IfOk result (λ r. r.1.known ≡ first_known kept.origin) }
{
    match Shared::new(alloc, kept, MAX_CALLS) {
        Ok(meter) => Ok(meter),
        Err((error, kept)) => {
            drop(kept);
            Err(error)
        }
    }
}

// Returns the text of the trace of a meter.
fn export_kept(alloc: Global, kept: &Kept) -> Result<Octets, AllocError>
    ensures { IfOk result (TellsRun kept.now.recorder) }
{
    recorder_trace(alloc, kept.recorder())
}

// Closes a lock, and returns the text of the trace of its meter. Errors: `Turns` if a call was
// still in its turn; `Memory`.
pub(crate) fn close_and_export(
    alloc: Global,
    shared: Shared<Kept>,
    port: Port<Kept>,
) -> Result<Octets, Fault>
    requires { port.lock ≡ shared }
    ensures traces { IfOk result (Traces port.known) }
    ensures err { IfErr result (λ fault. (fault ≡ Turns) ⊎ (fault ≡ Memory)) }
    ensures still_out { IsErrOf result Turns → FindsTurn port.known }
{
    match close_meter(shared, port) {
        Ok(kept) => {
            let text = export_kept(alloc, &kept);
            drop(kept);
            match text {
                Ok(text) => Ok(text),
                Err(_) => Err(Fault::Memory),
            }
        }
        Err((fault, port)) => {
            drop(port);
            Err(fault)
        }
    }
}

// What a run returns for which no lock, journal, port or thread is available.
pub(crate) fn no_run<F: DurableFile, W: SupplyOutput>(journal: Result<(), Fault>) -> MeterRun<F, W>
    ensures served { result.served ≡ Err fault.Memory }
    ensures trace { result.trace ≡ Err Memory }
    ensures journal { result.journal ≡ journal }
    ensures parts { result.parts ≡ None }
{
    MeterRun {
        served: Err(ServeFault::Memory),
        trace: Err(Fault::Memory),
        journal,
        parts: None,
    }
}

// Runs a meter without a journal.
fn run_plain<
    L: Listener,
    S: OwnSources,
    F: DurableFile,
    O: SupplyOutput,
    A: FailureAction,
    R: Threads + Wait + Copy + Send + 'static,
>(
    rt: &R,
    alloc: Global,
    recorder: Recorder,
    listener: &mut L,
    sources: S,
    terms: &RunTerms<'_>,
) -> MeterRun<F, O>
    requires unused { recorder.events ≡ [] }
    requires password { IsPassword terms.now.password.now }
    ensures runs { Runs F.model O.contents L.Input.remaining L.Output.contents AnyEnd None recorder
        terms.now.password.now (S.forecasts sources) A.has_acted result }
    ensures accounts { Accounts terms.now.limit
        (counts_of L.accepted L.setup_failures listener.old)
        (counts_of L.accepted L.setup_failures listener.new) ⊤ (L.has_failed listener.new)
        result.served }
    ensures journal { result.journal ≡ Ok tt }
{
    match lock(alloc, Kept::new(recorder)) {
        Ok((shared, port)) => {
            let terms: ClientTerms<'_, NoJournal> = ClientTerms {
                password: terms.password,
                limit: terms.limit,
                journal: None,
            };
            let (port, served) = serve(rt, alloc, listener, sources, port, &terms);
            MeterRun {
                served,
                trace: close_and_export(alloc, shared, port),
                journal: Ok(()),
                parts: None,
            }
        }
        Err(_) => {
            drop(sources);
            no_run(Ok(()))
        }
    }
}

/// Runs a meter: puts its recorder, which has no event yet, into a lock for 2^62 calls, serves the
/// clients of the listener, passes the events of the sources to the meter as
/// [`serve_all`](meter_server::serve_all) does, and then writes the text of the meter's trace.
///
/// With a journal its worker is started before. Each answer is written only after the lines of all
/// calls that its session has seen are on the disk, and the lines that are left are written at the
/// end. The relay, which must have been given no change before, is given the changes of the supply
/// output by the calls, in order, each once, and only once their lines are on the disk. If the
/// journal or the relay fails, its `on_failure` is called, with the fault `Failed` only if the file
/// has failed, and no event is answered any more whose line is not on the disk. The file and the
/// relay are returned; a crash at any moment of the run left a front of the lines of its calls.
///
/// The results are independent: the trace is written whatever ended the serving and the journal. If
/// no memory, port or thread is available for the lock and the journal, all are `Memory`, but for
/// the journal that a meter does not have. The trace is `Turns` only if the serving ended and a
/// turn was still out then.
///
/// If the serving ended without a fault, the listener accepted as many clients as are counted,
/// unless the count reached `u64::MAX`; and if fewer than eight were served, those turned away are
/// the ones whose streams could not be set up. The fault `Listen` means that the listener failed;
/// the serving never ends with `Read` or `Write`.
pub fn run_meter<
    L: Listener,
    S: OwnSources,
    F: DurableFile + Send + 'static,
    O: SupplyOutput + Send + 'static,
    A: FailureAction + 'static,
    R: Threads + Wait + Copy + Send + 'static,
>(
    rt: &R,
    alloc: Global,
    recorder: Recorder,
    listener: &mut L,
    sources: S,
    journal: Option<MeterJournal<F, O, A>>,
    terms: &RunTerms<'_>,
) -> MeterRun<F, O>
    requires unused { recorder.events ≡ [] }
    requires settled { IfSome (parts_in journal) (λ parts. IsReady F.model parts.file) }
    requires unrelayed { IfSome (parts_in journal)
        (λ parts. IfSome parts.relay (λ relay. relay.given ≡ 0)) }
    requires password { IsPassword terms.now.password.now }
    ensures runs { Runs F.model O.contents L.Input.remaining L.Output.contents AnyEnd
        (parts_in journal) recorder terms.now.password.now (S.forecasts sources) A.has_acted
        result }
    ensures accounts { Accounts terms.now.limit
        (counts_of L.accepted L.setup_failures listener.old)
        (counts_of L.accepted L.setup_failures listener.new) ⊤ (L.has_failed listener.new)
        result.served }
{
    match journal {
        Some(journal) => run_journaled(rt, alloc, recorder, listener, sources, journal, terms),
        None => run_plain::<L, S, F, O, A, R>(rt, alloc, recorder, listener, sources, terms),
    }
}
