//! A run of `serve`, with a journal, a relay, both or none.
ghost use Rattle.std.specs.Prelude.{◌≡◌, is_some, IfOk, IfSome, OnOk, length};
ghost use Rattle.durable_lines.specs.Lines.{IsReady};
ghost use Rattle.meter_run.specs.Journaled.{first_port, parts_in};
ghost use Rattle.meter_server.specs.ServingAll.{IsLimit};
ghost use Rattle.meter_server_cli.specs.Endings.{PrintsRun, sampler_port};

use crate::ending::print_trace;
use crate::listening::Listening;
use crate::serving::{ServedMeter, meter_sources};
use durable_lines::{DurableFile, LockFile};
use meter_console::SourcesEnd;
use meter_journal::{
    FailureAction, JournalFault, JournalParts, MeterJournal, NoFile, Relay, SupplyOutput,
};
use meter_run::{MeterRun, RunTerms, run_meter};
use meter_server::{ServeFault, Served};
use program::Fault;
use server_files::{OpenJournal, OpenRelay, RelayFile};
use server_io::Closing;
use session_log::Log;
use std::fs::{File, Files};
use std::io::Write;
use std::sync::Wait;
use std::thread::Threads;
use std::time::Clock;

// The results of serving, of the journal and the relay, and of printing.
type RunResults = (
    Result<Served, ServeFault>,
    Result<(), Fault>,
    Result<(), Fault>,
);

// What the events of a server's meter go to.
#[derive(Drop)]
pub(crate) struct ServerOutputs<S: Clock + Files<File = File> + Copy + Drop> {
    // The journal, if there is one.
    pub(crate) journal: Option<OpenJournal<S>>,
    // The relay, if there is one.
    pub(crate) relay: Option<OpenRelay<S>>,
}

// What ends a server whose journal has failed: its listening, and the sources of its own events.
#[derive(Drop)]
pub(crate) struct ServerEnd<R> {
    pub(crate) log: Log,
    pub(crate) closing: Closing<HostRuntime>,
    pub(crate) sources: SourcesEnd<R>,
}

// Reports that the journal of a path has failed, and ends its server. A relay has reported its own
// fault.
#[derive(Drop)]
struct FailureEnd<R> {
    path: String,
    server: ServerEnd<R>,
}

impl<R: Wait + Copy + Drop + Send> FailureAction for FailureEnd<R> {
    fn act(self, fault: JournalFault) {
        let _ = match fault {
            JournalFault::Relay => Ok(()),
            _ => eprintln!(self.server.log; "{}: the journal failed: {fault}", self.path),
        };
        self.server.closing.close();
        self.server.sources.end();
    }
}

// Runs a meter, and prints its trace once the file of its journal is closed. Returns the result of
// its connections, that of the journal, and whether the trace was printed. It is generic, so that
// no proof reads how files are stored.
fn run_and_print<
    R: Threads + Wait + Copy + Drop + Send + 'static,
    F: DurableFile + Send + 'static,
    O: SupplyOutput + Send + 'static,
    W: Write,
>(
    rt: &HostRuntime,
    threads: &R,
    output: &mut W,
    listening: &mut Listening<R>,
    meter: ServedMeter<R>,
    journal: Option<MeterJournal<F, O, FailureEnd<R>>>,
    lock: Option<LockFile>,
) -> RunResults
    requires unused { length meter.recorder.events ≡ 0 }
    requires unclaimed { F.model.acts → ⊥ }
    requires unrelayed { IfSome (parts_in journal)
        (λ parts. IfSome parts.relay (λ relay. relay.given ≡ 0)) }
    ensures limited { IfOk result.0 (IsLimit meter.clients.connections) }
    ensures printed { OnOk result.2 (PrintsRun (first_port (parts_in journal)) meter.recorder
        meter.clients.password result.0 (W.contents output.old) (W.contents output.new)) }
{
    let ServedMeter {
        recorder,
        sources,
        log,
        clients,
    } = meter;
    let terms = RunTerms {
        password: &clients.password,
        limit: clients.connections,
    };
    let MeterRun {
        served,
        trace,
        journal,
        parts,
    } = run_meter(
        threads,
        rt.alloc(),
        recorder,
        listening,
        meter_sources(sources, log),
        journal,
        &terms,
    );
    drop(parts);
    drop(lock);
    (served, journal, print_trace(output, trace))
}

// Returns the relay of a meter.
fn relay_of<S: Clock + Files<File = File> + Copy + Drop>(
    opened: Option<OpenRelay<S>>,
) -> Option<Relay<RelayFile<S>>>
    ensures { IfSome result (λ relay. relay.given ≡ 0) }
{
    match opened {
        Some(OpenRelay { path, relay }) => {
            drop(path);
            Some(relay)
        }
        None => None,
    }
}

// Returns the relay of a meter without a journal, as one without a file.
fn relay_alone<S: Clock + Files<File = File> + Copy + Drop, R: Wait + Copy + Drop + Send>(
    opened: Option<OpenRelay<S>>,
    end: ServerEnd<R>,
) -> Option<MeterJournal<NoFile, RelayFile<S>, FailureEnd<R>>>
    ensures is_some { is_some (parts_in result) ≡ is_some opened }
    ensures unrelayed { IfSome (parts_in result)
        (λ parts. IfSome parts.relay (λ relay. relay.given ≡ 0)) }
{
    let Some(OpenRelay { path, relay }) = opened else {
        drop(end);
        return None;
    };
    Some(MeterJournal {
        parts: JournalParts {
            file: NoFile,
            relay: Some(relay),
        },
        on_failure: FailureEnd { path, server: end },
    })
}

// Runs a meter whose events go to these outputs, and prints its trace.
pub(crate) fn run_with_outputs<
    S: Clock + Files<File = File> + Copy + Drop + Send + 'static,
    R: Threads + Wait + Copy + Drop + Send + 'static,
    W: Write,
>(
    rt: &HostRuntime,
    threads: &R,
    output: &mut W,
    listening: &mut Listening<R>,
    meter: ServedMeter<R>,
    outputs: ServerOutputs<S>,
    end: ServerEnd<R>,
) -> RunResults
where
    S::Dir: Send + 'static,
    requires unused { length meter.recorder.events ≡ 0 }
    ensures limited { IfOk result.0 (IsLimit meter.clients.connections) }
    ensures printed { OnOk result.2 (PrintsRun (sampler_port outputs.journal outputs.relay)
        meter.recorder meter.clients.password result.0 (W.contents output.old)
        (W.contents output.new)) }
{
    let ServerOutputs { journal, relay } = outputs;
    match journal {
        Some(OpenJournal { path, file, lock }) => {
            let journal = MeterJournal {
                parts: JournalParts {
                    file,
                    relay: relay_of(relay),
                },
                on_failure: FailureEnd { path, server: end },
            };
            let lock = Some(lock);
            run_and_print(rt, threads, output, listening, meter, Some(journal), lock)
        }
        None => {
            let journal = relay_alone(relay, end);
            run_and_print(rt, threads, output, listening, meter, journal, None)
        }
    }
}
