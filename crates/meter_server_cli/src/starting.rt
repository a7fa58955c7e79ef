//! How the command `serve` begins: from its options to a server that listens, with its journal and
//! its relay.
ghost use Rattle.std.specs.Prelude.{◌≡◌, IfOk, IfSome, is_some, string_bytes};
ghost use Rattle.meter_server_cli.specs.Beginnings.{IsOpenAt};
ghost use Rattle.relay_core.specs.Stands.{StandsFor};
ghost use Rattle.relay_core.specs.World.{World};
ghost use Rattle.shared_meter.specs.Switching.{is_on};

use crate::journal::ServerOutputs;
use crate::messages::why_not_listening;
use durable_lines::{GROUP_READABLE, OWNER_ONLY};
use program::Fault;
use relay_recorder::Recorder;
use server_commands::{Bounds, ServeOptions, ServePlan, has_name, make_plan};
use server_files::{JournalOptions, OpenJournal, RelayOptions, open_journal, open_relay};
use session_log::{Log, LogTime};
use std::fs;
use std::io::{IsTerminal, Stdin};
use std::net::{SocketAddr, TcpListener};

// A server that is ready to serve: the meter, its journal and its relay if it has one, and the
// sockets for its clients.
#[derive(Drop)]
pub(crate) struct Server {
    pub(crate) plan: ServePlan<Stdin>,
    pub(crate) outputs: ServerOutputs<HostRuntime>,
    pub(crate) listener: TcpListener,
    pub(crate) address: SocketAddr,
}

// Listens on the address of the command line, and returns the listener and its address. The log
// has a line if listening failed and, if `is_verbose`, one with the address.
fn listen_on(
    rt: &HostRuntime,
    log: &Log,
    address: &str,
    is_verbose: bool,
) -> Result<(TcpListener, SocketAddr), Fault> {
    let listener = match TcpListener::bind(rt, address) {
        Ok(listener) => listener,
        Err(error) => {
            let now = LogTime::now(rt);
            let why = why_not_listening(address, error.kind());
            let _ = eprintln!(log; "{now} {address}: {why}");
            return Err(Fault::Listen);
        }
    };
    let address = listener.local_addr().map_err(|_| Fault::Listen)?;
    if is_verbose {
        let now = LogTime::now(rt);
        let _ = eprintln!(log; "{now} listening on {address}");
    }
    Ok((listener, address))
}

// Validates the options, and reads the trace to resume from. A line of the log says what is wrong.
fn plan_server(
    rt: &HostRuntime,
    log: &Log,
    options: &ServeOptions,
) -> Result<ServePlan<Stdin>, Fault>
    ensures bounds { IfOk result (λ plan. plan.bounds ≡ options.now.bounds) }
    ensures password { IfOk result (λ plan. plan.password ≡ string_bytes options.now.password) }
{
    match make_plan(rt.alloc(), rt.stdin(), options) {
        Ok(plan) => Ok(plan),
        Err(fault) => {
            let _ = eprintln!(log; "{fault}");
            Err(fault.fault())
        }
    }
}

// Returns the permissions of the files that a server of these bounds makes.
fn mode_of(bounds: &Bounds) -> u32 {
    if bounds.is_group_readable {
        GROUP_READABLE
    } else {
        OWNER_ONLY
    }
}

// Returns how the journal of these bounds is kept.
fn journal_options(bounds: &Bounds) -> JournalOptions {
    JournalOptions {
        depth: bounds.depth,
        limit: bounds.journal_limit,
        kept: bounds.kept_journals,
        mode: mode_of(bounds),
    }
}

// Reports that the name of the options is not that of the meter, which resumes from a trace.
fn report_other_name(rt: &HostRuntime, log: &Log, options: &ServeOptions, recorder: &Recorder) {
    if !options.bounds.resumes || !options.has_device {
        return;
    }
    let name = options.device.as_str();
    if matches!(has_name(rt.alloc(), recorder, name), Ok(false)) {
        let _ = eprintln!(log;
            "warning: --device {name} is not used: --resume takes the name of the trace's meter"
        );
    }
}

// Reports that the meter resumes from its journal, and not from the trace of standard input.
fn report_other_trace(rt: &HostRuntime, log: &Log, options: &ServeOptions, path: &str) {
    if options.bounds.resumes && matches!(fs::exists(rt, path), Ok(true)) {
        let _ = eprintln!(log;
            "warning: the trace of --resume is not used: the meter resumes from the journal {path}"
        );
    }
}

// Opens the journal of the options, if they name one. The meter of the plan then resumes where it
// ends.
fn with_journal(
    rt: &HostRuntime,
    log: &Log,
    options: &ServeOptions,
    plan: ServePlan<Stdin>,
) -> Result<(ServePlan<Stdin>, Option<OpenJournal<HostRuntime>>), Fault>
    ensures bounds { IfOk result (λ r. r.0.bounds ≡ plan.bounds) }
    ensures password { IfOk result (λ r. r.0.password ≡ plan.password) }
    ensures journal { IfOk result (λ r. IsOpenAt options.now.journal r.1 string_bytes
        (λ journal. string_bytes journal.path)) }
{
    let Some(path) = &options.journal else {
        return Ok((plan, None));
    };
    report_other_trace(rt, log, options, path.as_str());
    let ServePlan {
        bounds,
        password,
        recorder,
        input,
    } = plan;
    match open_journal(rt, log, path.as_str(), recorder, journal_options(&bounds)) {
        Ok((journal, recorder)) => Ok((
            ServePlan {
                bounds,
                password,
                recorder,
                input,
            },
            Some(journal),
        )),
        Err(fault) => Err(fault),
    }
}

// Returns the server of a plan that listens, once its relay is given the supply output.
fn ready(
    rt: &HostRuntime,
    log: &Log,
    options: &ServeOptions,
    plan: ServePlan<Stdin>,
    journal: Option<OpenJournal<HostRuntime>>,
    listening: (TcpListener, SocketAddr),
) -> Result<Server, Fault>
    ensures plan { IfOk result (λ server. server.plan ≡ plan) }
    ensures journal { IfOk result (λ server. server.outputs.journal ≡ journal) }
    ensures relay { IfOk result (λ server. IsOpenAt options.now.relay server.outputs.relay
        string_bytes (λ relay. string_bytes relay.path)) }
    ensures state { IfOk result (λ server. IfSome server.outputs.relay (λ opened. (w : World)
        → StandsFor plan.recorder.core w → opened.relay.is_on ≡ is_on w)) }
{
    let (listener, address) = listening;
    let relay = RelayOptions {
        path: options.relay.as_deref(),
        mode: mode_of(&options.bounds),
        is_verbose: options.bounds.is_verbose,
    };
    let path = match &journal {
        Some(journal) => Some(journal.path.as_str()),
        None => None,
    };
    match open_relay(rt, log, relay, plan.recorder.core(), path) {
        Ok(relay) => Ok(Server {
            plan,
            outputs: ServerOutputs { journal, relay },
            listener,
            address,
        }),
        Err(fault) => {
            drop(plan);
            drop(journal);
            Err(fault)
        }
    }
}

// Says that a server without a journal loses its trace if it is killed, if somebody reads it:
// standard error is a terminal, or `--verbose` is given.
fn report_no_journal(rt: &HostRuntime, log: &Log, options: &ServeOptions) {
    if options.journal.is_some() || !(options.bounds.is_verbose || rt.stderr().is_terminal()) {
        return;
    }
    let now = LogTime::now(rt);
    let _ = eprintln!(log;
        "{now} no journal: if the server is killed, its trace and the meter's state are lost"
    );
}

// Prepares a server up to the first client: validates the options, reads the trace to resume from,
// opens the journal, listens, and opens the relay. The server has the limits and the password of
// the options, a journal if they name one, at their path, and a relay if they name one, at theirs,
// which was given the supply output of the server's meter.
pub(crate) fn begin(rt: &HostRuntime, log: &Log, options: &ServeOptions) -> Result<Server, Fault>
    ensures bounds { IfOk result (λ server. server.plan.bounds ≡ options.now.bounds) }
    ensures password { IfOk result
        (λ server. server.plan.password ≡ string_bytes options.now.password) }
    ensures journal { IfOk result (λ server. IsOpenAt options.now.journal server.outputs.journal
        string_bytes (λ journal. string_bytes journal.path)) }
    ensures relay { IfOk result (λ server. IsOpenAt options.now.relay server.outputs.relay
        string_bytes (λ relay. string_bytes relay.path)) }
    ensures state { IfOk result (λ server. IfSome server.outputs.relay (λ opened. (w : World)
        → StandsFor server.plan.recorder.core w → opened.relay.is_on ≡ is_on w)) }
{
    let plan = plan_server(rt, log, options)?;
    report_other_name(rt, log, options, &plan.recorder);
    let (plan, journal) = with_journal(rt, log, options, plan)?;
    match listen_on(rt, log, options.address.as_str(), options.bounds.is_verbose) {
        Ok(listening) => {
            report_no_journal(rt, log, options);
            ready(rt, log, options, plan, journal, listening)
        }
        Err(fault) => {
            drop(plan);
            drop(journal);
            Err(fault)
        }
    }
}
