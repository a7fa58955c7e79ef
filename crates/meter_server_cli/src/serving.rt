//! The command `serve`: a meter that clients reach over TCP.
ghost use Rattle.std.specs.Prelude.{◌≡◌, OnOk, length};
ghost use Rattle.acse_ber.specs.Password.{IsPassword};
ghost use Rattle.meter_server_cli.specs.Endings.{PrintsTrace, sampler_port};

use crate::ending::{Ends, run_fault};
use crate::journal::{ServerEnd, ServerOutputs, run_with_outputs};
use crate::listening::Listening;
use crate::starting::Server;
use cosem_axdr::Octets;
use counted_io::Monitored;
use meter_console::{
    ClockGuard, Console, ConsoleBlocks, ConsoleEnd, ConsoleMoments, ConsolePresses, ConsoleSources,
    Reading, ReportedMoments,
};
use meter_run::Sources;
use program::Fault;
use relay_recorder::Recorder;
use server_commands::{Bounds, ServePlan};
use server_io::{Closing, Sockets, Stopped, StreamLimits};
use session_log::Log;
use std::alloc::{AllocError, Global};
use std::fs::{File, Files};
use std::io::{BufReader, Stdin, Write};
use std::net::{SocketAddr, TcpListener};
use std::sync::atomic::AtomicBool;
use std::sync::{Arc, Wait};
use std::thread::{JoinHandle, Threads};
use std::time::Clock;

// The parameters of the clients.
#[derive(Drop)]
pub(crate) struct ClientParameters {
    // The password of the management client.
    pub(crate) password: Octets,
    // The number of connections to accept; 0 means no limit.
    pub(crate) connections: u64,
    ghost sized: { IsPassword password },
}

// Returns the source of clients, and two handles of the flag that ends the listening.
fn make_sockets(
    rt: &HostRuntime,
    log: &Log,
    bounds: Bounds,
    listener: TcpListener,
) -> Result<(Sockets<HostRuntime>, Stopped, Stopped), AllocError> {
    let stopped = Arc::new(rt.alloc(), AtomicBool::new(false))?;
    let second = Arc::try_clone(&stopped)?;
    let theirs = Arc::try_clone(&stopped)?;
    let limits = StreamLimits::from_seconds(bounds.inactivity, bounds.session);
    let sockets = Sockets::new(
        *rt,
        log.share()?,
        rt.alloc(),
        listener,
        limits,
        theirs,
        bounds.is_verbose,
    )?;
    Ok((sockets, stopped, second))
}

// A meter that is to be served.
#[derive(Drop)]
pub(crate) struct ServedMeter<R> {
    pub(crate) recorder: Recorder,
    // The sources of its own events.
    pub(crate) sources: ConsoleSources<R>,
    // Where schedules that ran are reported.
    pub(crate) log: Log,
    pub(crate) clients: ClientParameters,
}

// The sources of a meter's own events.
type MeterSources<R> = Sources<
    ConsoleBlocks<R>,
    ReportedMoments<ConsoleMoments<R>, Log>,
    ConsolePresses<R>,
>;

// Returns the sources of a console as those of a meter. Schedules that ran are reported.
pub(crate) fn meter_sources<R: Wait + Copy + Drop + Send>(
    sources: ConsoleSources<R>,
    log: Log,
) -> MeterSources<R> {
    let ConsoleSources {
        blocks,
        moments,
        presses,
    } = sources;
    Sources {
        blocks,
        moments: ReportedMoments::new(moments, log),
        buttons: presses,
    }
}

// The input of the console's thread.
type ConsoleReading<R> = Reading<
    R,
    BufReader<Monitored<Stdin>>,
    HostRuntime,
    Log,
    Closing<HostRuntime>,
>;

// What holds back moments that are far ahead of the meter's last one.
fn guard_of(
    rt: &HostRuntime,
    log: &Log,
    bounds: Bounds,
    last: Option<u32>,
) -> Result<ClockGuard<HostRuntime, Log>, AllocError> {
    Ok(ClockGuard {
        clock: *rt,
        errors: log.share()?,
        last,
        accepts_steps: bounds.accepts_clock_steps,
        held_back: 0,
    })
}

// The parts of a server before its console's thread is started.
#[derive(Drop)]
struct Prepared<R> {
    listening: Listening<R>,
    sources: ConsoleSources<R>,
    reports: Log,
    reading: ConsoleReading<R>,
    end: ServerEnd<R>,
}

// Returns what ends the listening at an address, if there is one.
fn closing_of(
    rt: &HostRuntime,
    stopped: Stopped,
    address: Option<SocketAddr>,
) -> Closing<HostRuntime> {
    Closing {
        rt: *rt,
        stopped,
        address,
    }
}

// The input of a console, and the last moment of its meter.
#[derive(Drop)]
struct MeterConsole {
    lines: BufReader<Monitored<Stdin>>,
    last: Option<u32>,
}

// Prepares the sockets, the sources of the meter's own events, the input of the console's thread,
// and what ends them.
fn prepare<R: Wait + Copy + Drop>(
    rt: &HostRuntime,
    threads: &R,
    log: &Log,
    bounds: Bounds,
    input: MeterConsole,
    listening: (TcpListener, SocketAddr),
) -> Result<Prepared<R>, AllocError> {
    let (listener, address) = listening;
    let (sockets, stopped, second) = make_sockets(rt, log, bounds, listener)?;
    let (console, sources) = Console::new(threads, rt.alloc())?;
    let listening = Listening {
        sockets,
        sources: console.sources_end()?,
    };
    let end = ServerEnd {
        log: log.share()?,
        closing: closing_of(rt, second, Some(address)),
        sources: console.sources_end()?,
    };
    let address = if bounds.stops_with_input {
        Some(address)
    } else {
        None
    };
    let reading = Reading {
        input: input.lines,
        console,
        errors: log.share()?,
        guard: guard_of(rt, log, bounds, input.last)?,
        is_verbose: bounds.is_verbose,
        ended: closing_of(rt, stopped, address),
    };
    Ok(Prepared {
        listening,
        sources,
        reports: log.share()?,
        reading,
        end,
    })
}

// A server whose console's thread is running.
#[derive(Drop)]
struct Running<R> {
    log: Log,
    listening: Listening<R>,
    sources: ConsoleSources<R>,
    // Where schedules that ran are reported.
    reports: Log,
    console: JoinHandle<ConsoleEnd>,
    end: ServerEnd<R>,
}

// Starts the console's thread, and returns the sockets, the sources of the meter's own events, and
// what ends them.
fn start_server<R: Threads + Wait + Copy + Drop + Send + 'static>(
    rt: &HostRuntime,
    threads: &R,
    log: &Log,
    bounds: Bounds,
    input: MeterConsole,
    listening: (TcpListener, SocketAddr),
) -> Result<Running<R>, Fault> {
    let Ok(prepared) = prepare(rt, threads, log, bounds, input, listening) else {
        return Err(Fault::Memory);
    };
    let Ok(log) = log.share() else {
        return Err(Fault::Memory);
    };
    let Prepared {
        listening,
        sources,
        reports,
        reading,
        end,
    } = prepared;
    match meter_console::start(threads, rt.alloc(), reading) {
        Some(console) => Ok(Running {
            log,
            listening,
            sources,
            reports,
            console,
            end,
        }),
        None => Err(Fault::Memory),
    }
}

// Runs the meter with the outputs of its events, and prints its trace. Returns the results of
// serving, of the journal and the relay, and of printing. It is generic over what stores files:
// over a certain one its proof takes minutes.
fn serve_and_print<
    S: Clock + Files<File = File> + Copy + Drop + Send + 'static,
    R: Threads + Wait + Copy + Drop + Send + 'static,
    W: Write,
>(
    rt: &HostRuntime,
    threads: &R,
    output: &mut W,
    server: (Listening<R>, ServerEnd<R>),
    meter: ServedMeter<R>,
    outputs: ServerOutputs<S>,
) -> (Result<(), Fault>, Result<(), Fault>, Result<(), Fault>)
where
    S::Dir: Send + 'static,
    requires { length meter.recorder.events ≡ 0 }
    ensures printed { OnOk result.2 (OnOk result.0
        (PrintsTrace (sampler_port outputs.journal outputs.relay) meter.clients.connections
        meter.recorder meter.clients.password (W.contents output.old) (W.contents output.new))) }
{
    let (mut listening, end) = server;
    let (served, kept, printed) = run_with_outputs(
        rt,
        threads,
        output,
        &mut listening,
        meter,
        outputs,
        end,
    );
    (
        run_fault(served, listening.sockets.has_failed()),
        kept,
        printed,
    )
}

// Serves the clients of a server whose console's thread is running, and prints the trace of the
// meter at the end.
fn serve_running<R: Threads + Wait + Copy + Drop + Send + 'static, W: Write>(
    rt: &HostRuntime,
    threads: &R,
    output: &mut W,
    running: Running<R>,
    recorder: Recorder,
    outputs: ServerOutputs<HostRuntime>,
    clients: ClientParameters,
) -> Result<(), Fault>
    requires { length recorder.events ≡ 0 }
    ensures { OnOk result (PrintsTrace (sampler_port outputs.journal outputs.relay)
        clients.connections recorder clients.password (W.contents output.old)
        (W.contents output.new)) }
{
    let Running {
        log,
        listening,
        sources,
        reports,
        console,
        end,
    } = running;
    let meter = ServedMeter {
        recorder,
        sources,
        log: reports,
        clients,
    };
    let server = (listening, end);
    let (served, kept, printed) = serve_and_print(rt, threads, output, server, meter, outputs);
    if matches!(printed, Err(Fault::Write)) {
        let _ = eprintln!(log; "standard output: a write failed");
    }
    // (if there was no fault, the sources have ended, and so has the console)
    let console = if served.is_ok() && kept.is_ok() {
        Some(console.join(threads))
    } else {
        None
    };
    Ends {
        served,
        journal: kept,
        console,
        printed,
    }
    .first_fault()
}

// Serves clients in parallel with the lines of the console, and prints the trace of the meter at
// the end.
pub(crate) fn run<R: Threads + Wait + Copy + Drop + Send + 'static, W: Write>(
    rt: &HostRuntime,
    threads: &R,
    log: &Log,
    output: &mut W,
    server: Server,
) -> Result<(), Fault>
    ensures { OnOk result (PrintsTrace (sampler_port server.outputs.journal server.outputs.relay)
        server.plan.bounds.connections server.plan.recorder server.plan.password
        (W.contents output.old) (W.contents output.new)) }
{
    let Server {
        plan,
        outputs,
        listener,
        address,
    } = server;
    let ServePlan {
        bounds,
        password,
        recorder,
        input,
    } = plan;
    let input = MeterConsole {
        lines: input,
        last: recorder.core().last_moment(),
    };
    match start_server(rt, threads, log, bounds, input, (listener, address)) {
        Ok(running) => {
            let clients = ClientParameters {
                password,
                connections: bounds.connections,
            };
            serve_running(rt, threads, output, running, recorder, outputs, clients)
        }
        Err(fault) => {
            drop(recorder);
            drop(outputs);
            Err(fault)
        }
    }
}
