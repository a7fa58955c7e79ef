//! The program `meter_server`: `meter_server serve` is a meter that clients reach over TCP,
//! `meter_server apdu` responds to requests in hexadecimal, one per line, and `meter_server hex`
//! runs a client's session.
//!
//! `server_commands` reads the command line and has `apdu` and `hex`; `meter_run`, `meter_console`,
//! `server_io` and `server_files` have the parts of `serve`; this crate connects them to the
//! standard streams, the threads and the exit status.
#![tactic(auto)]

mod ending;
mod journal;
mod listening;
mod messages;
mod serving;
mod starting;
mod streams;

use counted_io::Counted;
use program::{Fault, exit_code};
use server_commands::{
    HexOptions, ServeOptions, Work, answer_text, parse_command_line, play_text, report_fault,
};
use session_log::start_log;
use std::process::ExitCode;
use std::sync::Wait;
use std::thread::Threads;
use streams::fill_streams;

// The next step after the command line is read.
#[derive(Drop)]
enum ServerCommand {
    // Nothing more to do; exit with this status.
    Ended(u8),
    // Serve clients with these options.
    Serve(ServeOptions),
}

// Runs `apdu`: responds to the requests of standard input on standard output.
fn run_apdu(rt: &HostRuntime) -> Result<(), Fault> {
    let mut input = Counted::new(rt.stdin());
    let mut output = Counted::new(rt.stdout());
    match answer_text(rt.alloc(), &mut input, &mut output) {
        Ok(()) => Ok(()),
        Err(fault) => Err(report_fault(rt, fault)),
    }
}

// Runs `hex`: serves the session of standard input on standard output.
fn run_hex(rt: &HostRuntime, options: &HexOptions) -> Result<(), Fault> {
    let mut input = Counted::new(rt.stdin());
    let mut output = Counted::new(rt.stdout());
    let password = options.password.as_str();
    let device = options.device.as_str();
    match play_text(rt.alloc(), &mut input, &mut output, password, device) {
        Ok(()) => Ok(()),
        Err(fault) => Err(report_fault(rt, fault)),
    }
}

// Reads the command line and performs its work, unless that is to serve clients.
fn begin(rt: &HostRuntime) -> Result<ServerCommand, Fault> {
    match parse_command_line(rt)? {
        Work::Exit(status) => Ok(ServerCommand::Ended(status)),
        Work::Apdu => {
            run_apdu(rt)?;
            Ok(ServerCommand::Ended(0))
        }
        Work::Hex(options) => {
            run_hex(rt, &options)?;
            Ok(ServerCommand::Ended(0))
        }
        Work::Serve(options) => Ok(ServerCommand::Serve(options)),
    }
}

// Serves clients, with a log that never makes the meter wait, and in which a fault has its line.
// Returns the exit status.
fn serve<R: Threads + Wait + Copy + Drop + Send + 'static>(
    rt: &HostRuntime,
    threads: &R,
    options: &ServeOptions,
) -> ExitCode {
    let streams = fill_streams(rt, rt.alloc());
    let Ok(log) = start_log(rt, threads, rt.alloc(), rt.stderr()) else {
        return exit_code(rt, Err(Fault::Memory));
    };
    let done = match starting::begin(rt, &log, options) {
        Ok(server) => serving::run(rt, threads, &log, &mut rt.stdout(), server),
        Err(fault) => Err(fault),
    };
    let code = exit_code(&log, done.map(|()| 0));
    log.end();
    drop(streams);
    code
}

fn main(rt: HostRuntime) -> ExitCode {
    match begin(&rt) {
        Ok(ServerCommand::Ended(status)) => ExitCode::from(status),
        Ok(ServerCommand::Serve(options)) => serve(&rt, &rt, &options),
        Err(fault) => exit_code(&rt, Err(fault)),
    }
}
