//! The program `meter_fleet`: many meters in one process, each at its own loopback address.
//!
//! `meter_fleet` has the loop, `fleet_sockets` the sockets, `fleet_meters` the meters and their
//! connections; this crate has the command line and the exit status.
#![tactic(auto)]

mod arguments;
mod faults;
mod serving;
mod terms;
mod traces;

use crate::arguments::command_line;
use program::{Fault, exit_code, print_help_or_error, read_arguments};
use std::net::Net;
use std::process::ExitCode;
use std::sync::Wait;

// Reads the command line and serves clients, until that fails. Returns the exit status of a command
// line without work: 2 if it is not valid.
fn run<N: Net + Wait>(rt: &HostRuntime, net: &N) -> Result<u8, Fault> {
    let words = read_arguments(rt)?;
    let command = command_line(rt.alloc()).map_err(|_| Fault::Memory)?;
    match command.try_get_matches_from(words.as_slice()) {
        Ok(matches) => match matches.subcommand() {
            Some(("serve", matches)) => serving::serve(rt, net, matches),
            _ => Err(Fault::Input),
        },
        Err(error) => print_help_or_error(rt, &error),
    }
}

fn main(rt: HostRuntime) -> ExitCode {
    exit_code(&rt, run(&rt, &rt))
}
