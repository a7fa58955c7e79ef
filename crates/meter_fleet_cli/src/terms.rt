//! What the meters of a fleet are made of: the traces that they continue from, the passwords and
//! the number of events that a meter keeps.
ghost use Rattle.std.specs.Prelude.{IfOk};
ghost use Rattle.acse_ber.specs.Password.{IsPassword};
ghost use Rattle.relay_recorder.specs.Recording.{IsCapacity};

use crate::traces::{read_trace_file, report_wrong_trace, trace_in_mode};
use acse_ber::MAX_PASSWORD;
use clap::ArgMatches;
use clap::error::ErrorKind;
use cosem_axdr::Octets;
use fleet_faults::FaultPlan;
use fleet_meters::{FleetTerms, MeterTerms};
use program::{Fault, environment_password, password_line, read_password_file};
use relay_recorder::MAX_CAPACITY;

// The control mode in which a meter refuses every remote disconnection and reconnection.
const REFUSING_MODE: u8 = 0;

// Returns the password of the environment. Errors: `Input` if there is none, or it is not UTF-8,
// with a line on standard error; `Memory`.
fn required_password(rt: &HostRuntime) -> Result<String, Fault> {
    if let Some(text) = environment_password(rt)? {
        return Ok(text);
    }
    if let Some(line) = password_line(ErrorKind::MissingRequiredArgument) {
        let _ = eprintln!(rt; "{line}");
    }
    Err(Fault::Input)
}

// Returns the bytes of a password. Errors: `Input` if they are not 1 to 32, with a line on standard
// error; `Memory`.
fn check_password(rt: &HostRuntime, text: &str) -> Result<Octets, Fault>
    ensures { IfOk result IsPassword }
{
    let bytes = text.as_bytes();
    if bytes.is_empty() || bytes.len() > MAX_PASSWORD {
        let _ = eprintln!(rt; "password: must be 1 to 32 bytes");
        return Err(Fault::Input);
    }
    match Octets::from_slice(rt.alloc(), bytes) {
        Ok(password) => Ok(password),
        Err(_) => Err(Fault::Memory),
    }
}

// Returns the password of the command line, else that of the file that it names, else that of the
// environment.
fn find_password(rt: &HostRuntime, matches: &ArgMatches<'_>) -> Result<Octets, Fault>
    ensures { IfOk result IsPassword }
{
    if let Some(text) = matches.get_str("password") {
        return check_password(rt, text);
    }
    let text = match matches.get_str("password-file") {
        Some(path) => read_password_file(rt, path)?,
        None => required_password(rt)?,
    };
    check_password(rt, text.as_str())
}

// Returns the trace that all meters continue from, but for those that refuse: that of the file of
// `--resume`, or that of a new meter.
fn first_trace(rt: &HostRuntime, matches: &ArgMatches<'_>) -> Result<Octets, Fault> {
    match matches.get_str("resume") {
        Some(path) => read_trace_file(rt, path),
        None => {
            let mode = matches.get_one::<u8>("mode").unwrap_or(0);
            trace_in_mode(rt.alloc(), mode).map_err(|_| Fault::Memory)
        }
    }
}

// Returns the number of events that a meter keeps.
fn depth(matches: &ArgMatches<'_>) -> u16
    ensures { IsCapacity result }
{
    let depth = matches.get_one::<u16>("depth").unwrap_or(1);
    depth.clamp(1, MAX_CAPACITY)
}

// Returns what all meters have in common that have no fault of their own.
fn common_terms(rt: &HostRuntime, matches: &ArgMatches<'_>) -> Result<MeterTerms, Fault> {
    let password = find_password(rt, matches)?;
    let trace = match first_trace(rt, matches) {
        Ok(trace) => trace,
        Err(fault) => {
            drop(password);
            return Err(fault);
        }
    };
    match MeterTerms::from_trace(rt.alloc(), trace, password, depth(matches)) {
        Ok(terms) => Ok(terms),
        Err(fault) => {
            let path = matches.get_str("resume").unwrap_or("");
            Err(report_wrong_trace(rt, path, fault))
        }
    }
}

/// Returns what each meter is made of, where `plan` has its fault. Errors: `Input` if the password
/// is missing, is not UTF-8 or is not 1 to 32 bytes; those of its file and of the file of
/// `--resume`, with a line on standard error; `Memory`.
pub(crate) fn fleet_terms(
    rt: &HostRuntime,
    matches: &ArgMatches<'_>,
    plan: FaultPlan,
) -> Result<FleetTerms, Fault> {
    let common = common_terms(rt, matches)?;
    let refusing = match trace_in_mode(rt.alloc(), REFUSING_MODE) {
        Ok(trace) => trace,
        Err(_) => {
            drop(common);
            return Err(Fault::Memory);
        }
    };
    match FleetTerms::new(rt.alloc(), common, refusing, plan) {
        Ok(terms) => Ok(terms),
        Err(_) => Err(Fault::Memory),
    }
}
