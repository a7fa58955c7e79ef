//! The command `serve`: meters that clients reach over TCP.
use crate::faults::fault_plan;
use crate::terms::fleet_terms;
use clap::ArgMatches;
use fleet_console::FleetConsole;
use fleet_faults::FaultPlan;
use fleet_sockets::{FleetSockets, TimeLimits};
use meter_fleet::{FleetFault, NetworkFault, serve_fleet};
use program::Fault;
use std::io::ErrorKind;
use std::net::{IpAddr, Net, SocketAddr};
use std::sync::Wait;

// Returns the address of the command line, or `None` if its host is not an IP address.
fn address_of(matches: &ArgMatches<'_>) -> Option<SocketAddr> {
    let port = matches.get_one::<u16>("port")?;
    match matches.get_str("listen")?.parse::<IpAddr>() {
        Ok(host) => Some(SocketAddr::new(host, port)),
        Err(_) => None,
    }
}

// Returns why the fleet cannot listen.
fn why_not_listening(kind: ErrorKind) -> &'static str {
    match kind {
        ErrorKind::AddrInUse => "the address is in use",
        ErrorKind::AddrNotAvailable => "the address is not one of this machine",
        ErrorKind::PermissionDenied => "permission denied",
        ErrorKind::OutOfMemory => "out of memory",
        _ => "listening failed",
    }
}

// Returns the fault of a fleet that cannot listen.
fn listen_fault(kind: ErrorKind) -> Fault {
    match kind {
        ErrorKind::OutOfMemory => Fault::Memory,
        _ => Fault::Listen,
    }
}

// Listens on the address of the command line. Reports on standard error why the fleet cannot listen
// on it or, if `--verbose` is given, the address.
fn listen<'a, N: Net>(
    rt: &'a HostRuntime,
    net: &N,
    matches: &ArgMatches<'_>,
    plan: FaultPlan,
) -> Result<FleetSockets<&'a HostRuntime>, Fault> {
    let Some(address) = address_of(matches) else {
        let _ = eprintln!(rt; "listen: expected an IP address");
        return Err(Fault::Input);
    };
    let limits = TimeLimits {
        inactivity: matches.get_one::<u32>("inactivity").unwrap_or(0),
        session: matches.get_one::<u32>("session").unwrap_or(0),
    };
    let console = FleetConsole::new(rt.alloc(), rt.stdin(), rt.stdout(), rt);
    match FleetSockets::bind(rt, net, rt.alloc(), address, limits, plan, console) {
        Ok(sockets) => {
            if matches.get_flag("verbose") {
                report_address(rt, &sockets);
            }
            Ok(sockets)
        }
        Err(error) => {
            let why = why_not_listening(error.kind());
            let _ = eprintln!(rt; "{address}: {why}");
            Err(listen_fault(error.kind()))
        }
    }
}

// Reports on standard error the address that the fleet listens on.
fn report_address(rt: &HostRuntime, sockets: &FleetSockets<&HostRuntime>) {
    if let Ok(address) = sockets.local_addr() {
        let _ = eprintln!(rt; "listening on {address}");
    }
}

// Serves the clients of the meters until that fails. Errors: `Input` if a fault, the password, the
// trace or the address is not valid, `Read`, `Listen`, `Memory`.
pub(crate) fn serve<N: Net + Wait>(
    rt: &HostRuntime,
    net: &N,
    matches: &ArgMatches<'_>,
) -> Result<u8, Fault> {
    let meters = matches.get_one::<u32>("meters").unwrap_or(1);
    let plan = fault_plan(rt, matches)?;
    let terms = fleet_terms(rt, matches, plan)?;
    match listen(rt, net, matches, plan) {
        Ok(mut sockets) => {
            let fault = serve_fleet(net, rt.alloc(), &mut sockets, terms, meters as usize);
            Err(match fault {
                FleetFault::Network(NetworkFault::Failed) => Fault::Listen,
                FleetFault::Network(NetworkFault::Memory) | FleetFault::Memory => Fault::Memory,
            })
        }
        Err(fault) => {
            drop(terms);
            Err(fault)
        }
    }
}
