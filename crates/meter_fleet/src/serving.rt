//! `serve_fleet`: the whole run of a fleet.
ghost use Rattle.meter_fleet.specs.Rounds.{ServesUntil, ServesBy};

use crate::network::{Network, NetworkFault};
use crate::rounds::Rounds;
use fleet_meters::{Fleet, FleetTerms};
use std::alloc::Global;
use std::sync::Wait;
use thiserror::Error;

/// Why a fleet ended.
#[derive(Clone, Copy, Debug, PartialEq, Eq, Error)]
pub enum FleetFault {
    /// The network cannot wait for further events.
    #[error("{0}")]
    Network(NetworkFault),
    /// Out of memory.
    #[error("out of memory")]
    Memory,
}

// Serves clients until the network fails or memory runs out.
fn serve<R: Wait, N: Network>(
    rt: &R,
    alloc: Global,
    network: &mut N,
    fleet: &mut Fleet<N::Stream>,
) -> FleetFault
    ensures { ServesUntil (N.log network.old) fleet.old result (N.log network.new) fleet.new }
{
    match Rounds::new(alloc) {
        Ok(mut rounds) => {
            'rounds: for _ in rt.forever() {
                match rounds.run(alloc, network, fleet) {
                    Ok(()) => {}
                    Err(fault) => return fault,
                }
            }
            unreachable!()
        }
        Err(_) => FleetFault::Memory,
    }
}

/// Serves the clients of `count` meters with these terms until the network fails or memory runs
/// out. The address that a client names is its meter: 127.0.0.1 is meter 1.
pub fn serve_fleet<R: Wait, N: Network>(
    rt: &R,
    alloc: Global,
    network: &mut N,
    terms: FleetTerms,
    count: usize,
) -> FleetFault
    ensures { ServesBy terms count (N.log network.old) result (N.log network.new) }
{
    match Fleet::new(alloc, terms, count) {
        Ok(mut fleet) => {
            let fault = serve(rt, alloc, network, &mut fleet);
            drop(fleet);
            fault
        }
        Err(_) => FleetFault::Memory,
    }
}
