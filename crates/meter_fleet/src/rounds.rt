//! `Rounds`: one round after the other: closes idle connections, gives events to meters, accepts
//! clients and serves connections.
ghost use Rattle.std.specs.Prelude.{◌≡◌, ◌==◌, ◌&&◌, [], false, not, IfOk, length};
ghost use Rattle.meter_fleet.specs.Rounds.{frame_bytes};

use crate::clients::accept_clients;
use crate::connections::serve_ready;
use crate::idle::close_idle;
use crate::network::Network;
use crate::serving::FleetFault;
use fleet_links::Stream;
use fleet_meters::Fleet;
use std::alloc::{AllocError, Global};
use std::mem::swap;

// The size of the buffer for arriving bytes.
const INPUT_BYTES: usize = 4_096;

// The size of the buffer for frames: a header of 8 bytes and a payload of at most 65,535 bytes.
const FRAME_BYTES: usize = 65_543;

// What the loop keeps between two rounds.
#[derive(Drop)]
pub(crate) struct Rounds {
    // The keys of the connections that may continue at once.
    ready: Vec<usize>,
    // An empty list.
    next: Vec<usize>,
    // The keys of the connections that were idle for too long in the last round.
    idle: Vec<usize>,
    // Whether clients may be waiting.
    has_clients: bool,
    input: [u8; INPUT_BYTES],
    frame: Vec<u8>,
}

impl Rounds {
    ghost use Rattle.meter_fleet.specs.Rounds.{RoundBy, ServesAll};

    // Returns the buffers of a loop that has not begun.
    pub(crate) fn new(alloc: Global) -> Result<Rounds, AllocError>
        ensures empty { IfOk result (λ r. r.next.items ≡ []) }
        ensures room { IfOk result (λ r. length r.frame.items ≡ frame_bytes) }
        ensures idle { IfOk result (λ r. (r.ready.items ≡ []) × (r.has_clients ≡ false)) }
    {
        Ok(Rounds {
            ready: Vec::new(alloc),
            next: Vec::new(alloc),
            idle: Vec::new(alloc),
            has_clients: false,
            input: [0; INPUT_BYTES],
            frame: vec![in alloc; 0; FRAME_BYTES]?,
        })
    }

    // Waits for the network, unless there is work left, and does one round of work.
    pub(crate) fn run<N: Network>(
        &mut self,
        alloc: Global,
        network: &mut N,
        fleet: &mut Fleet<N::Stream>,
    ) -> Result<(), FleetFault>
        requires empty { self.now.next.items ≡ [] }
        requires room { length self.now.frame.items ≡ frame_bytes }
        ensures empty { IfOk result (λ _. self.new.next.items ≡ []) }
        ensures room { IfOk result (λ _. length self.new.frame.items ≡ frame_bytes) }
        ensures round { RoundBy
            (record {
              log = N.log network.old;
              fleet = fleet.old;
              ready = self.old.ready.items;
              has_clients = self.old.has_clients;
            }) result
            (record {
              log = N.log network.new;
              fleet = fleet.new;
              ready = self.new.ready.items;
              has_clients = self.new.has_clients;
            }) }
    {
        self.idle.clear();
        match network.wait(self.may_wait(), &mut self.ready, &mut self.idle) {
            Ok(has_clients) => {
                close_idle(fleet, self.idle.as_slice());
                network.operate(alloc, fleet);
                let is_due = self.has_clients | has_clients;
                self.has_clients = accept_clients(alloc, network, fleet, is_due);
                self.serve(alloc, fleet)
            }
            Err(fault) => Err(FleetFault::Network(fault)),
        }
    }

    // Returns whether nothing is left to do.
    fn may_wait(&self) -> bool
        ensures { result ≡ (length self.now.ready.items == 0) && not self.now.has_clients }
    {
        self.ready.is_empty() && !self.has_clients
    }

    // Serves the connections that are ready.
    fn serve<S: Stream + Drop>(
        &mut self,
        alloc: Global,
        fleet: &mut Fleet<S>,
    ) -> Result<(), FleetFault>
        requires empty { self.now.next.items ≡ [] }
        requires room { length self.now.frame.items ≡ frame_bytes }
        ensures empty { IfOk result (λ _. self.new.next.items ≡ []) }
        ensures room { IfOk result (λ _. length self.new.frame.items ≡ frame_bytes) }
        ensures clients { self.new.has_clients ≡ self.old.has_clients }
        ensures serves { ServesAll fleet.old self.old.ready.items result self.new.ready.items
            fleet.new }
    {
        let ready = self.ready.as_slice();
        serve_ready(
            alloc,
            fleet,
            ready,
            &mut self.next,
            &mut self.input,
            &mut self.frame,
        )?;
        self.ready.clear();
        swap(&mut self.ready, &mut self.next);
        Ok(())
    }
}
