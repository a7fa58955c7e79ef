//! Accepts the clients that are waiting.
ghost use Rattle.meter_fleet.specs.Rounds.{AcceptsClients, AcceptsOne, AdmitsAt};
ghost use Rattle.fleet_links.specs.Addresses.{meter_of};

use crate::network::{Network, NextClient};
use fleet_links::{Stream, meter_at};
use fleet_meters::Fleet;
use std::alloc::Global;

// The maximum number of connections that are accepted in a round.
const MAX_ACCEPTED: u16 = 4_096;

// Accepts the clients that are waiting, if `is_due`. Returns whether more may be waiting.
pub(crate) fn accept_clients<N: Network>(
    alloc: Global,
    network: &mut N,
    fleet: &mut Fleet<N::Stream>,
    is_due: bool,
) -> bool
    ensures { AcceptsClients is_due (N.log network.old) fleet.old result (N.log network.new)
        fleet.new }
{
    if !is_due {
        return false;
    }
    'clients: for _ in 0..MAX_ACCEPTED {
        if !accept_client(alloc, network, fleet) {
            return false;
        }
    }
    true
}

// Accepts a client, and admits it to the meter at the address that it named. Returns whether a
// client was waiting, even if its connection was closed at once.
fn accept_client<N: Network>(alloc: Global, network: &mut N, fleet: &mut Fleet<N::Stream>) -> bool
    ensures { AcceptsOne (N.log network.old) fleet.old result (N.log network.new) fleet.new }
{
    match network.accept(fleet.next_key()) {
        NextClient::Client(stream, address) => {
            admit(alloc, fleet, stream, address);
            true
        }
        NextClient::Closed => true,
        NextClient::None => false,
    }
}

// Admits a client to the meter at the address that it named. Otherwise closes its connection, on
// which no byte was sent.
fn admit<S: Stream + Drop>(alloc: Global, fleet: &mut Fleet<S>, stream: S, address: [u8; 4])
    ensures { AdmitsAt fleet.old fleet.old.clients.vacant_key (S.state stream) (meter_of address)
        fleet.new }
{
    match meter_at(address) {
        Some(number) => match fleet.admit(alloc, number, stream) {
            Ok(_key) => {}
            Err(refused) => drop(refused),
        },
        None => drop(stream),
    }
}
