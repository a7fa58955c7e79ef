//! `FleetClient`: a connection with the place of its meter.
ghost use Rattle.std.specs.Prelude.{◌≡◌, ◌≢◌, ◌<◌, [], None, length};
ghost use Rattle.embedded_meter.specs.MeterStates.{dialogue_at};
ghost use Rattle.fleet_meters.specs.Clients.{ClientTurns};

use embedded_meter::SupplyMeter;
use fleet_links::{FleetLink, Stream, Turn};
use std::alloc::Global;
use std::marker::Model;

/// A connection with the place of its meter in the fleet.
#[derive(Drop)]
pub struct FleetClient<S: Stream + Drop> {
    link: FleetLink<S>,
    place: usize,
}

impl<S: Stream + Drop> Model for FleetClient<S> {
    ghost use Rattle.std.specs.Coded.{codes};
    ghost use Rattle.fleet_meters.specs.Clients.{ClientState};

    ghost Value = { ClientState };

    ghost coded = { Prim.hlevel (codes) };

    ghost view = { λ c. record {
      place = c.place;
      number = c.link.number;
      stream = S.state c.link.stream;
      pending = c.link.pending.items;
    } };
}

impl<S: Stream + Drop> FleetClient<S> {
    // Returns a connection that has written nothing.
    pub(crate) fn new(alloc: Global, stream: S, place: usize, number: u8) -> FleetClient<S>
        ensures { result ≡ record {
          place = place;
          number = number;
          stream = S.state stream;
          pending = [];
        } }
    {
        FleetClient {
            link: FleetLink::new(alloc, stream, number),
            place,
        }
    }

    // Returns the place of the connection's meter.
    pub(crate) fn place(&self) -> usize
        ensures { result ≡ self.now.place }
    {
        self.place
    }

    // Returns the number of the connection's session.
    pub(crate) fn number(&self) -> u8
        ensures { result ≡ self.now.number }
    {
        self.link.number
    }

    // Returns the stream of the connection, and drops the bytes that were not written.
    pub(crate) fn into_stream(self) -> S
        ensures { S.state result ≡ self.stream }
    {
        self.link.into_stream()
    }

    // Runs the connection with its meter.
    pub(crate) fn turn(
        &mut self,
        alloc: Global,
        meter: &mut SupplyMeter,
        input: &mut [u8],
        frame: &mut [u8],
    ) -> Turn
        requires is_open { dialogue_at meter.now self.now.number ≢ None }
        requires has_room { 0 < length input.now }
        ensures { ClientTurns (length frame.old) meter.old self.old result meter.new self.new }
    {
        self.link.turn(alloc, meter, input, frame)
    }
}
