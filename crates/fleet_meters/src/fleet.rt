//! `Fleet`: meters, and the connections of their clients.
ghost use Rattle.std.specs.Prelude.{◌≡◌, ◌≢◌, ◌<◌, ◌≤◌, ◌+◌, ℕ, None, IfOk, IfErr, IfSome, IfNone, length, All};
ghost use Rattle.slab.specs.Slab.{get};
ghost use Rattle.fleet_meters.specs.Places.{SeatsIn, GivesIn, Frees, PlacesStay, meter_in, session_in};

use crate::client::FleetClient;
use crate::place::{AccessFault, MeterPlace, Refusal};
use crate::states::{count_places, first_states};
use crate::terms::FleetTerms;
use cosem_axdr::Octets;
use disconnect_control::ControlState;
use fleet_links::{Stream, Turn};
use relay_events::{Event, Reply};
use slab::Slab;
use std::alloc::{AllocError, Global};
use std::marker::Model;

/// Meters, numbered from 1, and the connections of their clients, each under a key.
#[derive(Drop)]
pub struct Fleet<S: Stream + Drop> {
    terms: FleetTerms,
    places: Vec<MeterPlace>,
    clients: Slab<FleetClient<S>>,
}

impl<S: Stream + Drop> Model for Fleet<S> {
    ghost use Rattle.std.specs.Coded.{codes};
    ghost use Rattle.slab.specs.Slab.{slab_code};
    ghost use Rattle.fleet_meters.specs.Fleets.{FleetState, IsFleet};
    ghost use Rattle.fleet_meters.specs.contracts.place.MeterPlace as place_row;
    ghost use Rattle.fleet_meters.specs.contracts.terms.FleetTerms as terms_row;

    ghost Value = { FleetState };

    ghost coded = { Prim.hlevel (
      codes,
      terms_row.the_row.coded,
      place_row.the_row.coded,
      slab_code,
    ) };

    ghost view = { λ f. record {
      terms = f.terms;
      places = f.places.items;
      clients = f.clients;
    } };

    ghost invariant = { λ f.
        IsFleet (record { terms = f.terms; places = f.places.items; clients = f.clients }) };
}

// Returns places whose meters are not made.
fn new_places(alloc: Global, count: usize) -> Result<Vec<MeterPlace>, AllocError>
    ensures count { IfOk result (λ places. length places.items ≡ count) }
    ensures empty { IfOk result (λ places. All (λ place. place ≡ None) places.items) }
{
    let mut places = Vec::with_capacity(alloc, count)?;
    'places: for _ in 0..count {
        places.push(MeterPlace::new())?;
    }
    Ok(places)
}

// Opens a session of the meter with this number. Returns the place of the meter and the number of
// the session.
fn seat(
    alloc: Global,
    terms: &FleetTerms,
    places: &mut Vec<MeterPlace>,
    number: usize,
) -> Result<(usize, u8), Refusal>
    ensures { SeatsIn terms.now places.old.items number result places.new.items }
{
    let Some(at) = number.checked_sub(1) else {
        return Err(Refusal::NoMeter);
    };
    let Some(place) = places.get_mut(at) else {
        return Err(Refusal::NoMeter);
    };
    match place.open(alloc, terms.of_meter(number)) {
        Ok(session) => Ok((at, session)),
        Err(refusal) => Err(refusal),
    }
}

// Closes a session of the meter at a place.
fn release(places: &mut Vec<MeterPlace>, at: usize, session: u8)
    requires { session_in places.now.items at session ≢ None }
    ensures frees { Frees (meter_in places.old.items at) session (meter_in places.new.items at) }
    ensures others_unchanged { PlacesStay places.old.items at places.new.items }
{
    match places.get_mut(at) {
        Some(place) => place.close(session),
        None => unreachable!(),
    }
}

// Gives an event to the meter with this number. Returns the reply.
fn give(
    alloc: Global,
    terms: &FleetTerms,
    places: &mut Vec<MeterPlace>,
    number: usize,
    event: Event,
) -> Result<Reply, AccessFault>
    ensures { GivesIn terms.now places.old.items number event result places.new.items }
{
    let Some(at) = number.checked_sub(1) else {
        drop(event);
        return Err(AccessFault::NoMeter);
    };
    let Some(place) = places.get_mut(at) else {
        drop(event);
        return Err(AccessFault::NoMeter);
    };
    match place.give(alloc, terms.of_meter(number), event) {
        Ok(reply) => Ok(reply),
        Err(_) => Err(AccessFault::Memory),
    }
}

// Returns the place of the meter with this number, if it is one of `count`.
fn place_of(number: usize, count: usize) -> Option<usize>
    ensures place { IfSome result (λ at. (number ≡ at + 1) × (at < count)) }
    ensures none { IfNone result ((at : ℕ) → number ≡ at + 1 → count ≤ at) }
{
    match number.checked_sub(1) {
        Some(at) if at < count => Some(at),
        _ => None,
    }
}

impl<S: Stream + Drop> Fleet<S> {
    ghost use Rattle.fleet_meters.specs.Fleets.{IsNewFleet, AdmitsBy, RunsBy, Releases};
    ghost use Rattle.fleet_meters.specs.Fleets.{GivesBy, StateBy, TraceBy, Counts};
    ghost use Rattle.fleet_meters.specs.Fleets.{without_stream};

    /// Returns a fleet of `count` meters without connections. A meter is made when its first client
    /// connects.
    pub fn new(alloc: Global, terms: FleetTerms, count: usize) -> Result<Fleet<S>, AllocError>
        ensures { IfOk result (IsNewFleet terms count) }
    {
        match new_places(alloc, count) {
            Ok(places) => Ok(Fleet {
                terms,
                places,
                clients: Slab::new(alloc),
            }),
            Err(fault) => {
                drop(terms);
                Err(fault)
            }
        }
    }

    /// Returns the key that the next connection will have.
    pub fn next_key(&self) -> usize
        ensures { result ≡ self.now.clients.vacant_key }
    {
        self.clients.vacant_key()
    }

    /// Opens a session of the meter with this number for a connection, and returns the key of the
    /// connection. Refuses it if the fleet has no such meter, if the meter has eight connections,
    /// or if memory runs out. Then no meter and no connection has changed, and the stream is
    /// returned as it was.
    pub fn admit(&mut self, alloc: Global, number: usize, stream: S) -> Result<usize, (S, Refusal)>
        ensures admits { AdmitsBy self.old number (S.state stream) (without_stream result)
            self.new }
        ensures key { IfOk result (λ key. key ≡ self.old.clients.vacant_key) }
        ensures refused { IfErr result (λ refused. refused.0 ≡ stream) }
    {
        if self.clients.reserve(1).is_err() {
            return Err((stream, Refusal::Memory));
        }
        match seat(alloc, &self.terms, &mut self.places, number) {
            Ok((place, session)) => {
                let client = FleetClient::new(alloc, stream, place, session);
                Ok(self.clients.insert_reserved(client))
            }
            Err(refusal) => Err((stream, refusal)),
        }
    }

    /// Runs the connection with this key until its stream blocks, it is over, or it has done its
    /// share. `None` if there is no such connection. `input` and `frame` are buffers, whose
    /// contents mean nothing between calls; `input` is not empty.
    pub fn turn(
        &mut self,
        alloc: Global,
        key: usize,
        input: &mut [u8],
        frame: &mut [u8],
    ) -> Option<Turn>
        requires { 0 < length input.now }
        ensures { RunsBy (length frame.old) self.old key result self.new }
    {
        let Some(client) = self.clients.get_mut(key) else {
            return None;
        };
        let at = client.place();
        let Some(place) = self.places.get_mut(at) else {
            unreachable!()
        };
        Some(place.turn(alloc, client, input, frame))
    }

    /// Closes the connection with this key and its session, and returns its stream. `None` if there
    /// is no such connection.
    pub fn close(&mut self, key: usize) -> Option<S>
        ensures closed { IfSome result (λ stream. Releases self.old key (S.state stream) self.new) }
        ensures absent { IfNone result ((get self.old.clients key ≡ None) × (self.new ≡ self.old)) }
    {
        match self.clients.try_remove(key) {
            Some(client) => {
                release(&mut self.places, client.place(), client.number());
                Some(client.into_stream())
            }
            None => None,
        }
    }
    /// Returns the number of meters.
    pub fn meters(&self) -> usize
        ensures { result ≡ length self.now.places }
    {
        self.places.len()
    }

    /// Gives an event to the meter with this number, which is made first if nobody has reached it.
    /// Returns the reply. All other meters, and all connections, are unchanged. Errors: `NoMeter`,
    /// `Memory`; then the fleet is unchanged.
    pub fn give(&mut self, alloc: Global, number: usize, event: Event) -> Result<Reply, AccessFault>
        ensures { GivesBy self.old number event result self.new }
    {
        give(alloc, &self.terms, &mut self.places, number, event)
    }

    /// Returns the control state of the meter with this number: that of a new meter if nobody has
    /// reached it. Errors: `NoMeter`, `Memory`.
    pub fn state(&self, alloc: Global, number: usize) -> Result<ControlState, AccessFault>
        ensures { StateBy self.now number result }
    {
        let Some(at) = place_of(number, self.places.len()) else {
            return Err(AccessFault::NoMeter);
        };
        match self.places[at].state(alloc, self.terms.of_meter(number)) {
            Ok(state) => Ok(state),
            Err(_) => Err(AccessFault::Memory),
        }
    }

    /// Returns the text of the trace of the meter with this number: that of a new meter if nobody
    /// has reached it. Errors: `NoMeter`, `Memory`.
    pub fn trace(&self, alloc: Global, number: usize) -> Result<Octets, AccessFault>
        ensures { TraceBy self.now number result }
    {
        let Some(at) = place_of(number, self.places.len()) else {
            return Err(AccessFault::NoMeter);
        };
        match self.places[at].trace(alloc, self.terms.of_meter(number)) {
            Ok(text) => Ok(text),
            Err(_) => Err(AccessFault::Memory),
        }
    }

    /// Returns the number of meters that are in this control state. A meter that nobody has reached
    /// is in that of a new meter. Fails if out of memory.
    pub fn count(&self, alloc: Global, state: ControlState) -> Result<usize, AllocError>
        ensures { IfOk result (Counts self.now state) }
    {
        let firsts = first_states(alloc, &self.terms)?;
        Ok(count_places(self.places.as_slice(), &self.terms, firsts, state))
    }
}
