//! `MeterPlace`: the place of a meter in a fleet, empty until its first client connects.
ghost use Rattle.std.specs.Prelude.{◌≡◌, ◌≢◌, ◌<◌, None, Some, IfOk, OnErr, length};
ghost use Rattle.fleet_meters.specs.Places.{Seats, SeatsBy, OpensFirst, Frees, TurnsAt, session_of};
ghost use Rattle.fleet_meters.specs.declared.terms.MeterTerms.{MeterTerms};
ghost use Rattle.fleet_meters.specs.Places.{Makes, Gives, HasState, HasTrace};

use crate::client::FleetClient;
use crate::terms::MeterTerms;
use cosem_axdr::Octets;
use disconnect_control::ControlState;
use embedded_meter::{MeterFault, SESSIONS, SupplyMeter};
use fleet_links::{Stream, Turn};
use relay_events::{Event, Reply};
use std::alloc::{AllocError, Global};
use std::marker::Model;

/// Why a connection was not admitted.
#[derive(Clone, Copy, Debug, PartialEq, Eq)]
pub enum Refusal {
    /// The fleet has no meter with this number.
    NoMeter,
    /// All eight sessions of the meter are open.
    Full,
    /// Out of memory.
    Memory,
}

/// Why a meter was not reached.
#[derive(Clone, Copy, Debug, PartialEq, Eq)]
pub enum AccessFault {
    /// The fleet has no meter with this number.
    NoMeter,
    /// Out of memory.
    Memory,
}

/// The place of a meter: eight bytes until the meter is made.
#[derive(Drop)]
pub struct MeterPlace {
    meter: Option<Box<SupplyMeter>>,
}

impl Model for MeterPlace {
    ghost use Rattle.std.specs.Coded.{codes};
    ghost use Rattle.std.specs.Prelude.{Option, option_map};
    ghost use Rattle.embedded_meter.specs.MeterStates.{MeterState};
    ghost use Rattle.embedded_meter.specs.contracts.supply_meter.SupplyMeter as meter_row;

    ghost Value = { Option MeterState };

    ghost coded = { Prim.hlevel (codes, meter_row.the_row.coded) };

    ghost view = { λ place. option_map (λ b. b.value) place.meter };
}

// Returns a new meter without sessions.
#[tactic(auto, using(crate::proofs::Seats::makes_first))]
fn first_meter(alloc: Global, terms: &MeterTerms) -> Result<SupplyMeter, AllocError>
    ensures { IfOk result (Makes terms.now None) }
{
    let trace = terms.trace.as_slice();
    match SupplyMeter::resume(alloc, trace, &terms.password, terms.kept_events) {
        Ok(meter) => Ok(meter),
        Err(_) => Err(AllocError),
    }
}

// Returns a new meter with one session, number 0.
#[tactic(auto, using(crate::proofs::Seats::new_seats))]
fn new_meter(alloc: Global, terms: &MeterTerms) -> Result<Box<SupplyMeter>, AllocError>
    ensures { IfOk result (λ b. Seats terms.now None 0 (Some b.value)) }
{
    let mut meter = first_meter(alloc, terms)?;
    match meter.open_session(alloc, 0) {
        Ok(()) => Ok(Box::new(alloc, meter)?),
        Err(_) => {
            drop(meter);
            Err(AllocError)
        }
    }
}

// Returns a new meter without sessions, in a box.
fn first_box(alloc: Global, terms: &MeterTerms) -> Result<Box<SupplyMeter>, AllocError>
    ensures { IfOk result (λ b. Makes terms.now None b.value) }
{
    let meter = first_meter(alloc, terms)?;
    Ok(Box::new(alloc, meter)?)
}

// Returns a new meter that has applied an event, and the reply.
#[tactic(auto, using(crate::proofs::Seats::gives_first))]
fn make_given(
    alloc: Global,
    terms: &MeterTerms,
    event: Event,
) -> Result<(Box<SupplyMeter>, Reply), AllocError>
    ensures { IfOk result (λ given. Gives terms.now None event given.1 (Some given.0.value)) }
{
    let mut meter = match first_box(alloc, terms) {
        Ok(meter) => meter,
        Err(error) => {
            drop(event);
            return Err(error);
        }
    };
    match meter.apply(alloc, event) {
        Ok(reply) => Ok((meter, reply)),
        Err(error) => {
            drop(meter);
            Err(error)
        }
    }
}

// Returns the control state of a new meter.
#[tactic(auto, using(crate::proofs::Seats::state_first))]
pub(crate) fn first_state(alloc: Global, terms: &MeterTerms) -> Result<ControlState, AllocError>
    ensures { IfOk result (HasState terms.now None) }
{
    let meter = first_meter(alloc, terms)?;
    let state = meter.state();
    drop(meter);
    Ok(state)
}

// Returns the text of the trace of a new meter.
#[tactic(auto, using(crate::proofs::Seats::trace_first))]
fn first_trace(alloc: Global, terms: &MeterTerms) -> Result<Octets, AllocError>
    ensures { IfOk result (HasTrace terms.now None) }
{
    let meter = first_meter(alloc, terms)?;
    let text = meter.export(alloc);
    drop(meter);
    text
}

// Opens the first session of a meter that is free.
fn open_first(alloc: Global, meter: &mut SupplyMeter) -> Result<u8, Refusal>
    ensures { OpensFirst meter.old result meter.new }
{
    'numbers: for number in 0..SESSIONS as u8 {
        match meter.open_session(alloc, number) {
            Ok(()) => return Ok(number),
            Err(MeterFault::SessionTaken) => {}
            Err(_) => return Err(Refusal::Memory),
        }
    }
    Err(Refusal::Full)
}

impl MeterPlace {
    // Returns the place of a meter that is not made yet.
    pub(crate) fn new() -> MeterPlace
        ensures { result ≡ None }
    {
        MeterPlace { meter: None }
    }

    // Opens the first free session of the meter, which is made first if the place is empty.
    // Returns the number of the session.
    pub(crate) fn open(&mut self, alloc: Global, terms: &MeterTerms) -> Result<u8, Refusal>
        ensures { SeatsBy terms.now self.old result self.new }
    {
        match &mut self.meter {
            Some(meter) => open_first(alloc, meter),
            None => match new_meter(alloc, terms) {
                Ok(meter) => {
                    self.meter = Some(meter);
                    Ok(0)
                }
                Err(_) => Err(Refusal::Memory),
            },
        }
    }

    // Closes a session of the meter.
    pub(crate) fn close(&mut self, number: u8)
        requires { session_of self.now number ≢ None }
        ensures { Frees self.old number self.new }
    {
        match &mut self.meter {
            Some(meter) => {
                let _closed = meter.close_session(number);
            }
            None => unreachable!(),
        }
    }

    // Runs a connection with the meter.
    pub(crate) fn turn<S: Stream + Drop>(
        &mut self,
        alloc: Global,
        client: &mut FleetClient<S>,
        input: &mut [u8],
        frame: &mut [u8],
    ) -> Turn
        requires is_open { session_of self.now client.now.number ≢ None }
        requires has_room { 0 < length input.now }
        ensures { TurnsAt (length frame.old) self.old client.old result self.new client.new }
    {
        match &mut self.meter {
            Some(meter) => client.turn(alloc, meter, input, frame),
            None => unreachable!(),
        }
    }
    // Applies an event to the meter, which is made first if the place is empty. Returns the reply.
    // If out of memory, the place is unchanged.
    #[tactic(auto, using(crate::proofs::Seats::gives_there))]
    pub(crate) fn give(
        &mut self,
        alloc: Global,
        terms: &MeterTerms,
        event: Event,
    ) -> Result<Reply, AllocError>
        ensures gives { IfOk result (λ reply. Gives terms.now self.old event reply self.new) }
        ensures err { OnErr result (self.new ≡ self.old) }
    {
        match &mut self.meter {
            Some(meter) => meter.apply(alloc, event),
            None => match make_given(alloc, terms, event) {
                Ok((meter, reply)) => {
                    self.meter = Some(meter);
                    Ok(reply)
                }
                Err(error) => Err(error),
            },
        }
    }

    // Returns the control state of the meter: that of a new meter if the place is empty.
    pub(crate) fn state(
        &self,
        alloc: Global,
        terms: &MeterTerms,
    ) -> Result<ControlState, AllocError>
        ensures { IfOk result (HasState terms.now self.now) }
    {
        match &self.meter {
            Some(meter) => Ok(meter.state()),
            None => first_state(alloc, terms),
        }
    }

    // Returns the control state of the meter: `first`, that of a new meter, if the place is empty.
    pub(crate) fn state_or(&self, first: ControlState) -> ControlState
        ensures { (terms : MeterTerms) → HasState terms None first
            → HasState terms self.now result }
    {
        match &self.meter {
            Some(meter) => meter.state(),
            None => first,
        }
    }

    // Returns the text of the meter's trace: that of a new meter if the place is empty.
    #[tactic(auto, using(crate::proofs::Seats::trace_there))]
    pub(crate) fn trace(&self, alloc: Global, terms: &MeterTerms) -> Result<Octets, AllocError>
        ensures { IfOk result (HasTrace terms.now self.now) }
    {
        match &self.meter {
            Some(meter) => meter.export(alloc),
            None => first_trace(alloc, terms),
        }
    }
}
