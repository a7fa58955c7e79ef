//! Carries out the commands of the console.
ghost use Rattle.std.specs.Prelude.{◌≡◌, ◌++◌, OnOk};
ghost use Rattle.fleet_meters.specs.Calls.{GivesEvents};
ghost use Rattle.fleet_console.specs.Running.{CountsBy, GivesBy, GivesEachBy, GivesOneBy, RunsBy};
ghost use Rattle.fleet_console.specs.Running.{ShowsOneBy, StatesBy, TracesBy, number_line, state_line};

use crate::command::Command;
use crate::meters::Meters;
use crate::words::state_word;
use disconnect_control::ControlState;
use fleet_links::Stream;
use fleet_meters::{AccessFault, Fleet};
use relay_events::Event;
use std::alloc::{AllocError, Global};
use text_lines::write_number;

// Gives a copy of an event to the meter with this number.
#[tactic(auto, using(crate::proofs::Givings::gives_one))]
fn give_copy<S: Stream + Drop>(
    alloc: Global,
    fleet: &mut Fleet<S>,
    number: usize,
    event: &Event,
) -> Result<(), AccessFault>
    ensures { GivesOneBy fleet.old number event.now result fleet.new }
{
    let Ok(copy) = event.try_copy(alloc) else {
        return Err(AccessFault::Memory);
    };
    match fleet.give(alloc, number, copy) {
        Ok(reply) => {
            drop(reply);
            Ok(())
        }
        Err(fault) => Err(fault),
    }
}

// Gives an event to each meter of a range that the fleet has, and returns how many there are.
#[tactic(auto, using(crate::proofs::Givings::gives_none, crate::proofs::Givings::begun_on, crate::proofs::Givings::range_on, crate::proofs::Givings::range_stops, crate::proofs::Givings::range_all, crate::proofs::Givings::range_none))]
fn give_each<S: Stream + Drop>(
    alloc: Global,
    fleet: &mut Fleet<S>,
    meters: Meters,
    event: &Event,
) -> Result<usize, AccessFault>
    ensures { GivesEachBy fleet.old meters event.now result fleet.new }
{
    let first = meters.first as usize;
    let last = (meters.last as usize).min(fleet.meters());
    if last < first {
        return Err(AccessFault::NoMeter);
    }
    'meters: for number in first..last + 1 {
        match give_copy(alloc, fleet, number, event) {
            Ok(()) => {}
            Err(_) => return Err(AccessFault::Memory),
        }
    }
    Ok(last + 1 - first)
}

// Appends a line of a number.
fn put_number(text: &mut Vec<u8>, number: usize) -> Result<(), AllocError>
    ensures { OnOk result (text.new.items ≡ text.old.items ++ number_line number) }
{
    write_number(text, number as u64)?;
    text.push(b'\n')?;
    Ok(())
}

// Gives an event to each meter of a range, and appends a line of their number.
fn give<S: Stream + Drop>(
    alloc: Global,
    fleet: &mut Fleet<S>,
    meters: Meters,
    event: &Event,
    text: &mut Vec<u8>,
) -> Result<(), AccessFault>
    ensures { GivesBy fleet.old meters event.now text.old.items result fleet.new text.new.items }
{
    let count = give_each(alloc, fleet, meters, event)?;
    match put_number(text, count) {
        Ok(()) => Ok(()),
        Err(_) => Err(AccessFault::Memory),
    }
}

// Appends a line of the number of a meter and a control state.
fn put_state(text: &mut Vec<u8>, number: usize, state: ControlState) -> Result<(), AllocError>
    ensures { OnOk result (text.new.items ≡ text.old.items ++ state_line number state) }
{
    write_number(text, number as u64)?;
    text.push(b' ')?;
    text.extend_from_slice(state_word(state))?;
    text.push(b'\n')?;
    Ok(())
}

// Appends a line of the number and the control state of a meter.
#[tactic(auto, using(crate::proofs::Showings::shows_one))]
fn show_one<S: Stream + Drop>(
    alloc: Global,
    fleet: &Fleet<S>,
    number: usize,
    text: &mut Vec<u8>,
) -> Result<(), AccessFault>
    ensures { ShowsOneBy fleet.now number text.old.items result text.new.items }
{
    let state = fleet.state(alloc, number)?;
    match put_state(text, number, state) {
        Ok(()) => Ok(()),
        Err(_) => Err(AccessFault::Memory),
    }
}

// Appends a line for each meter of a range that the fleet has: its number and its control state.
#[tactic(auto, using(crate::proofs::Showings::shows_none, crate::proofs::Givings::begun_on, crate::proofs::Showings::range_shows_on, crate::proofs::Showings::range_shown))]
fn show_states<S: Stream + Drop>(
    alloc: Global,
    fleet: &Fleet<S>,
    meters: Meters,
    text: &mut Vec<u8>,
) -> Result<(), AccessFault>
    ensures { StatesBy fleet.now meters text.old.items result text.new.items }
{
    let first = meters.first as usize;
    let last = (meters.last as usize).min(fleet.meters());
    if last < first {
        return Err(AccessFault::NoMeter);
    }
    'states: for number in first..last + 1 {
        match show_one(alloc, fleet, number, text) {
            Ok(()) => {}
            Err(_) => return Err(AccessFault::Memory),
        }
    }
    Ok(())
}

// Appends the trace of the meter with this number.
fn show_trace<S: Stream + Drop>(
    alloc: Global,
    fleet: &Fleet<S>,
    number: usize,
    text: &mut Vec<u8>,
) -> Result<(), AccessFault>
    ensures { TracesBy fleet.now number text.old.items result text.new.items }
{
    let trace = fleet.trace(alloc, number)?;
    match text.extend_from_slice(trace.as_slice()) {
        Ok(()) => Ok(()),
        Err(_) => Err(AccessFault::Memory),
    }
}

// Appends a line of the number of meters in a control state.
fn show_count<S: Stream + Drop>(
    alloc: Global,
    fleet: &Fleet<S>,
    state: ControlState,
    text: &mut Vec<u8>,
) -> Result<(), AccessFault>
    ensures { CountsBy fleet.now state text.old.items result text.new.items }
{
    let Ok(count) = fleet.count(alloc, state) else {
        return Err(AccessFault::Memory);
    };
    match put_number(text, count) {
        Ok(()) => Ok(()),
        Err(_) => Err(AccessFault::Memory),
    }
}

/// Carries out a command, and appends what it shows to `text`: for `Give` the number of meters that
/// were given the event; for `State` a line for each meter; for `Trace` the trace; for `Count` the
/// number of meters. Errors: `NoMeter` if the fleet has none of the meters; `Memory`. A range means
/// those of its meters that the fleet has. If memory runs out, the first of the meters may have
/// been given the event; otherwise an error changes nothing.
#[tactic(auto, using(crate::proofs::Givings::runs_gives))]
pub fn run_command<S: Stream + Drop>(
    alloc: Global,
    fleet: &mut Fleet<S>,
    command: &Command,
    text: &mut Vec<u8>,
) -> Result<(), AccessFault>
    ensures runs { RunsBy fleet.old command.now text.old.items result fleet.new text.new.items }
    ensures gives { GivesEvents fleet.old fleet.new }
{
    match command {
        Command::Give(meters, event) => give(alloc, fleet, *meters, event, text),
        Command::State(meters) => show_states(alloc, fleet, *meters, text),
        Command::Trace(number, _) => show_trace(alloc, fleet, *number as usize, text),
        Command::Count(state) => show_count(alloc, fleet, *state, text),
    }
}
