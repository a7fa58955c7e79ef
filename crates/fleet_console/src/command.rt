//! `Command`: what a line asks for.
ghost use Rattle.std.specs.Prelude.{◌≡◌, ℕ, List, codes};
ghost use Rattle.fleet_console.specs.Commands.{AddressBy, CountBy, ReadsBy, RequestBy, state_of};
ghost use Rattle.fleet_console.specs.Commands.{first_word, rest_of, meters_of};

use crate::fault::ConsoleFault;
use crate::meters::{Meters, read_meters};
use crate::words::{control_state, split_at};
use cosem_axdr::Octets;
use disconnect_control::ControlState;
use meter_console::console_event;
use relay_events::Event;
use std::alloc::Global;

/// What a line of the console asks for.
#[derive(Debug, Drop)]
pub enum Command {
    /// Each of these meters is given an event.
    Give(Meters, Event),
    /// The control state of each of these meters.
    State(Meters),
    /// The trace of the meter with this number, in a file.
    Trace(u32, Octets),
    /// The number of meters in a control state.
    Count(ControlState),
}

// Reads the words of a line after `count`.
fn read_count(words: &[u8]) -> Result<Command, ConsoleFault>
    ensures { CountBy (state_of words.now) result }
{
    match control_state(words) {
        Some(state) => Ok(Command::Count(state)),
        None => Err(ConsoleFault::State),
    }
}

// Reads the words of a line after `trace`.
fn read_trace(alloc: Global, meters: Meters, path: &[u8]) -> Result<Command, ConsoleFault>
    ensures { (words : List ℕ) → first_word words ≡ codes "trace" → rest_of words ≡ path.now
        → RequestBy meters words result }
{
    if path.is_empty() || meters.first != meters.last {
        return Err(ConsoleFault::Trace);
    }
    match Octets::from_slice(alloc, path) {
        Ok(path) => Ok(Command::Trace(meters.first, path)),
        Err(_) => Err(ConsoleFault::Memory),
    }
}

// Reads the words of a line after its meters.
fn read_request(alloc: Global, meters: Meters, words: &[u8]) -> Result<Command, ConsoleFault>
    ensures { RequestBy meters words.now result }
{
    if words == b"state".as_slice() {
        return Ok(Command::State(meters));
    }
    let (first, rest) = split_at(words, b' ');
    if first == b"trace".as_slice() {
        return read_trace(alloc, meters, rest);
    }
    match console_event(alloc, words) {
        Ok(Some(event)) => Ok(Command::Give(meters, event)),
        Ok(None) => Err(ConsoleFault::Request),
        Err(_) => Err(ConsoleFault::Memory),
    }
}

// Reads the words of a line after its first word, which means these meters.
fn read_address(
    alloc: Global,
    meters: Option<Meters>,
    words: &[u8],
) -> Result<Command, ConsoleFault>
    ensures { AddressBy meters words.now result }
{
    match meters {
        Some(meters) => read_request(alloc, meters, words),
        None => Err(ConsoleFault::Meters),
    }
}

/// Reads a line, which is passed without the byte 0A that ends it: `count` and a control state, or
/// the meters and what is asked of them. Errors, in this order: `State` if no control state follows
/// `count`; `Meters` if the first word means no meters; `Trace` if a trace is asked of several
/// meters or without a file; `Request` if nothing is asked; `Memory`.
pub fn read_command(alloc: Global, line: &[u8]) -> Result<Command, ConsoleFault>
    ensures { ReadsBy line.now result }
{
    let (first, rest) = split_at(line, b' ');
    if first == b"count".as_slice() {
        read_count(rest)
    } else {
        read_address(alloc, read_meters(first), rest)
    }
}
