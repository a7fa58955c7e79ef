//! `SlicedCommand`: a command that is carried out for some of its meters at a time.
ghost use Rattle.std.specs.Prelude.{◌≡◌};
ghost use Rattle.fleet_console.specs.Slices.{first_slice, after_slice, has_more};
ghost use Rattle.fleet_console.specs.Slices.{underway_at_start, underway_after};

use crate::command::Command;
use crate::meters::Meters;
use std::marker::Model;

// The maximum number of meters of a slice. To make 1,000 new meters takes some 25 ms.
const MAX_SLICE: u32 = 1_000;

// Returns the first meters of a range, at most `MAX_SLICE`, and the meters after them, if there are
// any.
fn cut(meters: Meters) -> (Meters, Option<Meters>)
    ensures { result ≡ (first_slice meters, after_slice meters) }
{
    let Meters { first, last } = meters;
    match first.checked_add(MAX_SLICE) {
        Some(next) if next <= last => {
            let slice = Meters {
                first,
                last: next - 1,
            };
            (slice, Some(Meters { first: next, last }))
        }
        _ => (meters, None),
    }
}

/// A command of a line, of which a slice of the meters is next.
#[derive(Drop)]
pub(crate) struct SlicedCommand {
    /// The number of the line, counted from 1.
    pub(crate) line: u64,
    /// The command for the meters of the slice.
    pub(crate) command: Command,
    // The meters after the slice.
    rest: Option<Meters>,
    // The number of the first meter of the command.
    first: u32,
}

impl Model for SlicedCommand {
    ghost use Rattle.std.specs.Coded.{codes};
    ghost use Rattle.fleet_console.specs.Slices.{Underway};
    ghost use Rattle.fleet_console.specs.contracts.command.Command as command_row;
    ghost use Rattle.fleet_console.specs.contracts.meters.Meters as meters_row;

    ghost Value = { Underway };

    ghost coded = { Prim.hlevel (
      codes,
      command_row.the_row.coded,
      meters_row.the_row.coded,
    ) };

    ghost view = { λ s. record {
      line = s.line;
      command = s.command;
      rest = s.rest;
      first = s.first;
    } };
}

impl SlicedCommand {
    /// Returns the command of a line. Its first slice is next.
    pub(crate) fn new(line: u64, command: Command) -> SlicedCommand
        ensures { result ≡ underway_at_start line command }
    {
        let (command, rest, first) = match command {
            Command::Give(meters, event) => {
                let (slice, rest) = cut(meters);
                (Command::Give(slice, event), rest, meters.first)
            }
            Command::State(meters) => {
                let (slice, rest) = cut(meters);
                (Command::State(slice), rest, meters.first)
            }
            Command::Trace(meter, path) => (Command::Trace(meter, path), None, meter),
            Command::Count(state) => (Command::Count(state), None, 0),
        };
        SlicedCommand {
            line,
            command,
            rest,
            first,
        }
    }

    /// Returns whether a fleet of this many meters has one of the meters after the slice.
    pub(crate) fn has_more(&self, total: usize) -> bool
        ensures { result ≡ has_more self.now.rest total }
    {
        match self.rest {
            Some(rest) => rest.first as usize <= total,
            None => false,
        }
    }

    /// Returns whether the slice is the first one.
    pub(crate) fn is_first(&self) -> bool {
        match &self.command {
            Command::Give(slice, _) => slice.first == self.first,
            Command::State(slice) => slice.first == self.first,
            Command::Trace(_, _) | Command::Count(_) => true,
        }
    }

    /// Returns the number of meters from the first one of the command to the last one of the slice,
    /// in a fleet of this many meters.
    pub(crate) fn reached(&self, total: usize) -> usize {
        let last = match &self.command {
            Command::Give(slice, _) => slice.last,
            Command::State(slice) => slice.last,
            Command::Trace(meter, _) => *meter,
            Command::Count(_) => 0,
        };
        let last = (last as usize).min(total);
        (last + 1).saturating_sub(self.first as usize)
    }

    /// Makes the slice after this one the next one.
    pub(crate) fn advance(&mut self)
        ensures { self.new ≡ underway_after self.old self.old.rest }
    {
        let Some(meters) = self.rest else {
            return;
        };
        let (next, rest) = cut(meters);
        match &mut self.command {
            Command::Give(slice, _) => *slice = next,
            Command::State(slice) => *slice = next,
            Command::Trace(_, _) | Command::Count(_) => {}
        }
        self.rest = rest;
    }
}
