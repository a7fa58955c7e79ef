//! `FleetConsole`: the lines of an input, and their answers.
ghost use Rattle.std.specs.Prelude.{◌≡◌, ◌≢◌, IfSome, IsSome, IsTrue, None, Ok, is_ok};
ghost use Rattle.fleet_meters.specs.Calls.{GivesEvents};
ghost use Rattle.fleet_console.specs.Slices.{has_more};
ghost use Rattle.fleet_console.specs.Steps.{CarriesOut, IsDone, IsRead, StepsBy};

use crate::command::{Command, read_command};
use crate::running::run_command;
use crate::slices::SlicedCommand;
use fleet_links::Stream;
use fleet_meters::{AccessFault, Fleet};
use std::alloc::Global;
use std::fs::{File, Files};
use std::io::{ErrorKind, Read, Write};
use std::marker::Model;
use std::{io, str};

// The maximum number of bytes of a line, without the byte 0A that ends it.
const MAX_LINE: usize = 8_191;

// The number of bytes that are read at once.
const CHUNK_BYTES: usize = 4_096;

/// Whether an input may have further lines.
#[derive(Clone, Copy, Debug, PartialEq, Eq)]
pub enum ConsoleInput {
    /// Bytes that were read, or meters of a command, are left: the next call does not block.
    Busy,
    /// Further bytes may arrive.
    Open,
    /// The input has ended, or reading it failed.
    Ended,
}

// Why a line was not kept.
#[derive(Clone, Copy, Debug, PartialEq, Eq)]
enum LineLoss {
    // It is longer than the maximum.
    TooLong,
    // Out of memory.
    Memory,
}

impl LineLoss {
    // Returns the reason that is reported.
    fn reason(self) -> &'static str {
        match self {
            LineLoss::TooLong => "a line of more than 8,192 bytes",
            LineLoss::Memory => "out of memory",
        }
    }
}

// Where answers, messages and traces are written.
#[derive(Drop)]
struct Outlet<O, R> {
    output: O,
    rt: R,
}

// Returns why a command was not carried out.
fn reason_of(fault: AccessFault) -> &'static str {
    match fault {
        AccessFault::NoMeter => "the fleet has no such meter",
        AccessFault::Memory => "out of memory",
    }
}

impl<O: Write + Drop, R: Eprint + Files<File = File> + Drop> Outlet<O, R> {
    // Reports why a line was not carried out.
    fn report(&self, number: u64, reason: &str) {
        let _ = eprintln!(self.rt; "console: line {number}: {reason}");
    }

    // Writes a trace to a file, and then the number of the meter and the file to the output.
    fn write_trace(&mut self, meter: u32, path: &str, trace: &[u8]) -> io::Result<()> {
        let mut file = File::create(&self.rt, path)?;
        file.write_all(trace)?;
        drop(file);
        writeln!(self.output, "{meter} {path}")
    }

    // Writes the answer of a command for a slice of its meters, in a fleet of this many meters. If
    // meters were given an event, it is written after the last slice: the number of all of them.
    fn write_answer(&mut self, sliced: &SlicedCommand, total: usize, text: &[u8]) -> io::Result<()>
        ensures { IsDone (Ok tt) sliced.now.command (has_more sliced.now.rest total)
            (is_ok result) }
    {
        match &sliced.command {
            Command::Give(_, _) if sliced.has_more(total) => Ok(()),
            Command::Give(_, _) if !sliced.is_first() => {
                let reached = sliced.reached(total);
                writeln!(self.output, "{reached}")
            }
            Command::Trace(meter, path) => match str::from_utf8(path.as_slice()) {
                Ok(path) => self.write_trace(*meter, path, text),
                Err(_) => Err(ErrorKind::InvalidInput.into()),
            },
            _ => self.output.write_all(text),
        }
    }

    // Carries out a command for a slice of its meters, and writes the answer. Returns whether that
    // succeeded.
    #[tactic(auto, using(crate::proofs::Stepping::carried, crate::proofs::Stepping::refused_all))]
    fn carry_out<S: Stream + Drop>(
        &mut self,
        alloc: Global,
        fleet: &mut Fleet<S>,
        sliced: &SlicedCommand,
    ) -> bool
        ensures carries { CarriesOut sliced.now fleet.old result fleet.new }
        ensures gives { GivesEvents fleet.old fleet.new }
    {
        let mut text = Vec::new(alloc);
        match run_command(alloc, fleet, &sliced.command, &mut text) {
            Ok(()) => {
                let written = self.write_answer(sliced, fleet.meters(), text.as_slice());
                if written.is_err() {
                    self.report(sliced.line, "the answer can't be written");
                }
                written.is_ok()
            }
            Err(fault) => {
                self.report(sliced.line, reason_of(fault));
                false
            }
        }
    }

    // Reads a line that has ended. Returns its command; `None` if it was not kept or is not a
    // command, which is reported.
    fn read_line(
        &self,
        alloc: Global,
        number: u64,
        line: &[u8],
        lost: Option<LineLoss>,
    ) -> Option<SlicedCommand>
        ensures { IfSome result IsRead }
    {
        if let Some(loss) = lost {
            self.report(number, loss.reason());
            return None;
        }
        match read_command(alloc, line) {
            Ok(command) => Some(SlicedCommand::new(number, command)),
            Err(fault) => {
                let _ = eprintln!(self.rt; "console: line {number}: {fault}");
                None
            }
        }
    }
}

/// The console of a fleet: the lines of an input. Answers are written to an output, messages about
/// wrong lines to standard error, and traces to files.
#[derive(Drop)]
pub struct FleetConsole<I, O, R> {
    input: I,
    outlet: Outlet<O, R>,
    // The bytes that were read last, and the number of those that were taken.
    chunk: Vec<u8>,
    taken: usize,
    // The bytes of the line that is not ended, up to the maximum.
    line: Vec<u8>,
    // Why that line is not kept.
    lost: Option<LineLoss>,
    // The number of lines that were ended.
    lines: u64,
    // The command that is being carried out.
    command: Option<SlicedCommand>,
}

impl<I, O, R> Model for FleetConsole<I, O, R> {
    ghost use Rattle.std.specs.Coded.{codes};
    ghost use Rattle.fleet_console.specs.Steps.{ConsoleState};
    ghost use Rattle.fleet_console.specs.contracts.slices.SlicedCommand as sliced_row;

    ghost Value = { ConsoleState };

    ghost coded = { Prim.hlevel (codes, sliced_row.the_row.coded) };

    ghost view = { λ c. record { command = c.command } };
}

impl<I: Read + Drop, O: Write + Drop, R: Eprint + Files<File = File> + Drop> FleetConsole<I, O, R> {
    /// Returns a console that has read nothing.
    pub fn new(alloc: Global, input: I, output: O, rt: R) -> FleetConsole<I, O, R>
        ensures { result.command ≡ None }
    {
        FleetConsole {
            input,
            outlet: Outlet { output, rt },
            chunk: Vec::new(alloc),
            taken: 0,
            line: Vec::new(alloc),
            lost: None,
            lines: 0,
            command: None,
        }
    }

    // Appends a byte to the line.
    fn push(&mut self, byte: u8)
        ensures { self.new.command ≡ self.old.command }
    {
        if self.line.len() >= MAX_LINE {
            self.lost = Some(LineLoss::TooLong);
        } else if self.line.push(byte).is_err() {
            self.lost = Some(LineLoss::Memory);
        }
    }

    // Reads the line, which has ended.
    fn end_line(&mut self, alloc: Global)
        ensures { IfSome self.new.command IsRead }
    {
        self.lines = self.lines.saturating_add(1);
        let line = self.line.as_slice();
        self.command = self.outlet.read_line(alloc, self.lines, line, self.lost);
        self.line.clear();
        self.lost = None;
    }

    // Takes the next byte that was read.
    fn take_byte(&mut self, alloc: Global, byte: u8)
        requires { IfSome self.now.command IsRead }
        ensures { IfSome self.new.command IsRead }
    {
        if byte == b'\n' {
            self.end_line(alloc);
        } else {
            self.push(byte);
        }
    }

    // Takes bytes that were read, up to the end of a line that is a command.
    fn take_line(&mut self, alloc: Global)
        requires { IfSome self.now.command IsRead }
        ensures { IfSome self.new.command IsRead }
    {
        'bytes: for at in self.taken..self.chunk.len() {
            let byte = match self.chunk.get(at) {
                Some(byte) if self.command.is_none() => *byte,
                _ => return,
            };
            self.taken = at + 1;
            self.take_byte(alloc, byte);
        }
    }

    // Carries out the command for the next slice of its meters.
    #[tactic(auto, using(fleet_meters::proofs::Steps::gives_nothing, crate::proofs::Stepping::slice_goes_on, crate::proofs::Stepping::slice_stops))]
    fn run_slice<S: Stream + Drop>(&mut self, alloc: Global, fleet: &mut Fleet<S>)
        requires { self.now.command ≢ None }
        ensures steps { StepsBy self.old.command fleet.old self.new.command fleet.new }
        ensures gives { GivesEvents fleet.old fleet.new }
    {
        let Some(mut sliced) = self.command.take() else {
            return;
        };
        let is_done = self.outlet.carry_out(alloc, fleet, &sliced);
        if is_done && sliced.has_more(fleet.meters()) {
            sliced.advance();
            self.command = Some(sliced);
        } else {
            drop(sliced);
        }
    }

    // Returns whether the console can go on without reading.
    fn is_busy(&self) -> bool
        ensures { IsSome self.now.command → IsTrue result }
    {
        self.command.is_some() || self.taken < self.chunk.len()
    }

    // Reads the input once.
    fn read(&mut self) -> ConsoleInput
        ensures { self.new.command ≡ self.old.command }
    {
        let mut chunk = [0; CHUNK_BYTES];
        self.chunk.clear();
        self.taken = 0;
        match self.input.read(&mut chunk) {
            Ok(0) => ConsoleInput::Ended,
            Ok(count) => match self.chunk.extend_from_slice(&chunk[..count]) {
                Ok(()) => ConsoleInput::Busy,
                Err(_) => self.fail("out of memory"),
            },
            Err(error) => match error.kind() {
                ErrorKind::WouldBlock | ErrorKind::Interrupted => ConsoleInput::Open,
                _ => self.fail("reading failed"),
            },
        }
    }

    // Reports why no further line is read.
    fn fail(&self, reason: &str) -> ConsoleInput {
        let _ = eprintln!(self.outlet.rt; "console: {reason}, no further line is read");
        ConsoleInput::Ended
    }

    /// Does one step: carries out the command for its next meters, at most 1,000; or takes the next
    /// line; or reads the input once. While a command has further meters it returns `Busy`. What
    /// follows the last byte 0A of the input is not a line. A line that is wrong, has more than
    /// 8,192 bytes with the byte 0A that ends it, or is lost because memory ran out, is reported
    /// with its number, counted from 1, and changes nothing.
    #[tactic(auto, using(fleet_meters::proofs::Steps::gives_nothing, crate::proofs::Stepping::reads_line))]
    pub fn run<S: Stream + Drop>(&mut self, alloc: Global, fleet: &mut Fleet<S>) -> ConsoleInput
        ensures steps { StepsBy self.old.command fleet.old self.new.command fleet.new }
        ensures gives { GivesEvents fleet.old fleet.new }
        // A command that is under way is carried out to its end.
        ensures busy { IsSome self.new.command → result ≡ ConsoleInput.Busy }
        ensures not_ended { IsSome self.old.command → result ≢ ConsoleInput.Ended }
    {
        if self.command.is_some() {
            self.run_slice(alloc, fleet);
        } else if self.is_busy() {
            self.take_line(alloc);
        } else {
            return self.read();
        }
        if self.is_busy() {
            ConsoleInput::Busy
        } else {
            ConsoleInput::Open
        }
    }
}
