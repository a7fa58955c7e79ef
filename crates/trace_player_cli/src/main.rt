//! The program `trace_player`: reads a trace and prints its run.
//!
//! `trace_player::play` makes the run, and `trace_views` what the options ask for; this crate has
//! the command line, the file or standard input, standard output and the exit status.
#![tactic(auto)]

ghost use Rattle.std.specs.Prelude.{◌≡◌};
ghost use Rattle.trace_player_cli.specs.Faults.{fault_of};

mod arguments;
mod messages;
mod opening;
mod options;

use crate::arguments::command_line;
use crate::messages::{report_fault, report_left_out};
use crate::opening::report_not_opened;
use crate::options::{Options, is_in_order, options_of};
use clap::error::ErrorKind;
use counted_io::{Counted, read_to_end_within};
use program::{Fault, exit_code, print_help_or_error, read_arguments};
use std::fs;
use std::io::Read;
use std::process::ExitCode;
use trace_player::{MAX_BYTES, PlayFault, play};
use trace_views::{play_front, play_view};

// The name of standard input in messages.
const STANDARD_INPUT: &str = "standard input";

// The message about an upper bound that is below the lower one.
const OUT_OF_ORDER: &str =
    "invalid value for '--to <N>': it must not be less than the value of '--from <N>'";

// Returns the program's fault for a trace that was not played.
fn fault_of(fault: PlayFault) -> Fault
    ensures { result ≡ fault_of fault }
{
    match fault {
        PlayFault::Line(_) | PlayFault::TooLong => Fault::Input,
        PlayFault::Read => Fault::Read,
        PlayFault::Write => Fault::Write,
        PlayFault::Memory => Fault::Memory,
    }
}

// Returns the program's fault for a trace that was not played. Reports on standard error what was
// expected and what was found in `text`, which was read from `name`.
fn report(rt: &HostRuntime, name: &str, text: &[u8], fault: PlayFault) -> Fault
    ensures { result ≡ fault_of fault }
{
    report_fault(rt, name, text, fault);
    fault_of(fault)
}

// Plays a trace, and prints what the options ask for.
fn play_with(rt: &HostRuntime, text: &[u8], options: &Options<'_>) -> Result<(), PlayFault> {
    let mut writer = Counted::new(rt.stdout());
    if options.is_partial {
        return play_front(rt.alloc(), text, &options.view, &mut writer);
    }
    if options.is_plain() {
        play(rt.alloc(), &mut Counted::new(text), &mut writer)?;
        return Ok(());
    }
    play_view(rt.alloc(), text, &options.view, &mut writer)
}

// Plays a trace that was read from `name`, and prints what the options ask for.
fn play_text(
    rt: &HostRuntime,
    name: &str,
    text: &[u8],
    options: &Options<'_>,
) -> Result<(), Fault> {
    match play_with(rt, text, options) {
        Ok(()) => {
            report_left_out(rt, name, text);
            Ok(())
        }
        Err(fault) => Err(report(rt, name, text, fault)),
    }
}

// Plays the trace of a stream, which is called `name` in messages, and prints what the options ask
// for. It holds the whole text in memory, so that it can say what is wrong in it.
fn play_input<T: Read + Drop>(
    rt: &HostRuntime,
    name: &str,
    stream: T,
    options: &Options<'_>,
) -> Result<(), Fault> {
    let mut input = Counted::new(stream);
    match read_to_end_within(rt.alloc(), &mut input, MAX_BYTES) {
        Ok(text) => play_text(rt, name, text.as_slice(), options),
        Err(fault) => Err(report(rt, name, &[], PlayFault::from(fault))),
    }
}

// Plays the trace of the file, or of standard input if there is none.
fn play_file(rt: &HostRuntime, options: &Options<'_>) -> Result<(), Fault> {
    let Some(path) = options.file else {
        return play_input(rt, STANDARD_INPUT, rt.stdin(), options);
    };
    match fs::open(rt, path) {
        Ok(stream) => play_input(rt, path, stream, options),
        Err(error) => Err(report_not_opened(rt, path, error.kind())),
    }
}

// Reads the command line and runs its command. Returns the exit status: 0, or 2 if the command line
// is wrong.
fn run(rt: &HostRuntime) -> Result<u8, Fault> {
    let words = read_arguments(rt)?;
    let mut command = command_line(rt.alloc()).map_err(|_| Fault::Memory)?;
    let options = match command.try_get_matches_from_mut(words.as_slice()) {
        Ok(matches) => {
            let options = options_of(&matches);
            drop(matches);
            options
        }
        Err(error) => return print_help_or_error(rt, &error),
    };
    if is_in_order(&options.view) {
        play_file(rt, &options)?;
        return Ok(0);
    }
    match command.error(ErrorKind::ValueValidation, OUT_OF_ORDER) {
        Ok(error) => print_help_or_error(rt, &error),
        Err(_) => Err(Fault::Memory),
    }
}

fn main(rt: HostRuntime) -> ExitCode {
    exit_code(&rt, run(&rt))
}
