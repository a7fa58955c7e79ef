//! The beginning and the end of each program: the words of its command line, a command line without
//! work, and the exit status.
ghost use Rattle.std.specs.Prelude.{◌≡◌, true, IfOk, IfErr, IsOk, OnOk, nat_eq, string_bytes};
ghost use Rattle.std.specs.Io.KnownBytes.{Appends};
ghost use Rattle.std.specs.List.{list_any, starts_with};
ghost use Rattle.std.specs.Option.{option_map};
ghost use Rattle.std.specs.Process.{exit_status};
ghost use Rattle.clap.specs.Words.{AddsArg, AddsSubcommand, kind_of};
ghost use Rattle.program.specs.Ends.{is_of_words, is_of_texts, status_without_work, status_by, fault_line, first_of, password_line};
ghost use Rattle.program.specs.declared.fault.Fault.TheVariants.{Write};

use crate::fault::Fault;
use clap::error::ErrorKind;
use clap::{Arg, Command, Error};
use std::alloc::{AllocError, AllocGlobal};
use std::io::Write;
use std::process::ExitCode;
use std::rt::Env;
use std::{env, io};

// Returns the fault of a command line that cannot be read.
fn words_fault(kind: io::ErrorKind) -> Fault
    ensures { is_of_words result ≡ true }
{
    match kind {
        io::ErrorKind::OutOfMemory => Fault::Memory,
        _ => Fault::Input,
    }
}

/// Reads the words of the command line. Errors: `Input` if a word is not valid text, `Memory` if
/// out of memory.
pub fn read_arguments<R: Env + AllocGlobal>(rt: &R) -> Result<Vec<String>, Fault>
    ensures { IfErr result (λ fault. is_of_words fault ≡ true) }
{
    let words = match env::args(rt) {
        Ok(words) => words,
        Err(error) => return Err(words_fault(error.kind())),
    };
    match words.collect(rt.alloc()) {
        Ok(words) => Ok(words),
        Err(_) => Err(Fault::Memory),
    }
}

/// Returns whether a word of the command line begins with this one, the name of an option. clap
/// reports a longer word, unless `=` and the value of the option follow.
pub fn has_option(words: &[String], name: &str) -> bool
    ensures { result
        ≡ list_any (λ word. starts_with nat_eq (string_bytes word) name.now) words.now }
{
    for word in words {
        if word.as_bytes().starts_with(name.as_bytes()) {
            return true;
        }
    }
    false
}

/// Adds an argument to a command. On an error of `made`, or if out of memory, drops the argument
/// and returns the error.
pub fn with_argument<'a>(
    made: Result<Command<'a>, AllocError>,
    argument: Arg<'a>,
) -> Result<Command<'a>, AllocError>
    ensures made_ok { IfOk result (λ _. IsOk made.entry) }
    ensures added { IfOk result
        (λ command. IfOk made.entry (λ before. AddsArg before argument.entry command)) }
{
    match made {
        Ok(command) => command.arg(argument),
        Err(error) => {
            drop(argument);
            Err(error)
        }
    }
}

// Adds a subcommand to a program's command. On an error of `made`, or if out of memory, drops the
// command and returns the error.
fn add_subcommand<'a>(
    program: Command<'a>,
    made: Result<Command<'a>, AllocError>,
) -> Result<Command<'a>, AllocError>
    ensures made_ok { IfOk result (λ _. IsOk made.entry) }
    ensures added { IfOk result
        (λ command. IfOk made.entry
        (λ subcommand. AddsSubcommand program.entry subcommand command)) }
{
    match made {
        Ok(subcommand) => program.subcommand(subcommand),
        Err(error) => {
            drop(program);
            Err(error)
        }
    }
}

/// Adds a subcommand to a program's command. On an error of either, or if out of memory, drops both
/// and returns the error.
pub fn with_subcommand<'a>(
    program: Result<Command<'a>, AllocError>,
    made: Result<Command<'a>, AllocError>,
) -> Result<Command<'a>, AllocError>
    ensures program { IfOk result (λ _. IsOk program.entry) }
    ensures made_ok { IfOk result (λ _. IsOk made.entry) }
    ensures added { IfOk result
        (λ command. IfOk program.entry
        (λ before. IfOk made.entry (λ subcommand. AddsSubcommand before subcommand command))) }
{
    match program {
        Ok(program) => add_subcommand(program, made),
        Err(error) => {
            drop(made);
            Err(error)
        }
    }
}

/// Prints the text of a command line without work, and returns the exit status: 0 for help and the
/// version, 2 if the command line is wrong. Errors: `Memory` if out of memory, `Write` if the text
/// could not be printed.
pub fn print_help_or_error<R: Print + Eprint>(rt: &R, error: &Error) -> Result<u8, Fault>
    ensures status { IfOk result (λ status. status ≡ status_without_work (kind_of error.now)) }
    ensures fault { IfErr result (λ fault. is_of_texts fault ≡ true) }
{
    if error.kind() == ErrorKind::OutOfMemory {
        return Err(Fault::Memory);
    }
    match error.print(rt) {
        Ok(()) => Ok(if error.use_stderr() { 2 } else { 0 }),
        Err(_) => Err(Fault::Write),
    }
}

/// Returns the line, without its end, that says how a password is given, for an error of this kind
/// in the command line of a command whose one required argument is the password. Returns `None` if
/// that is not missing.
pub fn password_line(kind: ErrorKind) -> Option<&'static str>
    ensures { option_map (λ line. line.now) result ≡ password_line kind }
{
    match kind {
        ErrorKind::MissingRequiredArgument => {
            Some("password: expected --password, --password-file or the variable METER_PASSWORD")
        }
        _ => None,
    }
}

/// Prints the text of a command line without work, as [`print_help_or_error`] does. If the password
/// is missing, the one required argument, then writes a line on standard error that says how it is
/// given.
pub fn print_help_or_missing_password<R: Print + Eprint>(rt: &R, error: &Error) -> Result<u8, Fault>
    ensures status { IfOk result (λ status. status ≡ status_without_work (kind_of error.now)) }
    ensures fault { IfErr result (λ fault. is_of_texts fault ≡ true) }
{
    let status = print_help_or_error(rt, error)?;
    if let Some(line) = password_line(error.kind()) {
        let _ = eprintln!(rt; "{line}");
    }
    Ok(status)
}

/// Writes a whole text and flushes the output. Returns `Write` if that fails; then part of the text
/// may be written.
pub fn print_text<W: Write>(output: &mut W, text: &[u8]) -> Result<(), Fault>
    ensures ok { OnOk result (Appends (W.contents output.old) (W.contents output.new) text.now) }
    ensures err { IfErr result (λ fault. fault ≡ Write) }
{
    if output.write_all(text).is_err() {
        return Err(Fault::Write);
    }
    match output.flush() {
        Ok(()) => Ok(()),
        Err(_) => Err(Fault::Write),
    }
}

/// Returns the first fault of two parts of the work, in this order.
pub fn first_fault(first: Result<(), Fault>, second: Result<(), Fault>) -> Result<(), Fault>
    ensures { result ≡ first_of first second }
{
    match first {
        Ok(()) => second,
        Err(fault) => Err(fault),
    }
}

// Returns the line that reports a fault, without its line end.
fn fault_line(fault: Fault) -> &'static str
    ensures { result.now ≡ fault_line fault }
{
    match fault {
        Fault::Input => "fault: input",
        Fault::Read => "fault: read",
        Fault::Write => "fault: write",
        Fault::Listen => "fault: listen",
        Fault::Memory => "fault: memory",
        Fault::Turns => "fault: turns",
    }
}

/// Returns the exit status of the program: its own, or that of its fault. Reports a fault in a line
/// on standard error.
pub fn exit_code<R: Eprint>(rt: &R, done: Result<u8, Fault>) -> ExitCode
    ensures { exit_status result ≡ status_by done }
{
    match done {
        Ok(status) => ExitCode::from(status),
        Err(fault) => {
            let _ = eprintln!(rt; "{}", fault_line(fault));
            ExitCode::from(fault.status())
        }
    }
}
