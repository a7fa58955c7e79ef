//! Parses the command line of `meter_server` into the work that it requests.
ghost use Rattle.std.specs.Prelude.{◌≡◌, true, IfOk, IfErr};
ghost use Rattle.clap.specs.Matches.{subcommand_name_of};
ghost use Rattle.server_commands.specs.Asking.{is_of_asking};
ghost use Rattle.server_commands.specs.Works.{command_of};

use crate::arguments::command_line;
use crate::options::{HexOptions, ServeOptions, hex_options, serve_options};
use clap::ArgMatches;
use program::{
    Fault, has_option, is_password_in_environment, print_help_or_missing_password, read_arguments,
};
use std::alloc::{AllocGlobal, Global};
use std::fs::{File, Files};
use std::rt::Env;

/// The work that a command line requests.
#[derive(Drop)]
pub enum Work {
    /// No work: help, the version or the reason why the command line is wrong was printed. Holds
    /// the exit status, 0 or 2.
    Exit(u8),
    /// `apdu`.
    Apdu,
    /// `hex`.
    Hex(HexOptions),
    /// `serve`.
    Serve(ServeOptions),
}

// Returns the work of a command.
fn parse_command<R: Env + AllocGlobal + Eprint + Files<File = File>>(
    rt: &R,
    matches: &ArgMatches<'_>,
) -> Result<Work, Fault>
    ensures command { IfOk result (λ work. command_of work ≡ subcommand_name_of matches.now) }
    ensures err { IfErr result (λ fault. is_of_asking fault ≡ true) }
{
    match matches.subcommand() {
        Some(("serve", matches)) => Ok(Work::Serve(serve_options(rt, matches)?)),
        Some(("apdu", _)) => Ok(Work::Apdu),
        Some(("hex", matches)) => Ok(Work::Hex(hex_options(rt, matches)?)),
        _ => Err(Fault::Input),
    }
}

// Returns the work of a command line. `has_password`: the password is in the environment or in a
// file that the command line names.
#[tactic(auto, using(crate::proofs::Faults::texts_told))]
fn parse_work<R: Env + AllocGlobal + Print + Eprint + Files<File = File>>(
    rt: &R,
    words: &[String],
    has_password: bool,
) -> Result<Work, Fault>
    ensures { IfErr result (λ fault. is_of_asking fault ≡ true) }
{
    let Ok(command) = command_line(rt.alloc(), has_password) else {
        return Err(Fault::Memory);
    };
    match command.try_get_matches_from(words) {
        Ok(matches) => parse_command(rt, &matches),
        Err(error) => Ok(Work::Exit(print_help_or_missing_password(rt, &error)?)),
    }
}

/// Returns the work of the command line. The password of `serve` and `hex` is that of the option
/// `--password`, else that of the file that the option `--password-file` names, else that of the
/// environment variable METER_PASSWORD.
///
/// Errors: `Memory`; `Input` if a word or the password of the environment is not UTF-8; `Write` if
/// help, the version or why the command line is wrong could not be printed; `Read` if the file of
/// the password cannot be read, `Input` if it is exposed or is not one line of UTF-8 text, each
/// with a line on standard error.
#[tactic(auto, using(crate::proofs::Faults::words_told))]
pub fn parse_command_line<R: Env + AllocGlobal + Print + Eprint + Files<File = File>>(
    rt: &R,
) -> Result<Work, Fault>
    ensures { IfErr result (λ fault. is_of_asking fault ≡ true) }
{
    let words = read_arguments(rt)?;
    // (clap's `required_unless_present` would print the options of the usage in another order)
    let has_password = has_option(words.as_slice(), "--password-file")
        || is_password_in_environment(rt);
    parse_work(rt, words.as_slice(), has_password)
}
