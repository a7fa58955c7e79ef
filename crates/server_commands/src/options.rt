//! The options of each command.
ghost use Rattle.std.specs.Prelude.{◌≡◌, true, codes, string_bytes, ℕ, List, Some, None};
ghost use Rattle.std.specs.Prelude.{IfOk, IfErr};
ghost use Rattle.std.specs.Option.{option_map};
ghost use Rattle.clap.specs.Matches.{first_value, found_of};
ghost use Rattle.program.specs.Passwords.{HasNoLineEnd};
ghost use Rattle.server_commands.specs.Asking.{is_of_asking};
ghost use Rattle.server_commands.specs.Options.{IsText, IsBounds, is_written};
ghost use Rattle.program.specs.Values.{IsFlag, IsNumber};

use clap::ArgMatches;
use clap::parser::ValueSource;
use program::{Fault, environment_password, read_password_file};
use std::alloc::{AllocGlobal, Global};
use std::fs::{File, Files};
use std::rt::Env;

/// The options of `hex`.
#[derive(Drop)]
pub struct HexOptions {
    /// The password of the management client, of any length.
    pub password: String,
    /// The name of the meter, of any length.
    pub device: String,
}

/// The limits and flags of `serve`.
#[derive(Clone, Copy, Debug)]
pub struct Bounds {
    /// The number of events that the trace keeps, 1 to 1,024.
    pub depth: u16,
    /// The number of bytes after which the journal is renewed, 4,096 to 16,777,216.
    pub journal_limit: u32,
    /// The number of journals before a renewal that are kept, 0 to 99.
    pub kept_journals: u16,
    /// The number of connections to accept; 0 means no limit.
    pub connections: u64,
    /// The time limit of a read or a write of a client, in seconds; 0 means no limit.
    pub inactivity: u32,
    /// The time limit of a client's session, in seconds; 0 means no limit.
    pub session: u32,
    /// Whether no more connections are accepted once standard input has ended.
    pub stops_with_input: bool,
    /// Whether the meter resumes from the trace at the head of standard input.
    pub resumes: bool,
    /// Whether moments that are far ahead pass.
    pub accepts_clock_steps: bool,
    /// Whether the group may read the files that are made.
    pub is_group_readable: bool,
    /// Whether connections and ends of sessions are reported on standard error.
    pub is_verbose: bool,
}

/// The options of `serve`.
#[derive(Drop)]
pub struct ServeOptions {
    /// The password of the management client, of any length.
    pub password: String,
    /// The name of the meter, of any length.
    pub device: String,
    /// Whether the command line gives the name of the meter; else it is the default.
    pub has_device: bool,
    /// The address that clients connect to.
    pub address: String,
    /// The path of the journal, if the meter has one.
    pub journal: Option<String>,
    /// The path of the file that is given the supply output, if there is one.
    pub relay: Option<String>,
    /// The limits and flags.
    pub bounds: Bounds,
}

// Copies a text.
fn copy_text(alloc: Global, text: &str) -> Result<String, Fault>
    ensures text { IfOk result (λ owned. string_bytes owned ≡ text.now) }
    ensures err { IfErr result (λ fault. is_of_asking fault ≡ true) }
{
    let mut owned = String::new(alloc);
    match owned.push_str(text) {
        Ok(()) => Ok(owned),
        Err(_) => Err(Fault::Memory),
    }
}

// Returns the text of an option; empty if it is not given.
fn text_of(alloc: Global, matches: &ArgMatches<'_>, name: &str) -> Result<String, Fault>
    ensures text { IfOk result
        (λ text. IsText (found_of matches.now) name.now (string_bytes text)) }
    ensures err { IfErr result (λ fault. is_of_asking fault ≡ true) }
{
    copy_text(alloc, matches.get_str(name).unwrap_or(""))
}

// Returns the text of an option, if it is given.
fn find_text(alloc: Global, matches: &ArgMatches<'_>, name: &str) -> Result<Option<String>, Fault>
    ensures text { IfOk result (λ text. option_map string_bytes text
        ≡ first_value (found_of matches.now) name.now) }
    ensures err { IfErr result (λ fault. is_of_asking fault ≡ true) }
{
    match matches.get_str(name) {
        Some(text) => Ok(Some(copy_text(alloc, text)?)),
        None => Ok(None),
    }
}

// Reads the options of `hex`.
pub(crate) fn hex_options<R: Env + AllocGlobal + Eprint + Files<File = File>>(
    rt: &R,
    matches: &ArgMatches<'_>,
) -> Result<HexOptions, Fault>
    ensures password { IfOk result (λ options. (text : List ℕ)
        → first_value (found_of matches.now) (codes "password") ≡ Some text
        → string_bytes options.password ≡ text) }
    ensures of_file { IfOk result (λ options. (path : List ℕ)
        → first_value (found_of matches.now) (codes "password") ≡ None
        → first_value (found_of matches.now) (codes "password-file") ≡ Some path
        → HasNoLineEnd (string_bytes options.password)) }
    ensures device { IfOk result
        (λ options. IsText (found_of matches.now) (codes "device") (string_bytes options.device)) }
    ensures err { IfErr result (λ fault. is_of_asking fault ≡ true) }
{
    let password = find_password(rt, matches)?;
    let device = text_of(rt.alloc(), matches, "device")?;
    Ok(HexOptions { password, device })
}

// Returns the password of the command line, else that of the file that it names, else that of the
// environment. Errors: those of a file without a password, and `Input` if the password of the
// environment is not UTF-8, with a line on standard error; `Memory`; `Input` if there is no
// password.
#[tactic(auto, using(crate::proofs::Faults::files_told))]
fn find_password<R: Env + AllocGlobal + Eprint + Files<File = File>>(
    rt: &R,
    matches: &ArgMatches<'_>,
) -> Result<String, Fault>
    ensures from_option { IfOk result (λ password. (text : List ℕ)
        → first_value (found_of matches.now) (codes "password") ≡ Some text
        → string_bytes password ≡ text) }
    ensures of_file { IfOk result (λ password. (path : List ℕ)
        → first_value (found_of matches.now) (codes "password") ≡ None
        → first_value (found_of matches.now) (codes "password-file") ≡ Some path
        → HasNoLineEnd (string_bytes password)) }
    ensures err { IfErr result (λ fault. is_of_asking fault ≡ true) }
{
    if let Some(text) = matches.get_str("password") {
        return copy_text(rt.alloc(), text);
    }
    if let Some(path) = matches.get_str("password-file") {
        return read_password_file(rt, path);
    }
    environment_password(rt)?.ok_or(Fault::Input)
}

// Returns the number of events that the trace keeps.
fn depth_of(matches: &ArgMatches<'_>) -> u16
    ensures { IsNumber 16 (found_of matches.now) (codes "depth") result }
{
    matches.get_one::<u16>("depth").unwrap_or(0)
}

// Returns the number of bytes after which the journal is renewed.
fn journal_limit_of(matches: &ArgMatches<'_>) -> u32
    ensures { IsNumber 32 (found_of matches.now) (codes "journal-limit") result }
{
    matches.get_one::<u32>("journal-limit").unwrap_or(0)
}

// Returns the number of journals before a renewal that are kept.
fn kept_journals_of(matches: &ArgMatches<'_>) -> u16
    ensures { IsNumber 16 (found_of matches.now) (codes "keep-journals") result }
{
    matches.get_one::<u16>("keep-journals").unwrap_or(0)
}

// Returns the number of connections to accept.
fn connections_of(matches: &ArgMatches<'_>) -> u64
    ensures { IsNumber 64 (found_of matches.now) (codes "connections") result }
{
    matches.get_one::<u64>("connections").unwrap_or(0)
}

// Returns the number of seconds of an option.
fn seconds_of(matches: &ArgMatches<'_>, name: &str) -> u32
    ensures { IsNumber 32 (found_of matches.now) name.now result }
{
    matches.get_one::<u32>(name).unwrap_or(0)
}

// Returns whether the words of the command line give an option.
fn is_written(matches: &ArgMatches<'_>, name: &str) -> bool
    ensures { result ≡ is_written (found_of matches.now) name.now }
{
    matches!(matches.value_source(name), Some(ValueSource::CommandLine))
}

// Returns whether an option without a value is given.
fn is_given(matches: &ArgMatches<'_>, name: &str) -> bool
    ensures { IsFlag (found_of matches.now) name.now result }
{
    matches.get_flag(name)
}

// Reads the limits and flags of `serve`.
fn bounds_of(matches: &ArgMatches<'_>) -> Bounds
    ensures { IsBounds (found_of matches.now) result }
{
    Bounds {
        depth: depth_of(matches),
        journal_limit: journal_limit_of(matches),
        kept_journals: kept_journals_of(matches),
        connections: connections_of(matches),
        inactivity: seconds_of(matches, "inactivity"),
        session: seconds_of(matches, "session"),
        stops_with_input: is_given(matches, "stop-with-input"),
        resumes: is_given(matches, "resume"),
        accepts_clock_steps: is_given(matches, "accept-clock-step"),
        is_group_readable: is_given(matches, "group-readable"),
        is_verbose: is_given(matches, "verbose"),
    }
}

// Reads the options of `serve`.
pub(crate) fn serve_options<R: Env + AllocGlobal + Eprint + Files<File = File>>(
    rt: &R,
    matches: &ArgMatches<'_>,
) -> Result<ServeOptions, Fault>
    ensures password { IfOk result (λ options. (text : List ℕ)
        → first_value (found_of matches.now) (codes "password") ≡ Some text
        → string_bytes options.password ≡ text) }
    ensures of_file { IfOk result (λ options. (path : List ℕ)
        → first_value (found_of matches.now) (codes "password") ≡ None
        → first_value (found_of matches.now) (codes "password-file") ≡ Some path
        → HasNoLineEnd (string_bytes options.password)) }
    ensures device { IfOk result
        (λ options. IsText (found_of matches.now) (codes "device") (string_bytes options.device)) }
    ensures has_device { IfOk result
        (λ options. options.has_device ≡ is_written (found_of matches.now) (codes "device")) }
    ensures address { IfOk result
        (λ options. IsText (found_of matches.now) (codes "listen") (string_bytes options.address)) }
    ensures journal { IfOk result (λ options. option_map string_bytes options.journal
        ≡ first_value (found_of matches.now) (codes "journal")) }
    ensures relay { IfOk result (λ options. option_map string_bytes options.relay
        ≡ first_value (found_of matches.now) (codes "relay")) }
    ensures bounds { IfOk result (λ options. IsBounds (found_of matches.now) options.bounds) }
    ensures err { IfErr result (λ fault. is_of_asking fault ≡ true) }
{
    let bounds = bounds_of(matches);
    let password = find_password(rt, matches)?;
    let device = text_of(rt.alloc(), matches, "device")?;
    let address = text_of(rt.alloc(), matches, "listen")?;
    let journal = find_text(rt.alloc(), matches, "journal")?;
    let relay = find_text(rt.alloc(), matches, "relay")?;
    Ok(ServeOptions {
        password,
        device,
        has_device: is_written(matches, "device"),
        address,
        journal,
        relay,
        bounds,
    })
}
