//! The passwords of the jobs of `run` and `ask`: those of the file of `--passwords`, and the common
//! one.
ghost use Rattle.std.specs.Prelude.{◌≡◌, [], None, true, IfOk, IfErr, IfSome, IsOkAnd};
ghost use Rattle.std.specs.Prelude.{codes, length};
ghost use Rattle.std.specs.List.{All};
ghost use Rattle.std.specs.Option.{option_copied};
ghost use Rattle.acse_ber.specs.Password.{IsPassword};
ghost use Rattle.clap.specs.Matches.{first_value, found_of};
ghost use Rattle.head_end.specs.JobPasswords.{HavePasswords, wrong_line_in};
ghost use Rattle.head_end.specs.Jobs.{job_lines};
ghost use Rattle.program.specs.Passwords.{is_of_files};
ghost use Rattle.head_end_commands.specs.Doubles.{HasDouble};
ghost use Rattle.head_end_commands.specs.Faults.{list_fault, passwords_fault};
ghost use Rattle.head_end_commands.specs.Passwords.{ArePasswords};
ghost use Rattle.head_end_commands.specs.PlanFaults.{IsJobsFault, IsTextFault};

use crate::doubles::find_double;
use crate::messages::{LineFault, why_no_password};
use clap::ArgMatches;
use cosem_axdr::Octets;
use counted_io::{Counted, InputFault, read_to_end_within};
use head_end::{Jobs, PasswordsFault, passwords_for};
use program::{Fault, PasswordFault, is_exposed};
use std::fs::File;
use std::os::unix::fs::MetadataExt;
use thiserror::Error;
use wire_bytes::Listed;

// The maximum length of the file in bytes.
const MAX_LENGTH: usize = 1_048_576;

// Why the file of `--passwords` is not a list of passwords. Its message follows the file's path,
// and contains no password. Lines are counted from 1.
#[derive(Clone, Copy, Debug, Error)]
enum PasswordListFault {
    #[error("{0}")]
    File(PasswordFault),
    #[error("the file has more than 1,048,576 bytes")]
    TooLong,
    #[error("line {0}: expected `NAME PASSWORD`: {1}")]
    Line(u64, LineFault),
    #[error("line {0}: line {1} has the same name")]
    Double(u64, u64),
}

// Returns the program's fault.
impl From<PasswordListFault> for Fault {
    ghost from_gives = { λ fault program. program ≡ list_fault fault };

    fn from(fault: PasswordListFault) -> Fault {
        match fault {
            PasswordListFault::File(fault) => Fault::from(fault),
            PasswordListFault::TooLong
            | PasswordListFault::Line(_, _)
            | PasswordListFault::Double(_, _) => Fault::Input,
        }
    }
}

// Converts the fault of a file that is not read.
impl From<InputFault> for PasswordListFault {
    fn from(fault: InputFault) -> PasswordListFault {
        match fault {
            InputFault::TooLong => PasswordListFault::TooLong,
            InputFault::Read => PasswordListFault::File(PasswordFault::Read),
            InputFault::Memory => PasswordListFault::File(PasswordFault::Memory),
        }
    }
}

// Reads an open file that only its owner may access.
fn read_open_file(rt: &HostRuntime, file: &File) -> Result<Vec<u8>, PasswordListFault> {
    let Ok(metadata) = file.metadata() else {
        return Err(PasswordListFault::File(PasswordFault::Read));
    };
    if is_exposed(metadata.mode()) {
        return Err(PasswordListFault::File(PasswordFault::Exposed));
    }
    match read_to_end_within(rt.alloc(), &mut Counted::new(file), MAX_LENGTH) {
        Ok(text) => Ok(text),
        Err(fault) => Err(PasswordListFault::from(fault)),
    }
}

// Reads a file that only its owner may access.
fn read_own_file(rt: &HostRuntime, path: &str) -> Result<Vec<u8>, PasswordListFault> {
    match File::open(rt, path) {
        Ok(file) => {
            let text = read_open_file(rt, &file);
            drop(file);
            text
        }
        Err(_) => Err(PasswordListFault::File(PasswordFault::Read)),
    }
}

// Writes a line on standard error about the file of `--passwords`, and returns the program's
// fault.
fn report_list_fault(rt: &HostRuntime, path: &str, fault: PasswordListFault) -> Fault
    ensures { result ≡ list_fault fault }
{
    let _ = eprintln!(rt; "{path}: {fault}");
    Fault::from(fault)
}

// Returns the text of the file of `--passwords`, or an empty text without that option.
#[tactic(auto, using(crate::proofs::Plans::list_kind))]
fn read_list(rt: &HostRuntime, matches: &ArgMatches<'_>) -> Result<Vec<u8>, Fault>
    ensures no_file { first_value (found_of matches.now) (codes "passwords") ≡ None
        → IsOkAnd result (λ text. text.items ≡ []) }
    ensures err { IfErr result (λ fault. is_of_files fault ≡ true) }
{
    let Some(path) = matches.get_str("passwords") else {
        return Ok(Vec::new(rt.alloc()));
    };
    match read_own_file(rt, path) {
        Ok(text) => Ok(text),
        Err(fault) => Err(report_list_fault(rt, path, fault)),
    }
}

// Returns the number, counted from 1, of the line at a place.
fn line_number(place: usize) -> u64 {
    (place as u64).saturating_add(1)
}

// Writes a line on standard error about a job without a password.
fn report_job(rt: &HostRuntime, jobs: &Jobs, place: usize) {
    if let Some(job) = jobs.as_slice().get(place) {
        if let Ok(name) = str::from_utf8(job.id.as_slice()) {
            let _ = eprintln!(rt;
                "job {name}: it has no line in the file of --passwords, \
                and there is no common password"
            );
        }
    }
}

// Writes a line on standard error about a fault of the passwords of jobs, and returns the program's
// fault. `text` is the list of passwords, and `path` its file.
fn report_passwords_fault(
    rt: &HostRuntime,
    jobs: &Jobs,
    path: &str,
    text: &[u8],
    fault: PasswordsFault,
) -> Fault
    ensures { result ≡ passwords_fault fault }
{
    match fault {
        PasswordsFault::Line(number) => {
            let why = why_no_password(text, number);
            report_list_fault(rt, path, PasswordListFault::Line(number, why))
        }
        PasswordsFault::Job(place) => {
            report_job(rt, jobs, place);
            Fault::Input
        }
        PasswordsFault::Memory => Fault::Memory,
    }
}

// Returns the password of each job by a list of passwords, the text of the file at `path`, as
// `passwords` does. Errors, in this order: `Input` for the first wrong line; `Input` for the first
// job without a password; `Input` if two lines have one name. `Memory` can occur at any point.
fn passwords_in(
    rt: &HostRuntime,
    jobs: &Jobs,
    path: &str,
    text: &[u8],
    common: Option<&[u8]>,
) -> Result<Listed<Octets>, Fault>
    requires { IfSome (option_copied common) IsPassword }
    ensures passwords { IfOk result (HavePasswords (job_lines text.now)
        (option_copied common.entry) jobs.now) }
    ensures sized { IfOk result (λ passwords. All IsPassword passwords) }
    ensures paired { IfOk result (λ passwords. length passwords ≡ length jobs.now) }
    ensures no_wrong_line { IfOk result (λ passwords.
        wrong_line_in 1 (job_lines text.now) ≡ None) }
    ensures no_double { IfOk result (λ passwords. ¬ (HasDouble (job_lines text.now))) }
    ensures err { IfErr result (IsTextFault text.now (option_copied common.entry) jobs.now) }
{
    match passwords_for(rt.alloc(), jobs.as_slice(), text, common) {
        Ok(passwords) => match find_double(text) {
            None => Ok(passwords),
            Some((first, second)) => {
                drop(passwords);
                let fault = PasswordListFault::Double(line_number(second), line_number(first));
                Err(report_list_fault(rt, path, fault))
            }
        },
        Err(fault) => Err(report_passwords_fault(rt, jobs, path, text, fault)),
    }
}

// Returns the password of each job: that of its name in the file of `--passwords`, else the common
// one. If a job has none, or the file is not a list of passwords, writes a line on standard error.
// Errors: `Read` if the file cannot be read; `Input` if it is not a list of passwords, or a job has
// no password; `Memory`.
pub(crate) fn passwords(
    rt: &HostRuntime,
    matches: &ArgMatches<'_>,
    jobs: &Jobs,
    common: Option<&[u8]>,
) -> Result<Listed<Octets>, Fault>
    requires { IfSome (option_copied common) IsPassword }
    ensures passwords { IfOk result (ArePasswords (found_of matches.now)
        (option_copied common.entry) jobs.now) }
    ensures sized { IfOk result (λ passwords. All IsPassword passwords) }
    ensures paired { IfOk result (λ passwords. length passwords ≡ length jobs.now) }
    ensures err { IfErr result (IsJobsFault (found_of matches.now) (option_copied common.entry)) }
{
    let text = read_list(rt, matches)?;
    let path = matches.get_str("passwords").unwrap_or("passwords");
    let passwords = passwords_in(rt, jobs, path, text.as_slice(), common);
    drop(text);
    passwords
}
