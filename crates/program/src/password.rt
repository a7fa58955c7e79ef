//! A password in the environment, or in a file, so that neither a command line nor the environment
//! shows it.
ghost use Rattle.std.specs.Prelude.{◌≡◌, ◌≤◌, ◌↔◌, Err, true, IfOk, IfErr, IsTrue, length};
ghost use Rattle.std.specs.Prelude.{string_bytes};
ghost use Rattle.program.specs.Passwords.{HasNoLineEnd, IsExposed, IsFileFault, IsFileOf};
ghost use Rattle.program.specs.Passwords.{IsLineFault, IsOfVariable, ReadsLine, SplitsLineEnd};
ghost use Rattle.program.specs.Passwords.{fault_of, is_of_files, variable_password};

use crate::fault::Fault;
use counted_io::{Counted, InputFault, Reader, read_to_end_within};
use std::alloc::{AllocError, AllocGlobal, Global};
use std::env;
use std::env::VarError;
use std::fs::{File, Files};
use std::os::unix::fs::MetadataExt;
use std::rt::Env;
use thiserror::Error;

// The environment variable that can hold the password.
const PASSWORD_VARIABLE: &str = "METER_PASSWORD";

// The permissions of others than the file's owner.
const OTHERS: u32 = 0o077;

// The maximum length of the file in bytes: more than any password has.
const MAX_LENGTH: usize = 1_024;

/// Why a file gave no password. It is displayed as what was expected.
#[derive(Clone, Copy, Debug, PartialEq, Eq, Error)]
pub enum PasswordFault {
    /// The file cannot be read.
    #[error("the file can't be read")]
    Read = 1,
    /// Others than the file's owner may read, change or run it.
    #[error("expected a file that only its owner may read, as chmod 600 makes it")]
    Exposed = 2,
    /// The file is not one line of UTF-8 text of at most 1,024 bytes.
    #[error("expected one line of text")]
    Line = 3,
    /// Out of memory.
    #[error("out of memory")]
    Memory = 4,
}

impl From<AllocError> for PasswordFault {
    ghost use Rattle.program.specs.declared.password.PasswordFault.TheVariants.{Memory};

    ghost from_gives = { λ _ fault. fault ≡ Memory };

    fn from(_error: AllocError) -> PasswordFault {
        PasswordFault::Memory
    }
}

/// Converts a fault to that of the program: `Read`, `Memory`, or `Input` for a file that is exposed
/// or has no password.
impl From<PasswordFault> for Fault {
    ghost from_gives = { λ fault program. program ≡ fault_of fault };

    fn from(fault: PasswordFault) -> Fault {
        match fault {
            PasswordFault::Read => Fault::Read,
            PasswordFault::Exposed | PasswordFault::Line => Fault::Input,
            PasswordFault::Memory => Fault::Memory,
        }
    }
}

/// Returns whether the environment has the variable `METER_PASSWORD`.
pub fn is_password_in_environment<R: Env + AllocGlobal>(rt: &R) -> bool {
    !matches!(env::var(rt, PASSWORD_VARIABLE), Err(VarError::NotPresent))
}

// Returns what the variable of the password gives, by how it was read. Errors: `Input` if it is not
// UTF-8, `Memory`.
fn variable_password(variable: Result<String, VarError>) -> Result<Option<String>, Fault>
    ensures { result ≡ variable_password variable }
{
    match variable {
        Ok(text) => Ok(Some(text)),
        Err(VarError::NotPresent) => Ok(None),
        Err(VarError::NotUnicode) => Err(Fault::Input),
        Err(VarError::OutOfMemory) => Err(Fault::Memory),
    }
}

/// Returns the password of the environment, or `None` if it has no variable `METER_PASSWORD`.
/// Errors: `Input` if it is not UTF-8, with a line on standard error; `Memory`.
pub fn environment_password<R: Env + AllocGlobal + Eprint>(rt: &R) -> Result<Option<String>, Fault>
    ensures variable { IsOfVariable result }
    ensures err { IfErr result (λ fault. is_of_files fault ≡ true) }
{
    let password = variable_password(env::var(rt, PASSWORD_VARIABLE));
    if matches!(password, Err(Fault::Input)) {
        let _ = eprintln!(rt; "METER_PASSWORD: expected UTF-8 text");
    }
    password
}

/// Returns whether others than the owner of a file of this mode may read, change or run it.
pub fn is_exposed(mode: u32) -> bool
    ensures { IsTrue result ↔ IsExposed mode }
{
    mode & OTHERS != 0
}

// Returns bytes without the byte 0A that may end them.
fn without_line_end(bytes: &[u8]) -> &[u8]
    ensures { SplitsLineEnd bytes.now result.now }
{
    match bytes.split_last() {
        Some((b'\n', line)) => line,
        _ => bytes,
    }
}

/// Returns the text of a file that has one line, without the byte 0A that may end it. Errors:
/// `Line` if there is another byte 0A or the text is not UTF-8, `Memory`.
pub fn line_of_file(alloc: Global, bytes: &[u8]) -> Result<String, PasswordFault>
    ensures text { IfOk result (λ text. IsFileOf (string_bytes text) bytes.now) }
    ensures err { IfErr result (IsLineFault bytes.now) }
{
    let line = without_line_end(bytes);
    if line.contains(&b'\n') {
        return Err(PasswordFault::Line);
    }
    let Ok(line) = str::from_utf8(line) else {
        return Err(PasswordFault::Line);
    };
    let mut text = String::new(alloc);
    text.push_str(line)?;
    Ok(text)
}

// Reads a password from an open file that has this mode. An exposed file is not read. Errors, in
// this order: `Exposed`; `Line` if there are more than 1,024 bytes, or `Read`; `Line` if they are
// not one line of UTF-8 text. `Memory` can occur while they are read and after.
fn read_open_file<R: Reader>(
    alloc: Global,
    mode: u32,
    reader: &mut R,
) -> Result<String, PasswordFault>
    requires { R.can_read reader.now }
    ensures text { IfOk result (λ text.
        ReadsLine (R.remaining reader.old) (R.remaining reader.new) (string_bytes text)) }
    ensures exposed { IsExposed mode
        → (result ≡ Err PasswordFault.Exposed) × (reader.new ≡ reader.old) }
    ensures err { IfErr result
        (IsFileFault mode (R.remaining reader.old) (R.failures reader.old)
        (R.remaining reader.new) (R.failures reader.new)) }
{
    if is_exposed(mode) {
        return Err(PasswordFault::Exposed);
    }
    match read_to_end_within(alloc, reader, MAX_LENGTH) {
        Ok(bytes) => line_of_file(alloc, bytes.as_slice()),
        Err(InputFault::TooLong) => Err(PasswordFault::Line),
        Err(InputFault::Read) => Err(PasswordFault::Read),
        Err(InputFault::Memory) => Err(PasswordFault::Memory),
    }
}

/// Reads a password from a file: one line of UTF-8 text, with or without the byte 0A at its end.
///
/// Errors, in this order: `Read` if the file cannot be opened; `Exposed` if others than its owner
/// may read, change or run it; `Line` if it has more than 1,024 bytes, or `Read`; `Line` if it is
/// not one line of UTF-8 text. `Memory` can occur at any point. No contract can say what a file of
/// the operating system has, so the order is tested.
#[tactic(auto, using(crate::proofs::PasswordLemmas::line_within_max))]
pub fn read_password<R: Files<File = File>>(
    files: &R,
    alloc: Global,
    path: &str,
) -> Result<String, PasswordFault>
    ensures one_line { IfOk result (λ text. HasNoLineEnd (string_bytes text)) }
    ensures within_max { IfOk result (λ text. length (string_bytes text) ≤ 1024) }
{
    let file = File::open(files, path).map_err(|_| PasswordFault::Read)?;
    let metadata = file.metadata().map_err(|_| PasswordFault::Read)?;
    read_open_file(alloc, metadata.mode(), &mut Counted::new(&file))
}

/// Reads a password from a file, as [`read_password`] does. On an error, writes a line on standard
/// error, `FILE: ` and what was expected, and returns the program's fault: `Read`, `Input` or
/// `Memory`.
pub fn read_password_file<R: AllocGlobal + Eprint + Files<File = File>>(
    rt: &R,
    path: &str,
) -> Result<String, Fault>
    ensures one_line { IfOk result (λ text. HasNoLineEnd (string_bytes text)) }
    ensures within_max { IfOk result (λ text. length (string_bytes text) ≤ 1024) }
    ensures err { IfErr result (λ fault. is_of_files fault ≡ true) }
{
    match read_password(rt, rt.alloc(), path) {
        Ok(text) => Ok(text),
        Err(fault) => {
            let _ = eprintln!(rt; "{path}: {fault}");
            Err(Fault::from(fault))
        }
    }
}
