//! Reports why a file cannot be opened.
ghost use Rattle.std.specs.Prelude.{◌≡◌, ◌≢◌};
ghost use Rattle.program.specs.declared.fault.Fault.TheVariants as program;

use program::Fault;
use std::io::ErrorKind;

// Returns the program's fault for a file that cannot be opened.
fn fault_of_opening(kind: ErrorKind) -> Fault
    ensures memory { kind ≡ ErrorKind.OutOfMemory → result ≡ program.Memory }
    ensures read { kind ≢ ErrorKind.OutOfMemory → result ≡ program.Read }
{
    match kind {
        ErrorKind::OutOfMemory => Fault::Memory,
        _ => Fault::Read,
    }
}

// Returns why a file cannot be opened.
fn why_not_opened(kind: ErrorKind) -> &'static str {
    match kind {
        ErrorKind::NotFound => "no such file",
        ErrorKind::PermissionDenied => "permission denied",
        ErrorKind::NotADirectory => "a part of the path is no folder",
        ErrorKind::InvalidFilename => "the name is too long",
        ErrorKind::OutOfMemory => "out of memory",
        _ => "opening failed",
    }
}

// Returns the program's fault for a file that cannot be opened, and reports the reason on standard
// error.
pub(crate) fn report_not_opened(rt: &HostRuntime, path: &str, kind: ErrorKind) -> Fault
    ensures memory { kind ≡ ErrorKind.OutOfMemory → result ≡ program.Memory }
    ensures read { kind ≢ ErrorKind.OutOfMemory → result ≡ program.Read }
{
    let _ = eprintln!(rt; "{path}: {}", why_not_opened(kind));
    fault_of_opening(kind)
}
