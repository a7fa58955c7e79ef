//! Prints the text of a command.
ghost use Rattle.std.specs.Prelude.{◌≡◌, IfErr, OnOk};
ghost use Rattle.std.specs.Io.KnownBytes.{Appends};
ghost use Rattle.program.specs.declared.fault.Fault.TheVariants.{Write as FailedWrite};

use program::{Fault, print_text};
use std::io::Write;

/// Writes a whole text and flushes the output. Returns `Write` if that fails, after a line on
/// standard error; then part of the text may be written.
pub fn print_output<W: Write>(rt: &HostRuntime, output: &mut W, text: &[u8]) -> Result<(), Fault>
    ensures printed { OnOk result
        (Appends (W.contents output.old) (W.contents output.new) text.now) }
    ensures err { IfErr result (λ fault. fault ≡ FailedWrite) }
{
    let printed = print_text(output, text);
    if printed.is_err() {
        let _ = eprintln!(rt; "standard output: a write failed");
    }
    printed
}
