//! The forms in which frames are written: as their bytes, or as lines of hexadecimal.
ghost use Rattle.std.specs.Prelude.{◌≡◌, ℕ, List, IfErr, IfOk, OnOk, string_bytes};
ghost use Rattle.std.specs.Io.KnownBytes.{Appends};
ghost use Rattle.session_io.specs.Hexadecimal.{hex_line};
ghost use Rattle.session_io.specs.Serving.{as_bytes};
ghost use Rattle.session_io.specs.Order.{Passes, FailsToPass, writes};
ghost use Rattle.session_io.specs.Settling.{FailsToWrite};
ghost use Rattle.session_io.specs.Sides.{output_of};

use crate::fault::ServeFault;
use crate::watch::SessionWatch;
use counted_io::Writer;
use std::alloc::{AllocError, Global};

// A form in which frames are written.
pub(crate) trait Form {
    // Ghost value: the bytes that are written for a frame.
    ghost written_as: { List ℕ → List ℕ };

    // Writes a frame.
    fn write<V: SessionWatch, W: Writer>(
        alloc: Global,
        watch: &mut V,
        writer: &mut W,
        frame: &[u8],
    ) -> Result<(), ServeFault>
        requires { W.can_write writer.now }
        ensures bytes { OnOk result
            (Appends (W.contents writer.old) (W.contents writer.new) (written_as frame.now)) }
        ensures ready { OnOk result (W.can_write writer.new) }
        ensures failures_unchanged { OnOk result (W.failures writer.new ≡ W.failures writer.old) }
        ensures err { IfErr result
            (λ fault. FailsToWrite (output_of W.contents W.failures writer.old) fault
            (output_of W.contents W.failures writer.new)) }
        ensures passes { OnOk result
            (Passes (V.passed watch.old) (writes (written_as frame.now)) (V.passed watch.new)) }
        ensures fails_to_pass { IfErr result
            (λ fault. FailsToPass (V.passed watch.old) fault (V.passed watch.new)) };
}

// Frames are written as their bytes.
pub(crate) struct AsBytes;

impl Form for AsBytes {
    ghost written_as = { as_bytes };

    fn write<V: SessionWatch, W: Writer>(
        _alloc: Global,
        watch: &mut V,
        writer: &mut W,
        frame: &[u8],
    ) -> Result<(), ServeFault> {
        match watch.write_all(writer, frame) {
            Ok(()) => Ok(()),
            Err(_) => Err(ServeFault::Write),
        }
    }
}

// Each frame is written as a line of upper-case hexadecimal.
pub(crate) struct AsHexLine;

impl Form for AsHexLine {
    ghost written_as = { hex_line };

    fn write<V: SessionWatch, W: Writer>(
        alloc: Global,
        watch: &mut V,
        writer: &mut W,
        frame: &[u8],
    ) -> Result<(), ServeFault> {
        let line = line_of(alloc, frame)?;
        match watch.write_all(writer, line.as_bytes()) {
            Ok(()) => Ok(()),
            Err(_) => Err(ServeFault::Write),
        }
    }
}

// Returns the line of a frame.
fn line_of(alloc: Global, frame: &[u8]) -> Result<String, AllocError>
    ensures { IfOk result (λ line. string_bytes line ≡ hex_line frame.now) }
{
    let mut line = hex::encode_upper(alloc, frame)?;
    line.push('\n')?;
    Ok(line)
}
