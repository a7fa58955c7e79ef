//! Reads one line of a buffered input, up to a limit of bytes.
ghost use Rattle.std.specs.Prelude.{◌≡◌, ◌≢◌, ◌-◌, ◌<◌, ◌≤◌, ◌^◌, All, length, take, true, IfErr, IfOk, IsErrOf, OnErr};
ghost use Rattle.std.specs.Io.KnownBytes.{Keeps};
ghost use Rattle.counted_io.specs.Lines.{AddsPart, AddsPiece, IsLineFault, ReadsLine, has_failed_in, left_in};

use crate::fault::InputFault;
use crate::monitored::Monitored;
use std::io::{BufRead, BufReader, Read};

// Returns the number of bytes up to and including the first 0A, or of all bytes if there is none.
fn line_len(bytes: &[u8]) -> usize
    ensures bound { result ≤ length bytes.now }
    ensures non_zero { 0 < length bytes.now → 0 < result }
    ensures no_earlier_end { All (λ byte. byte ≢ 10) (take (result - 1) bytes.now) }
{
    'bytes: for i in 0..bytes.len() {
        if bytes[i] == b'\n' {
            return i + 1;
        }
    }
    bytes.len()
}

// Appends the buffered bytes of the reader, up to and including the first 0A. Returns whether the
// line or the input ends there. After an error `line` and the bytes of the reader are unchanged.
fn add_piece<B: BufRead>(input: &mut B, line: &mut Vec<u8>) -> Result<bool, InputFault>
    ensures added { IfOk result
        (λ is_done. AddsPiece (B.remaining input.old) line.old.items is_done (B.remaining input.new)
        line.new.items) }
    ensures unchanged { OnErr result (line.new.items ≡ line.old.items) }
    ensures none_lost { OnErr result (Keeps (B.remaining input.old) (B.remaining input.new)) }
{
    let available = match input.fill_buf() {
        Ok(available) => available,
        Err(_) => return Err(InputFault::Read),
    };
    let end = line_len(available);
    line.extend_from_slice(&available[..end])?;
    let is_done = end == 0 || available[end - 1] == b'\n';
    input.consume(end);
    Ok(is_done)
}

// Returns the fault of a piece that was not appended: `Read` only if the stream has recorded a
// failed read.
fn piece_fault(fault: InputFault, has_failed: bool) -> InputFault
    ensures cause { result ≡ InputFault.Read → has_failed ≡ true }
    ensures never_too_long { result ≢ InputFault.TooLong }
{
    match fault {
        InputFault::Read if has_failed => InputFault::Read,
        _ => InputFault::Memory,
    }
}

/// Appends the next line of an input to `line`: the bytes up to and including the first 0A, or all
/// remaining bytes if there is none. Returns the number of these bytes, which is 0 at the end of
/// the input.
///
/// Errors: `TooLong` if `line` would then have more than `limit` bytes, `Read` if a read fails,
/// `Memory`. After an error the bytes that were read, a part of the next line, are at the end of
/// `line`; after `TooLong` it has more than `limit` bytes.
pub fn read_line_within<T: Read>(
    input: &mut BufReader<Monitored<T>>,
    line: &mut Vec<u8>,
    limit: usize,
) -> Result<usize, InputFault>
    requires { limit < 2 ^ 32 }
    ensures read { IfOk result
        (λ count. ReadsLine (left_in T.remaining input.old) line.old.items count
        (left_in T.remaining input.new) line.new.items) }
    ensures within { IfOk result (λ _. length line.new.items ≤ limit) }
    ensures err { IfErr result
        (IsLineFault limit (left_in T.remaining input.old) line.old.items
        (has_failed_in input.new)) }
    ensures too_long { IsErrOf result InputFault.TooLong → limit < length line.new.items }
    ensures part { OnErr result
        (AddsPart (left_in T.remaining input.old) line.old.items (left_in T.remaining input.new)
        line.new.items) }
{
    let start = line.len();
    'pieces: for _ in 0..limit + 1 {
        let is_done = match add_piece(input, line) {
            Ok(is_done) => is_done,
            Err(fault) => return Err(piece_fault(fault, input.get_ref().has_failed())),
        };
        if line.len() > limit {
            return Err(InputFault::TooLong);
        }
        if is_done {
            return Ok(line.len() - start);
        }
    }
    unreachable!()
}
