//! Reads the lines of an input.
ghost use Rattle.std.specs.Prelude.{◌≡◌, ◌≤◌, ◌∷◌, ℕ, List, [], Some, IfOk, IfSome, IfNone, vec_capacity};
ghost use Rattle.std.specs.Io.KnownBytes.{Consumes, IsAtEnd};
ghost use Rattle.meter_console.specs.Lines.{TakesLine, SkipsLine};
ghost use Rattle.text_lines.specs.Lines.{lines_of};

use std::alloc::{AllocError, Global};
use std::io;
use std::io::{BufRead, ErrorKind};

// The maximum number of bytes of a line, with the byte 0A that ends it. Each line that has an
// event is shorter.
const MAX_LINE: usize = 8_192;

// The byte that ends a line.
const LINE_END: u8 = b'\n';

// The maximum number of bytes of a line without the byte that ends it.
const MAX_KEPT: usize = MAX_LINE - 1;

// The maximum number of attempts of a read that signals interrupt.
const MAX_TRIES: u32 = 1_000;

/// A buffer for one line, with the capacity of the longest line.
#[derive(Drop)]
pub struct LineBuffer {
    pub(crate) bytes: Vec<u8>,
    ghost room: { 8192 ≤ vec_capacity bytes },
}

impl LineBuffer {
    /// Allocates the buffer.
    pub fn new(alloc: Global) -> Result<LineBuffer, AllocError> {
        let bytes = Vec::with_capacity(alloc, MAX_LINE)?;
        Ok(LineBuffer { bytes })
    }
}

// The result of reading a line.
#[derive(Clone, Copy, Debug, PartialEq, Eq, Drop)]
pub(crate) enum NextLine {
    // A line, without the byte 0A that ended it.
    Whole,
    // A line of more than `MAX_LINE` bytes, which was skipped.
    TooLong,
    // No further line is ended.
    End,
    // A read failed.
    Failed,
}

// Reads the next byte; `None` at the end of the input. A read that a signal interrupts is retried.
fn next_byte<B: BufRead>(input: &mut B) -> io::Result<Option<u8>>
    ensures byte { IfOk result
        (λ next. IfSome next
        (λ byte. Consumes (B.remaining input.old) (B.remaining input.new) (byte ∷ []))) }
    ensures none { IfOk result (λ next. IfNone next (IsAtEnd (B.remaining input.old))) }
{
    let mut byte = [0];
    'tries: for _ in 0..MAX_TRIES {
        match input.read(&mut byte) {
            Ok(0) => return Ok(None),
            Ok(_) => return Ok(Some(byte[0])),
            Err(error) => {
                if error.kind() != ErrorKind::Interrupted {
                    return Err(error);
                }
            }
        }
    }
    Err(io::Error::from(ErrorKind::Interrupted))
}

// Reads the next line, of at most 8,192 bytes with the byte 0A that ends it. A longer line is
// skipped to its end. What follows the last byte 0A of the input is not a line.
#[tactic(auto, using(crate::proofs::LineLemmas::starts))]
pub(crate) fn next_line<B: BufRead>(input: &mut B, line: &mut Vec<u8>) -> NextLine
    requires capacity { 8192 ≤ vec_capacity line.old }
    ensures capacity { 8192 ≤ vec_capacity line.new }
    ensures whole { result ≡ NextLine.Whole → (bytes : List ℕ) → B.remaining input.old ≡ Some bytes
        → TakesLine bytes line.new.items (B.remaining input.new) }
    ensures too_long { result ≡ NextLine.TooLong → (bytes : List ℕ)
        → B.remaining input.old ≡ Some bytes → SkipsLine bytes (B.remaining input.new) }
    ensures end { result ≡ NextLine.End → (bytes : List ℕ) → B.remaining input.old ≡ Some bytes
        → lines_of bytes ≡ [] }
{
    line.clear();
    let mut is_long = false;
    'bytes: for _ in 0..u64::MAX {
        let byte = match next_byte(input) {
            Ok(Some(byte)) => byte,
            Ok(None) => return NextLine::End,
            Err(_) => return NextLine::Failed,
        };
        if byte == LINE_END {
            return if is_long {
                NextLine::TooLong
            } else {
                NextLine::Whole
            };
        }
        if line.len() < MAX_KEPT {
            let Ok(()) = line.push(byte) else {
                unreachable!()
            };
        } else {
            is_long = true;
        }
    }
    NextLine::Failed
}
