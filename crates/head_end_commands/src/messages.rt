//! The messages that `--verbose` writes if standard input is not a list of jobs.
ghost use Rattle.std.specs.Prelude.{◌≡◌};
ghost use Rattle.head_end_commands.specs.Faults.{input_fault, jobs_fault};

use acse_ber::MAX_PASSWORD;
use client_core::Verb;
use counted_io::InputFault;
use head_end::{JobsFault, MAX_ADDRESS, MAX_ID};
use program::Fault;
use text_lines::{TextLines, Words};
use thiserror::Error;

// Returns the program's fault if standard input cannot be read.
pub(crate) fn input_fault(fault: InputFault) -> Fault
    ensures { result ≡ input_fault fault }
{
    match fault {
        InputFault::TooLong => Fault::Input,
        InputFault::Read => Fault::Read,
        InputFault::Memory => Fault::Memory,
    }
}

// Returns the program's fault if a text is not a list of jobs.
pub(crate) fn jobs_fault(fault: JobsFault) -> Fault
    ensures { result ≡ jobs_fault fault }
{
    match fault {
        JobsFault::Line(_) | JobsFault::TooMany => Fault::Input,
        JobsFault::Memory => Fault::Memory,
    }
}

// Why standard input is not a list of jobs. Its message is the line that `--verbose` writes.
//
// Lines, bytes and jobs are counted from 1.
#[derive(Clone, Copy, Debug, Error)]
pub(crate) enum ListFault {
    #[error("byte 1048577: the list has more than 1,048,576 bytes")]
    TooLong,
    #[error("line {0}: expected `NAME ADDRESS VERB`: {1}")]
    Line(u64, LineFault),
    #[error("job 1001: the list has more than 1,000 jobs")]
    TooMany,
    #[error("standard input: a read failed")]
    Read,
    #[error("standard input: out of memory")]
    Memory,
}

// Why a line is not a job: the first of its words that is missing or wrong, or a word too many.
#[derive(Clone, Copy, Debug, Error)]
pub(crate) enum LineFault {
    // The line ends before the word of this name.
    #[error("{0} is missing")]
    Missing(&'static str),
    // Two blanks, or a blank at the start or at the end of the line.
    #[error("{0} is empty (one blank separates two words)")]
    Empty(&'static str),
    // The word has more than this number of bytes.
    #[error("{0} has more than {1} bytes")]
    TooLong(&'static str, usize),
    // The word has this byte.
    #[error("{0} has the byte 0x{1:02X}, which is not visible ASCII")]
    Invisible(&'static str, u8),
    // The word has a byte that is not visible ASCII, and is not shown.
    #[error("{0} has a byte that is not visible ASCII")]
    Hidden(&'static str),
    // The third word is not a verb.
    #[error("VERB must be disconnect, reconnect or state")]
    Verb,
    // There is a fourth word.
    #[error("unexpected extra word")]
    Surplus,
}

impl ListFault {
    // Returns why standard input was not read.
    pub(crate) fn from_input(fault: InputFault) -> ListFault {
        match fault {
            InputFault::TooLong => ListFault::TooLong,
            InputFault::Read => ListFault::Read,
            InputFault::Memory => ListFault::Memory,
        }
    }

    // Returns why a text is not a list of jobs.
    pub(crate) fn from_jobs(text: &[u8], fault: JobsFault) -> ListFault {
        match fault {
            JobsFault::Line(number) => ListFault::Line(number, why_no_job(line_of(text, number))),
            JobsFault::TooMany => ListFault::TooMany,
            JobsFault::Memory => ListFault::Memory,
        }
    }
}

// Returns the line of a text with that number, counted from 1. A text with fewer ended lines has
// its last line after them.
fn line_of(text: &[u8], number: u64) -> &[u8] {
    let mut lines = TextLines::new(text);
    for _ in 1..number {
        let _ = lines.next();
    }
    lines.next().unwrap_or(lines.rest())
}

// Returns why a line is not a job.
fn why_no_job(line: &[u8]) -> LineFault {
    match check_job_line(line) {
        Ok(()) => LineFault::Surplus,
        Err(fault) => fault,
    }
}

// Returns why a line of a list of passwords, with that number, is not a name and a password.
pub(crate) fn why_no_password(text: &[u8], number: u64) -> LineFault {
    match check_password_line(line_of(text, number)) {
        Ok(()) => LineFault::Surplus,
        Err(fault) => fault,
    }
}

// Checks the first two words of a line of a list of passwords.
fn check_password_line(line: &[u8]) -> Result<(), LineFault> {
    let mut words = Words::new(line);
    check_word("NAME", words.next(), MAX_ID)?;
    match check_word("PASSWORD", words.next(), MAX_PASSWORD) {
        Ok(_) => Ok(()),
        Err(LineFault::Invisible(name, _)) => Err(LineFault::Hidden(name)),
        Err(fault) => Err(fault),
    }
}

// Checks that a line is a job: three words, the last a verb.
pub(crate) fn check_job_line(line: &[u8]) -> Result<(), LineFault> {
    let mut words = Words::new(line);
    check_word("NAME", words.next(), MAX_ID)?;
    check_word("ADDRESS", words.next(), MAX_ADDRESS)?;
    let verb = check_word("VERB", words.next(), usize::MAX)?;
    if Verb::from_word(verb).is_none() {
        return Err(LineFault::Verb);
    }
    match words.next() {
        Some(_) => Err(LineFault::Surplus),
        None => Ok(()),
    }
}

// Checks that a word has 1 to `most` bytes of visible ASCII, and returns it.
fn check_word<'a>(
    name: &'static str,
    word: Option<&'a [u8]>,
    most: usize,
) -> Result<&'a [u8], LineFault> {
    let word = word.ok_or(LineFault::Missing(name))?;
    if word.is_empty() {
        return Err(LineFault::Empty(name));
    }
    if word.len() > most {
        return Err(LineFault::TooLong(name, most));
    }
    match word.iter().find(|byte| !byte.is_ascii_graphic()) {
        Some(byte) => Err(LineFault::Invisible(name, *byte)),
        None => Ok(word),
    }
}
