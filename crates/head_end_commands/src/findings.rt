//! The findings of `check --verbose`: all wrong lines of a list, and all bytes of it that a reader
//! may not see.
use crate::messages::{LineFault, check_job_line};
use crate::text_filter::TextFilter;
use memchr::memchr;
use text_lines::Words;
use thiserror::Error;

// The byte order mark, with which some programs begin a text in UTF-8.
const MARK: &[u8] = b"\xEF\xBB\xBF";

// What begins at a byte of a line and is not part of a job.
#[derive(Clone, Copy, Debug, Error)]
enum ByteFinding {
    #[error("byte order mark (EF BB BF)")]
    Mark,
    #[error("carriage return (0D): lines end with 0A alone")]
    CarriageReturn,
    #[error("tab (09): one blank separates two words")]
    Tab,
    #[error("doubled blank: one blank separates two words")]
    DoubledBlank,
    #[error("blank at the start of the line")]
    FirstBlank,
    #[error("blank at the end of the line")]
    LastBlank,
}

// Writes all findings in a text to standard error, a line each, then their number. Lines with a
// name or an address of an earlier line are noted, and not counted.
pub(crate) fn report_findings(rt: &HostRuntime, text: &[u8]) {
    let mut number: u64 = 0;
    let mut count: u64 = 0;
    let mut earlier = EarlierLines::new(text);
    for line in text.split(|byte| *byte == b'\n') {
        number = number.saturating_add(1);
        if !line.is_empty() {
            count = count.saturating_add(report_bytes(rt, number, line));
            count = count.saturating_add(report_words(rt, number, line));
            earlier.note_double(rt, number, line);
            earlier.add(line);
        }
    }
    let _ = eprintln!(rt; "findings: {count}");
}

// Writes the bytes of a line that a reader may not see. Returns the number of lines written.
fn report_bytes(rt: &HostRuntime, number: u64, line: &[u8]) -> u64 {
    let mut count: u64 = 0;
    let mut byte: u64 = 0;
    for place in 0..line.len() {
        byte = byte.saturating_add(1);
        if let Some(finding) = finding_at(line, place) {
            count = count.saturating_add(1);
            let _ = eprintln!(rt; "line {number}: byte {byte}: {finding}");
        }
    }
    count
}

// Writes why a line is not a job, unless a finding in its bytes is the reason. Returns the number
// of lines written.
fn report_words(rt: &HostRuntime, number: u64, line: &[u8]) -> u64 {
    match check_job_line(line) {
        Ok(()) | Err(LineFault::Empty(_)) | Err(LineFault::Invisible(_, b'\r' | b'\t')) => 0,
        Err(LineFault::Invisible(_, 0xEF)) if has_mark(line) => 0,
        Err(fault) => {
            let _ = eprintln!(rt; "line {number}: expected `NAME ADDRESS VERB`: {fault}");
            1
        }
    }
}

// Returns whether the first byte EF of a line begins a byte order mark.
fn has_mark(line: &[u8]) -> bool {
    let from_first = memchr(0xEF, line).and_then(|place| line.get(place..));
    from_first.is_some_and(|rest| rest.starts_with(MARK))
}

// Returns the finding that begins at a place of a line, if there is one.
fn finding_at(line: &[u8], place: usize) -> Option<ByteFinding> {
    let rest = line.get(place..)?;
    match rest {
        [b'\r', ..] => Some(ByteFinding::CarriageReturn),
        [b'\t', ..] => Some(ByteFinding::Tab),
        [b' '] => Some(ByteFinding::LastBlank),
        [b' ', ..] if place == 0 => Some(ByteFinding::FirstBlank),
        [b' ', b' ', ..] => Some(ByteFinding::DoubledBlank),
        _ if rest.starts_with(MARK) => Some(ByteFinding::Mark),
        _ => None,
    }
}

// The lines before one of a text.
#[derive(Drop)]
struct EarlierLines<'a> {
    text: &'a [u8],
    names: TextFilter,
    addresses: TextFilter,
}

impl<'a> EarlierLines<'a> {
    // Returns the lines before the first one.
    fn new(text: &'a [u8]) -> EarlierLines<'a> {
        EarlierLines {
            text,
            names: TextFilter::new(),
            addresses: TextFilter::new(),
        }
    }

    // Remembers the name and the address of a line.
    fn add(&mut self, line: &[u8]) {
        self.names.add(word_of(line, 0));
        self.addresses.add(word_of(line, 1));
    }

    // Writes a note about a name or an address that an earlier line has too.
    fn note_double(&self, rt: &HostRuntime, number: u64, line: &[u8]) {
        let (name, address) = (word_of(line, 0), word_of(line, 1));
        if self.names.may_have(name) {
            self.note(rt, number, 0, name, "name");
        }
        if !address.is_empty() && self.addresses.may_have(address) {
            self.note(rt, number, 1, address, "address");
        }
    }

    // Writes a note if an earlier line has this word at the same place.
    fn note(&self, rt: &HostRuntime, number: u64, place: usize, word: &[u8], what: &'static str) {
        let mut first: u64 = 0;
        for line in self.text.split(|byte| *byte == b'\n') {
            first = first.saturating_add(1);
            if first == number {
                return;
            }
            if !line.is_empty() && word_of(line, place) == word {
                let _ = eprintln!(rt; "line {number}: note: line {first} has the same {what}");
                return;
            }
        }
    }
}

// Returns the word of a line at a place, or no bytes if it has none.
fn word_of(line: &[u8], place: usize) -> &[u8] {
    let mut words = Words::new(line);
    for _ in 0..place {
        let _ = words.next();
    }
    words.next().unwrap_or(b"")
}
