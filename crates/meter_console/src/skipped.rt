//! The lines of the console that have no event, and what is reported of them.
use std::fmt;

// The maximum number of bytes of a line that a message quotes.
const MAX_QUOTED: usize = 60;

// Why a line of the console is skipped.
#[derive(Clone, Copy, Debug, PartialEq, Eq)]
pub(crate) enum SkipReason {
    // The line does not begin with the first word of an event of the meter itself.
    OtherWord,
    // The line begins with the first word of an event, but has another form.
    NoEvent,
    // The line begins with the first word of an event, but ends with CR LF.
    CarriageReturn,
    // The line has more than 8,192 bytes with its end.
    TooLong,
    // The line is the last one, and does not end with the byte 0A.
    NotEnded,
}

// A line as a message quotes it: at most 60 bytes, those that are not printable ASCII as `\xNN`.
#[derive(Drop)]
struct Quoted<'a>(&'a [u8]);

impl fmt::Display for Quoted<'_> {
    fn fmt<W: fmt::Write>(&self, f: &mut fmt::Formatter<W>) -> fmt::Result {
        'bytes: for byte in self.0.iter().take(MAX_QUOTED) {
            if byte.is_ascii_graphic() || *byte == b' ' {
                f.write_char(char::from(*byte))?;
            } else {
                write!(f, "\\x{byte:02X}")?;
            }
        }
        if self.0.len() > MAX_QUOTED {
            f.write_str("..")?;
        }
        Ok(())
    }
}

// Returns what is expected of a line instead.
fn expected(reason: SkipReason) -> &'static str {
    match reason {
        SkipReason::OtherWord => "button, samples, pairs or moment",
        SkipReason::NoEvent => "the line of an event as a trace has it",
        SkipReason::CarriageReturn => "a line that ends with LF alone",
        SkipReason::TooLong => "at most 8,191 bytes",
        SkipReason::NotEnded => "a line end",
    }
}

// The number of lines that were skipped, by reason; each number stops at 2^64 - 1. Empty lines are
// not counted.
#[derive(Clone, Copy, Debug, PartialEq, Eq)]
pub(crate) struct SkippedLines {
    is_verbose: bool,
    other_word: u64,
    no_event: u64,
    carriage_return: u64,
    too_long: u64,
    not_ended: u64,
}

impl SkippedLines {
    // Returns the count before the first line. Nothing is reported unless `is_verbose`.
    pub(crate) fn new(is_verbose: bool) -> SkippedLines {
        SkippedLines {
            is_verbose,
            other_word: 0,
            no_event: 0,
            carriage_return: 0,
            too_long: 0,
            not_ended: 0,
        }
    }

    // Returns the number of lines that were skipped for this reason.
    fn count_of(&mut self, reason: SkipReason) -> &mut u64 {
        match reason {
            SkipReason::OtherWord => &mut self.other_word,
            SkipReason::NoEvent => &mut self.no_event,
            SkipReason::CarriageReturn => &mut self.carriage_return,
            SkipReason::TooLong => &mut self.too_long,
            SkipReason::NotEnded => &mut self.not_ended,
        }
    }

    // Counts a line that is skipped, and reports the first one of each reason.
    pub(crate) fn add<E: Eprint>(
        &mut self,
        errors: &E,
        number: u64,
        reason: SkipReason,
        line: &[u8],
    ) {
        if line.is_empty() {
            return;
        }
        let count = self.count_of(reason);
        let is_first = *count == 0;
        *count = count.saturating_add(1);
        if is_first && self.is_verbose {
            let text = expected(reason);
            let line = Quoted(line);
            let _ = eprintln!(errors;
                "console: line {number}: skipped: expected {text}, found `{line}`"
            );
        }
    }

    // Reports how many lines were skipped, if any. `left` are the bytes after the last line end.
    pub(crate) fn end<E: Eprint>(&mut self, errors: &E, number: u64, left: &[u8]) {
        self.add(errors, number, SkipReason::NotEnded, left);
        let sum = self
            .other_word
            .saturating_add(self.no_event)
            .saturating_add(self.carriage_return)
            .saturating_add(self.too_long)
            .saturating_add(self.not_ended);
        if sum > 0 && self.is_verbose {
            let _ = eprintln!(errors; "console: skipped {sum} lines in all");
        }
    }
}
