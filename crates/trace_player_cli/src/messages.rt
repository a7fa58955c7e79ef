//! The messages on standard error: why a text is not a trace, and how many bytes a journal
//! has after its last whole line.
use text_lines::{TextLines, Words, read_number};
use thiserror::Error;
use trace_lines::MAX_EVENTS;
use trace_player::{MAX_BYTES, PlayFault};

// The lines of an opening of version 2 in their order, each as its first word and the names of the
// others. Version 1 does not have those that begin with `x`.
const OPENING: [&str; 31] = [
    "RELAYTRACE VERSION",
    "device HEX",
    "state STATE",
    "mode MODE",
    "value WATTS",
    "now SECONDS",
    "normal WATTS",
    "emergency WATTS",
    "minover SECONDS",
    "minunder SECONDS",
    "profile ID START DURATION",
    "groups ..",
    "actions OVER UNDER",
    "over RUN FIRED",
    "under RUN FIRED",
    "xvalue WATTS",
    "xnormal WATTS",
    "xemergency WATTS",
    "xminover SECONDS",
    "xminunder SECONDS",
    "xprofile ID START DURATION",
    "xgroups ..",
    "xactions OVER UNDER",
    "xover RUN FIRED",
    "xunder RUN FIRED",
    "scripts HEX",
    "schedule 0 SELECTOR TYPE ENTRIES",
    "schedule 1 SELECTOR TYPE ENTRIES",
    "schedule 2 SELECTOR TYPE ENTRIES",
    "schedule 3 SELECTOR TYPE ENTRIES",
    "events COUNT",
];

// The events, each as its first word and the names of the others.
const EVENTS: [&str; 8] = [
    "get L C NAME A S",
    "getlist L COUNT ..",
    "set L C NAME A S HEX",
    "execute L C NAME M HEX",
    "button",
    "samples ..",
    "pairs ..",
    "moment SECONDS",
];

// The number of lines before those of the export limiter.
const LINES_BEFORE_EXPORT: u64 = 15;

// The number of lines of the export limiter.
const EXPORT_LINES: u64 = 10;

// The maximum length in bytes of a word that is shown in a message.
const MAX_SHOWN: usize = 32;

// Why a line is wrong. Its message follows the line's number.
#[derive(Clone, Copy, Debug, PartialEq, Eq, Error)]
enum Why {
    // The text has ended, or the line has no end.
    #[error("expected a whole line, found the end of the trace")]
    Ended,
    // The line follows the last event that the opening counts.
    #[error("unexpected line: `events COUNT` counts fewer events")]
    Extra,
    // The line ends with a carriage return.
    #[error("expected a line feed at the end, found a carriage return before it")]
    CarriageReturn,
    // The first word is not that of an event.
    #[error("unknown event")]
    NoEvent,
    // A word of this form is missing: the form, and the name of the word.
    #[error("expected `{0}`: {1} is missing")]
    Missing(&'static str, &'static str),
    // A word of this form is not a number.
    #[error("expected `{0}`: {1} must be a decimal number")]
    NoNumber(&'static str, &'static str),
    // A word of this form is not hexadecimal.
    #[error("expected `{0}`: {1} must be pairs of the digits 0 to 9 and A to F")]
    NoBytes(&'static str, &'static str),
    // The line has more words than this form.
    #[error("expected `{0}`: unexpected extra word")]
    Surplus(&'static str),
    // The line has the words of this form, and the value of one is not valid.
    #[error("expected `{0}`: a value is not valid here")]
    Value(&'static str),
}

// Writes to standard error, in one line, why a trace was not played. `text` is the trace as far as
// it was read, and `name` what it was read from.
pub(crate) fn report_fault(rt: &HostRuntime, name: &str, text: &[u8], fault: PlayFault) {
    let _ = match fault {
        PlayFault::Line(number) => return report_line(rt, text, number),
        PlayFault::TooLong => {
            eprintln!(rt;
                "byte {}: the trace has more than 33,554,432 bytes",
                MAX_BYTES + 1
            )
        }
        PlayFault::Read => eprintln!(rt; "{name}: a read failed"),
        PlayFault::Write => eprintln!(rt; "standard output: a write failed"),
        PlayFault::Memory => eprintln!(rt; "out of memory"),
    };
}

// Writes to standard error why the line with this number is wrong.
fn report_line(rt: &HostRuntime, text: &[u8], number: u64) {
    let why = why_wrong(text, number);
    let _ = match shown_word(text, number) {
        Some(word) if why == Why::NoEvent => eprintln!(rt; "line {number}: {why} `{word}`"),
        _ => eprintln!(rt; "line {number}: {why}"),
    };
}

// Returns the first word of the line with this number, if it has 1 to `MAX_SHOWN` bytes of visible
// ASCII.
fn shown_word(text: &[u8], number: u64) -> Option<&str> {
    let word = Words::new(line_of(text, number)?).next()?;
    if word.is_empty() || word.len() > MAX_SHOWN || !word.iter().all(u8::is_ascii_graphic) {
        return None;
    }
    str::from_utf8(word).ok()
}

// Returns why the line with this number, counted from 1, is wrong in a text.
fn why_wrong(text: &[u8], number: u64) -> Why {
    let Some(line) = line_of(text, number) else {
        return Why::Ended;
    };
    if last_line(text).is_some_and(|last| number > last) {
        return Why::Extra;
    }
    if line.last() == Some(&b'\r') {
        return Why::CarriageReturn;
    }
    match form_of(text, number, line) {
        Some(form) => why_not(form, line),
        None => Why::NoEvent,
    }
}

// Writes to standard error, in one line, how many bytes of a journal were left out, if any. `text`
// is a trace that was read from `name`.
pub(crate) fn report_left_out(rt: &HostRuntime, name: &str, text: &[u8]) {
    let count = count_left_out(text);
    if count > 0 {
        let _ = eprintln!(rt;
            "{name}: bytes after the last whole line that were left out: {count}"
        );
    }
}

// Returns the number of bytes of a journal after its last whole line before the first byte 0.
// Returns 0 for a text without the line `events -`.
fn count_left_out(text: &[u8]) -> usize {
    let mut lines = TextLines::new(text);
    if lines.nth(head_len(text).saturating_sub(1) as usize) != Some(b"events -".as_slice()) {
        return 0;
    }
    let mut left = lines.rest().len();
    'lines: for line in lines {
        if line.contains(&0) {
            break 'lines;
        }
        left = left.saturating_sub(line.len()).saturating_sub(1);
    }
    left
}

// Returns the number of the line of the number of events.
fn head_len(text: &[u8]) -> u64 {
    let export = if is_version_1(text) { EXPORT_LINES } else { 0 };
    (OPENING.len() as u64).saturating_sub(export)
}

// Returns the number of the last line that the line `events COUNT` announces. Returns `None` if
// that line is missing, or announces no number.
fn last_line(text: &[u8]) -> Option<u64> {
    let head = head_len(text);
    let mut words = Words::new(line_of(text, head)?);
    if words.next()? != b"events".as_slice() {
        return None;
    }
    let count = read_number(words.next()?, u64::from(MAX_EVENTS))?;
    Some(head.saturating_add(count))
}

// Returns whether the first line is that of version 1.
fn is_version_1(text: &[u8]) -> bool {
    line_of(text, 1) == Some(b"RELAYTRACE 1".as_slice())
}

// Returns the line of a text with that number, counted from 1, or `None` if the text ends before
// the end of that line.
fn line_of(text: &[u8], number: u64) -> Option<&[u8]> {
    TextLines::new(text).nth(number.checked_sub(1)? as usize)
}

// Returns the form of the line with this number: that of a line of the opening, or of the event
// that its first word names. Returns `None` if the first word names no event.
fn form_of(text: &[u8], number: u64, line: &[u8]) -> Option<&'static str> {
    let place = if is_version_1(text) && number > LINES_BEFORE_EXPORT {
        number.saturating_add(EXPORT_LINES)
    } else {
        number
    };
    match OPENING.get(place.saturating_sub(1) as usize) {
        Some(form) => Some(*form),
        None => event_form(line),
    }
}

// Returns the form of the event that a line's first word names, if it names one.
fn event_form(line: &[u8]) -> Option<&'static str> {
    let verb = Words::new(line).next()?;
    'forms: for form in EVENTS.iter() {
        if Words::new(form.as_bytes()).next() == Some(verb) {
            return Some(*form);
        }
    }
    None
}

// Returns why a line does not have a form.
fn why_not(form: &'static str, line: &[u8]) -> Why {
    let mut words = Words::new(line);
    'names: for name in form.split(' ') {
        if name == ".." {
            return Why::Value(form);
        }
        let Some(word) = words.next() else {
            return Why::Missing(form, name);
        };
        if let Some(why) = why_not_word(form, name, word) {
            return why;
        }
    }
    match words.next() {
        Some(_) => Why::Surplus(form),
        None => Why::Value(form),
    }
}

// Returns why a word cannot be the word `name` of a form, or `None` if it can. A name in capitals
// is a placeholder for a number or for bytes, or for `-`, which is no value; any other name is the
// word itself.
fn why_not_word(form: &'static str, name: &'static str, word: &[u8]) -> Option<Why> {
    let is_none = word == b"-".as_slice();
    match name {
        "HEX" | "NAME" | "START" | "ENTRIES" if !is_none && !is_bytes(word) => {
            Some(Why::NoBytes(form, name))
        }
        "HEX" | "NAME" | "START" | "ENTRIES" => None,
        _ if is_placeholder(name) && !is_none && !is_number(word) => {
            Some(Why::NoNumber(form, name))
        }
        _ if !is_placeholder(name) && word != name.as_bytes() => Some(Why::Missing(form, name)),
        _ => None,
    }
}

// Returns whether a name of a form is a placeholder.
fn is_placeholder(name: &str) -> bool {
    name.as_bytes().iter().all(u8::is_ascii_uppercase) && name != "RELAYTRACE"
}

// Returns whether a word has the digits of a decimal number.
fn is_number(word: &[u8]) -> bool {
    !word.is_empty() && word.iter().all(u8::is_ascii_digit)
}

// Returns whether a word has two hexadecimal digits in capitals for each of its bytes.
fn is_bytes(word: &[u8]) -> bool {
    word.len() % 2 == 0
        && !word.is_empty()
        && word.iter().all(|byte| byte.is_ascii_digit() || (b'A'..=b'F').contains(byte))
}
