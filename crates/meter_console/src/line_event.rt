//! The event of a line of the console.
ghost use Rattle.std.specs.Prelude.{◌≡◌, ◌↔◌, IfOk, IfSome, IfNone, OnErr, IsTrue};
ghost use Rattle.relay_events.specs.declared.event.Event.{Event};
ghost use Rattle.meter_console.specs.Console.{IsOwnWord, IsOwnLine, LineEvent};

use relay_events::Event;
use std::alloc::{AllocError, Global};
use text_lines::Words;
use trace_lines::read_event;
use trace_words::{RowFault, Version};

// Returns whether a word is the first word of an event of the meter itself.
fn is_own_word(word: &[u8]) -> bool
    ensures { IsTrue result ↔ IsOwnWord word.now }
{
    word == b"button".as_slice()
        || word == b"samples".as_slice()
        || word == b"pairs".as_slice()
        || word == b"moment".as_slice()
}

// Returns whether a line begins with such a word.
pub(crate) fn is_own_line(line: &[u8]) -> bool
    ensures { IsTrue result ↔ IsOwnLine line.now }
{
    match Words::new(line).next() {
        Some(first) => is_own_word(first),
        None => false,
    }
}

/// Returns the event of a line, which is passed without the byte 0A that ends it: a press, samples,
/// pairs or a moment, written as in a trace of version 2. Any other line has no event; if it does
/// not begin as one of these, nothing is allocated. Errors: out of memory.
pub fn console_event(alloc: Global, line: &[u8]) -> Result<Option<Event>, AllocError>
    ensures event { IfOk result (λ brought. IfSome brought (λ event. LineEvent line.now event)) }
    ensures none { IfOk result
        (λ brought. IfNone brought ((event : Event) → ¬ (LineEvent line.now event))) }
    ensures err { OnErr result (IsOwnLine line.now) }
{
    if !is_own_line(line) {
        return Ok(None);
    }
    match read_event(alloc, Version::Two, line) {
        Ok(event) => Ok(Some(event)),
        Err(RowFault::Wrong) => Ok(None),
        Err(RowFault::Memory) => Err(AllocError),
    }
}
