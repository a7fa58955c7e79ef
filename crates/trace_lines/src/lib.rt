//! Reads and writes the lines of a trace after its opening: the number of events, a line of words
//! for each event, and the line of a reply.
//!
//! The line of an event is a first word (`get`, `getlist`, `set`, `execute`, `button`, `samples`,
//! `pairs` or `moment`) followed by the event's values, with one blank between words: numbers in
//! decimal, bytes in hexadecimal capitals, a value of type Data as its A-XDR encoding in
//! hexadecimal. Version 1 of the format has no `pairs`.
//!
//! `count_events` reads the number of events, and `next_event` each event, from the lines of a
//! trace (`trace_words::TraceLines`). The line `events -` states no number: the events are then all
//! whole lines of the text, as in a journal. `next_held_event` reads an event from lines that own
//! their text (`HeldLines`), and `read_event` from a single line. `write_event_count` and
//! `write_event` write these lines, in version 2; `write_line` writes the line of a reply. An event
//! that is written is read back if `fits_line` accepts it.
#![tactic(auto)]

mod event_counts;
mod event_lines;
mod event_places;
mod events;
mod items;
mod laws;
mod limits;
mod reply_lines;
mod samples;
mod words;
mod writing;

pub use event_counts::{
    MAX_EVENTS, count_events, read_event_count, read_stated_count, write_event_count,
    write_open_count,
};
pub use event_lines::write_event;
pub use event_places::{next_event, next_held_event};
pub use events::read_event;
pub use items::MAX_ITEMS;
pub use laws::{
    open_count_is_read, read_event_count_is_written, read_event_is_written,
    written_event_count_is_read, written_event_has_no_zero, written_event_is_read,
};
pub use limits::{event_is_traced, fits_line};
pub use reply_lines::write_line;
