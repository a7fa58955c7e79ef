//! Reads and writes the opening of a trace as text: the version of the format, the device name, the
//! switch, both limiters, the script table and the four schedules, each in one line of words or
//! several.
//!
//! Version 1 has no lines of the export limiter, which is then that of a new meter. A value of type
//! Data is written as its A-XDR encoding in hexadecimal.
//!
//! `read_opening` reads the opening from the lines of a trace (`trace_words::TraceLines`);
//! `write_opening` writes these lines, in version 2. An opening that is written is read back.
#![tactic(auto)]

mod laws;
mod limiter_fields;
mod limiter_lines;
mod limiter_writing;
mod opening_fields;
mod opening_lines;
mod opening_writing;
mod ranges;

pub use laws::{read_opening_is_written, written_opening_is_read};
pub use opening_lines::read_opening;
pub use opening_writing::write_opening;
pub use ranges::opening_is_writable;
