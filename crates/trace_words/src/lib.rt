//! The vocabulary that all lines of a trace share: reading the words of a line one by one, the
//! values of single words, lines that begin with a fixed word, the faults of a line and of a trace,
//! and the lines of a trace with their numbers.
//!
//! `TraceLines` holds the lines that are still to be read; its `read` reads the next line, a value
//! from its words. `HeldLines` owns its text and drops what has been read. Readers of a line take
//! its words with `next_word` and `last_word`, and the values of words with `parse_number`,
//! `parse_flag`, `parse_bytes` and `parse_data`; `read_labelled` reads a line of a first word and
//! one value. `add_flag`, `add_data` and `write_number_line` write.
#![tactic(auto)]

mod fault;
mod held;
mod labels;
mod place;
mod spelling;
mod version;
mod whole;
mod words;
mod writing;

pub use fault::{RowFault, TraceFault};
pub use held::HeldLines;
pub use labels::{read_label, read_labelled};
pub use place::TraceLines;
pub use spelling::parse_data;
pub use version::Version;
pub use words::{
    expect_end, last_word, next_long, next_word, parse_bytes, parse_flag, parse_long, parse_number,
};
pub use writing::{add_data, add_flag, write_number_line};
