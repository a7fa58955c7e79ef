//! Plays the trace of a meter: from the text of an opening and of events, it writes a line for the
//! reply to each event.
//!
//! `read_trace` and `write_trace` read and write the text of a trace. `write_journal` writes one to
//! which the lines of further events may be appended. `play` reads a trace, runs
//! its events on a meter in the state of the opening, and writes a line for each.
#![tactic(auto)]

mod exporting;
mod fault;
mod journal;
mod laws;
mod output;
mod player;
mod playing;
mod ranges;
mod reading;
mod resuming;
mod writing;

pub use exporting::recorder_trace;
pub use fault::PlayFault;
pub use journal::{OPENING_LINES, is_journal, write_journal};
pub use laws::{
    appended_journal_is_read, exported_run_is_played, read_trace_is_written,
    recovered_journal_is_read, torn_tails_have_no_line, written_journal_is_read,
    written_journal_is_whole, written_trace_is_read,
};
pub use player::play;
pub use reading::{MAX_BYTES, read_trace};
pub use relay_recorder::Trace;
pub use resuming::{apply_events, resume_recorder};
pub use trace_words::TraceFault;
pub use writing::write_trace;
