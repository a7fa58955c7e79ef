//! Views of a trace: the lines of its run that a person asks for.
//!
//! A `TraceView` says which lines of a run are shown: those of a range of events, or only those at
//! which the switch changes; whether each has its event; and whether they are shown as the player
//! prints them, as comma-separated values or as JSON. `view_trace` plays a trace and returns the
//! text of a view. `play_view` does so for the text of a trace, and writes it; `play_front` plays a
//! damaged trace up to its first wrong line.
#![tactic(auto)]

mod format;
mod front;
mod laws;
mod lines;
mod playing;
mod view;
mod viewing;

pub use format::TraceFormat;
pub use front::{Front, read_front};
pub use laws::{whole_front_is_trace, whole_view_is_output};
pub use playing::{play_front, play_view};
pub use view::TraceView;
pub use viewing::view_trace;
