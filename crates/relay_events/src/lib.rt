//! The inputs of a meter and its replies: the events of its core, their replies, and the lines of a
//! run.
//!
//! What an event does is defined in `relay_core`. `session_core` and `trace_lines` use events and
//! replies only, and depend on no core.
#![tactic(auto)]

mod event;
mod reply;

pub use event::{Event, Events};
pub use reply::{Line, Lines, Reply};
