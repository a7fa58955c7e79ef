//! Readers and writers of bytes that count their failures.
//!
//! Contracts see the bytes that a [`Reader`] has left and those that a [`Writer`] has written, if
//! they are known, and how often either failed. So a caller that reports a failure of its stream
//! can prove that there was one. [`Counted`] makes a reader or a writer of a std stream.
//! [`read_to_end_within`] reads all bytes of a reader, and [`read_line_within`] reads a line
//! through a buffer around a [`Monitored`] std stream.
#![tactic(auto)]

mod counted;
mod fault;
mod input;
mod lines;
mod monitored;
mod streams;

pub use counted::Counted;
pub use fault::{InputFault, StreamFault};
pub use input::read_to_end_within;
pub use lines::read_line_within;
pub use monitored::Monitored;
pub use streams::{Reader, Writer};
