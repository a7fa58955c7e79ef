//! The console of a served meter: the lines of an input become the meter's own events.
//!
//! [`run_console`] reads the lines of an input and passes their events to an [`EventSink`];
//! [`start`] runs it in a thread of its own, over the channels of a [`Console`].
#![tactic(auto)]

mod channels;
mod clock_guard;
mod console;
mod line_event;
mod lines;
mod reading;
mod reported;
mod running;
mod sink;
mod skipped;

pub use channels::{ConsoleBlocks, ConsoleMoments, ConsolePresses, ConsoleSources, SourcesEnd};
pub use clock_guard::{ClockGuard, is_clock_step};
pub use console::Console;
pub use line_event::console_event;
pub use lines::LineBuffer;
pub use reading::{ConsoleObserver, Reading, start};
pub use reported::ReportedMoments;
pub use running::{ConsoleEnd, run_console};
pub use sink::EventSink;
