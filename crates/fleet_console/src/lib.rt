//! The console of a fleet of meters: lines that give events to meters, and ask for control states
//! and traces.
//!
//! `read_command` reads a line, and `run_command` carries it out on a fleet. `FleetConsole` does
//! both for the lines of an input, and writes the answers.
#![tactic(auto)]

mod command;
mod console;
mod fault;
mod law;
mod meters;
mod running;
mod slices;
mod words;

pub use command::{Command, read_command};
pub use console::{ConsoleInput, FleetConsole};
pub use fault::ConsoleFault;
pub use law::slices_give_all;
pub use meters::{MAX_METER, Meters};
pub use running::run_command;
