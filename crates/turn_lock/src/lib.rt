//! A lock around one value, for any number of threads. All calls are in one legal history.
#![tactic(auto)]

mod board;
mod call_fault;
mod faults;
mod known;
mod lock;
mod lodged;
mod plays;
mod port;
mod steps;
mod turned;

pub use board::MAX_TURNS;
pub use call_fault::CallFault;
pub use faults::Busy;
pub use known::{JoinedPort, Known};
pub use lock::Shared;
pub use port::{Note, Port};
pub use turned::{Entry, Inspected, Turned};
