//! The sockets of a served meter.
//!
//! [`Sockets`] accepts clients, whose streams have time limits for reads and writes, and reports
//! each client in the log. [`Closing`] ends the listening.
#![tactic(auto)]

mod accepting;
mod arrivals;
mod client_log;
mod closing;
mod deadline_stream;
mod limits;
mod listening;

pub use arrivals::Stopped;
pub use closing::Closing;
pub use deadline_stream::DeadlineStream;
pub use limits::StreamLimits;
pub use listening::Sockets;
