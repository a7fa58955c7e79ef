//! The meter as a server: parallel sessions of clients, power samples, moments of the clock and
//! presses of the button on one meter, with one history.
#![tactic(auto)]

mod journaled;
mod listening;
mod ports;
mod serving_all;
mod workers;

pub use journaled::{JournaledPort, answers_are_durable, serve_journaled};
pub use listening::{Listener, Observer};
pub use port_threads::ListenFault;
pub use ports::{PortMeter, calls_are_entered, serve_port, session_keeps_its_port};
pub use relay_recorder::Recorder;
pub use serving_all::{ClientTerms, OwnSources, Served, Sources, serve, serve_all};
pub use session_core::SessionEnd;
pub use session_io::{HexFault, Meter, ServeFault, answer_apdu, run_hex, serve_session};
pub use shared_meter::{BlockSource, ButtonSource, Durability, Kept, MomentSource, NoJournal};
pub use turn_lock::{Busy, CallFault, Port, Shared};
