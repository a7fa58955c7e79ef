//! Serving a client of the meter: from the bytes of a request to the bytes of its answer, and from
//! a session's reader to its writer.
#![tactic(auto)]

mod answering;
mod fault;
mod form;
mod hex_session;
mod hex_text;
mod meter;
mod serving;
mod watch;

pub use answering::answer_apdu;
pub use fault::{HexFault, ServeFault, TextFault};
pub use hex_session::{play_session, run_hex};
pub use hex_text::read_hex;
pub use meter::Meter;
pub use serving::{serve_session, watch_session};
pub use watch::SessionWatch;
