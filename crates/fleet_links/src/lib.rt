//! One connection of a fleet of meters: which meter an address means, and one turn of a connection
//! between its stream and its session.
//!
//! A connection borrows its meter, so that many connections can share one. A turn writes the
//! pending bytes, takes the frames that the session owes, and reads and feeds the bytes that
//! arrived, until the stream blocks or the connection is over.
#![tactic(auto)]

mod address;
mod link;
mod stream;

pub use address::meter_at;
pub use link::{FleetLink, LinkEnd, MAX_STEPS, Turn};
pub use stream::{Received, Sent, Stream};
