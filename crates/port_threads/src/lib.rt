//! Threads over the ports of one lock: a thread for each connection, and threads for workers.
//!
//! [`serve_connections`] serves at most eight connections in parallel, each through a port of its
//! own. A [`ConnectionSource`] accepts connections, and a [`PortConnection`] serves its peer
//! through the port that it is lent. [`start_worker`] and [`join_worker`] do likewise for a
//! [`Worker`]. Every port that is split off is joined in again. This crate is independent of the
//! protocol of a connection and of the value that the lock protects.
#![tactic(auto)]

mod accepted;
mod connections;
mod flags;
mod serving;
mod session;
mod sessions;
mod worker;

pub use accepted::Accepted;
pub use connections::{Arrival, ConnectionSource, ListenFault, PortConnection};
pub use flags::SESSIONS;
pub use serving::serve_connections;
pub use worker::{Handed, Worker, WorkerPromise, WorkerThread, join_worker, start_worker};
