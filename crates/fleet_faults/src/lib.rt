//! Faults of a fleet's meters, for tests of head ends: which meters have which fault, and what the
//! clients of such a meter see.
//!
//! A plan draws the fault of each meter from a seed. `FaultyStream` injects a fault into a
//! connection, and `Delays` delays the events of slow connections.
#![tactic(auto)]

mod delays;
mod fault;
mod plan;
mod shares;
mod stream;

pub use delays::{Delay, Delays};
pub use fault::InjectedFault;
pub use plan::FaultPlan;
pub use shares::{FaultShares, ShareFault};
pub use stream::{FaultCourse, FaultyStream};
