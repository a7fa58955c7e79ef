//! The limiter of DLMS/COSEM (IEC 62056-6-2, class 71), as it judges samples of a monitored value.
//! It counts how long the value has been over or under the active threshold, and decides at which
//! sample an action runs.
//!
//! Samples are `u32` watts, ten a second by definition. The contracts speak of the list of all
//! samples so far; the code keeps two counters and two flags.
#![tactic(auto)]

mod count;
mod kinds;
mod laws;
mod limiter;
mod settings;

pub use count::{Count, RUN_LIMIT, are_fit};
pub use kinds::{Fire, Kind};
pub use laws::{fired_means, fit_runs_mean, one_side, run_means};
pub use limiter::Limiter;
pub use settings::{Actions, MAX_GROUPS, Profile, Settings};
