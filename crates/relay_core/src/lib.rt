//! The meter's core: it takes events one at a time and replies to each.
//!
//! `specs/World.antt` states what the meter is, `specs/Machine.antt` the effect of an event, and
//! `specs/Runs.antt` the effect of a list of events. A `RelayCore` represents a world and behaves
//! as that world does.
#![tactic(auto)]

mod access;
mod acting;
mod clock;
mod laws;
mod opening;
mod parts;
mod reading;
mod registers;
mod relay;
mod running;
mod sampling;
mod schedules;
mod scripts;
mod stretches;
mod writing;
mod written_groups;

pub use laws::{replies_fit, steps_are_requests, values_are_in_range, worlds_agree};
pub use opening::{LimiterOpening, MAX_DEVICE_NAME, Opening, OpeningFault};
pub use parts::Parts;
pub use relay::RelayCore;
pub use relay_events::{Event, Events, Line, Lines, Reply};
pub use running::{RunStop, run, step_to_line};
pub use schedules::Schedules;
pub use written_groups::WrittenGroups;
