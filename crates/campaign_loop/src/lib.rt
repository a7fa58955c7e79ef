//! The loop of a switching campaign: one thread that serves all connections of a
//! [`campaign_board::Board`].
//!
//! [`Wires`] are the connections. `specs/Driving.antt` defines what the loop does: it continues the
//! history of its board, and each connection has exactly what that history says.
#![tactic(auto)]

mod campaign;
mod course;
mod driving;
mod jobs;
mod notes;
mod planned;
mod rows;
mod turns;
mod wires;

pub use campaign::{LoopReport, run_campaign};
pub use course::Course;
pub use jobs::CampaignJobs;
pub use notes::add_notes;
pub use planned::{LoopPlan, LoopRun, run_plan};
pub use rows::report_of;
pub use turns::{LoopFault, LoopMemory, run};
pub use wires::{Waited, WireFault, WireRead, Wires};
