//! Switching campaigns on a ledger: a job's switching command is sent only with a permit of the
//! ledger, which the workers share through a lock. Also the questions to the meters whose commands
//! may have been sent and that gave no valid answer: each is asked for nothing but its state.
//!
//! `specs/Desks.antt` defines which histories of requests a shared ledger may have,
//! `specs/Uses.antt` how a job uses its attempt by the entry that was found, `specs/Campaigns.antt`
//! the lines and the commands of a whole campaign, and `specs/Texts.antt` what is printed of it.
//! `specs/Questions.antt` defines which meters are asked, and for what.
#![tactic(auto)]

mod asked_meters;
mod asking;
mod campaign;
mod desk;
mod laws;
mod meter_answers;
mod noting;
mod place;
mod plan;
mod request;
mod run;
mod running;
mod selection;
mod sharing;
mod texts;

pub use asked_meters::{AskedMeters, ask_meters};
pub use asking::{ask_to_send, report_outcome};
pub use desk::Desk;
pub use laws::questions_switch_nothing;
pub use meter_answers::answers_of;
pub use place::LedgeredPlace;
pub use plan::LedgeredPlan;
pub use request::{LedgerAnswer, LedgerRequest};
pub use run::{LedgeredRun, run_ledgered_campaign};
pub use running::{LedgeredJob, run_ledgered_job};
pub use selection::questions;
pub use texts::{LedgerTexts, run_on_ledger};
