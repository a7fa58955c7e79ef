//! What operators ask of a campaign's ledger, as text, and the answers of meters that were asked
//! later.
//!
//! `specs/Status.antt` defines the text of `head_end status`, and `specs/Answers.antt` the answer
//! that each line has.
#![tactic(auto)]

mod answer;
mod entering;
mod line;
mod state;

pub use answer::StateAnswer;
pub use entering::{enter_answers, latest_answer};
pub use line::{LedgerLine, LedgerTimes, MeterState};
pub use state::{Standing, standing_of, status};
