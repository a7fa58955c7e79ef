//! The commands of the program `meter_server`: its command line, parsed into options; the plan of
//! `serve`, with a recorder that is new or resumed from a trace; and `apdu` and `hex`, each one
//! function from a text in hexadecimal to the text that a new meter answers.
#![tactic(auto)]

mod answers;
mod apdu;
mod arguments;
mod heading;
mod hex_session;
mod input;
mod lines;
mod messages;
mod options;
mod plan;
mod plan_fault;
mod reading;
mod requests;
mod texts;

pub use apdu::answer_text;
pub use heading::read_head;
pub use hex_session::play_text;
pub use messages::{CommandFault, RequestFault, report_fault};
pub use options::{Bounds, HexOptions, ServeOptions};
pub use plan::{ServePlan, has_name, make_plan};
pub use plan_fault::PlanFault;
pub use reading::{Work, parse_command_line};
