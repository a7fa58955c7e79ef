//! The commands of the program `head_end`: its command line; `check`, with the warnings and
//! findings about a list of jobs; and the plan of `run` and of `ask`: the options, the jobs and
//! their passwords.
#![tactic(auto)]

mod arguments;
mod doubles;
mod findings;
mod listing;
mod messages;
mod options;
mod passwords;
mod plan;
mod printing;
mod text_filter;
mod warnings;

pub use arguments::command_line;
pub use listing::check;
pub use plan::{CampaignPlan, plan_campaign, plan_jobs};
pub use printing::print_output;
