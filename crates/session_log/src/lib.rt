//! The log of a server: its lines are queued, and a thread of its own writes them. What they say of
//! sessions: the meaning of each answer of the meter, how many requests were refused, and the time.
#![tactic(auto)]

mod answer;
mod count;
mod log;
mod log_time;
mod reason;

pub use answer::{AnswerKind, read_answer};
pub use count::AnswerCount;
pub use log::{Log, start_log};
pub use log_time::LogTime;
pub use reason::reason_of;
