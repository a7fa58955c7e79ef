//! Switching campaigns: many jobs at many meters, run in parallel, with one report in the order of
//! the jobs.
//!
//! `specs/Connections.antt` defines what is known of the reads of a connection, `specs/Rows.antt`
//! the rows of the report that follow from it for every number of workers, `specs/Wires.antt` the
//! conversations over a connection, whatever the meter responds, and `specs/Attempts.antt` how a
//! job uses its attempt to reach its meter.
#![tactic(auto)]

mod attempt;
mod campaign;
mod connection;
mod conversing;
mod fault;
mod job_list;
mod jobs;
mod laws;
mod limited;
mod passwords;
mod placing;
mod printed;
mod report_lines;
mod reporting;
mod rounds;
mod row;
mod running;
mod tcp;
mod watching;

pub use attempt::Attempt;
pub use campaign::{blank_lines, run_campaign, run_watched_campaign};
pub use connection::{ConnectFault, Connection, Connector};
pub use conversing::{converse, give_up};
pub use fault::JobsFault;
pub use job_list::{Jobs, MAX_JOBS};
pub use jobs::{MAX_ADDRESS, MAX_ID, read_jobs};
pub use laws::{jobs_have_slots_of_their_own, jobs_may_be_cut, reports_stand_end_to_end};
pub use limited::{LimitedConnection, LimitedStream};
pub use passwords::{PasswordsFault, passwords_for, repeat_password};
pub use placing::{JobPlace, places_for};
pub use printed::{count_jobs, report_jobs};
pub use report_lines::Report;
pub use reporting::{add_report, report};
pub use rounds::{JobRounds, jobs_of_a_meter_run_in_order, rounds_of};
pub use row::{ReportLine, Row};
pub use running::run_job;
pub use tcp::{TcpConnector, TcpLimits};
pub use watching::{UnwatchedCampaign, Watcher};
