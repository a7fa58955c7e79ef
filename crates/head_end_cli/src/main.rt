//! The program `head_end`: `head_end check` counts the jobs of a list, `head_end run` runs them and
//! prints the report, `head_end ask` asks the meters of a ledger that gave no valid answer for
//! their states, and `head_end status` prints the state of the campaign of a ledger, or its jobs as
//! records.
//!
//! The jobs, the campaign and the report are those of the crate `head_end`, the command line and
//! `check` those of `head_end_commands`; this one has the standard streams and the exit status.
#![tactic(auto)]

mod asking;
mod campaign;
mod ledgered;
mod presence;
mod private_copy;
mod progress;
mod status;

use crate::asking::{ask, plan_asking};
use crate::ledgered::{LedgeredCampaign, plan_ledgered, run_ledgered};
use crate::status::print_status;
use clap::ArgMatches;
use head_end::TcpConnector;
use head_end_commands::{CampaignPlan, check, command_line, plan_campaign};
use program::{
    Fault, exit_code, has_option, is_password_in_environment, print_help_or_missing_password,
    read_arguments,
};
use sqlite::Unknown;
use std::process::ExitCode;

// The next step after the command line is read.
#[derive(Drop)]
enum HeadEndCommand {
    // Nothing more to do; exit with this status.
    Ended(u8),
    // Run a campaign.
    Campaign(CampaignPlan),
    // Run a campaign on its ledger.
    Ledgered(LedgeredCampaign),
    // Ask the meters of a ledger that gave no valid answer.
    Asking(LedgeredCampaign),
}

// Prepares the campaign of `run`, on its ledger if the option `--ledger` names one.
fn begin_run(rt: &HostRuntime, matches: &ArgMatches<'_>) -> Result<HeadEndCommand, Fault> {
    match matches.get_str("ledger") {
        Some(path) => Ok(HeadEndCommand::Ledgered(plan_ledgered(rt, matches, path, rt.stdin())?)),
        None => Ok(HeadEndCommand::Campaign(plan_campaign(rt, matches, rt.stdin())?)),
    }
}

// Runs `check` or `status`, or prepares the campaign of `run` or the questions of `ask`.
fn begin_command(rt: &HostRuntime, matches: &ArgMatches<'_>) -> Result<HeadEndCommand, Fault> {
    match matches.subcommand() {
        Some(("check", matches)) => {
            check(
                rt,
                rt.stdin(),
                matches.get_flag("verbose"),
                &mut rt.stdout(),
            )?;
            Ok(HeadEndCommand::Ended(0))
        }
        Some(("run", matches)) => begin_run(rt, matches),
        Some(("ask", matches)) => {
            let path = matches.get_str("ledger").unwrap_or("");
            Ok(HeadEndCommand::Asking(plan_asking(rt, matches, path)?))
        }
        Some(("status", matches)) => {
            print_status(rt, matches, &mut rt.stdout())?;
            Ok(HeadEndCommand::Ended(0))
        }
        _ => Err(Fault::Input),
    }
}

// Reads the command line and runs its command, except that a campaign is only prepared. The exit
// status is 2 if the command line is not valid.
fn begin(rt: &HostRuntime) -> Result<HeadEndCommand, Fault> {
    let alloc = rt.alloc();
    let words = read_arguments(rt)?;
    // (clap's `required_unless_present` would print the options of the usage in another order)
    let has_password = has_option(words.as_slice(), "--password-file")
        || has_option(words.as_slice(), "--passwords")
        || is_password_in_environment(rt);
    let command = command_line(alloc, has_password).map_err(|_| Fault::Memory)?;
    match command.try_get_matches_from(words.as_slice()) {
        Ok(matches) => begin_command(rt, &matches),
        Err(error) => {
            let status = print_help_or_missing_password(rt, &error)?;
            Ok(HeadEndCommand::Ended(status))
        }
    }
}

fn main(rt: HostRuntime) -> ExitCode {
    match begin(&rt) {
        Ok(HeadEndCommand::Ended(status)) => ExitCode::from(status),
        Ok(HeadEndCommand::Campaign(plan)) => {
            let connector = TcpConnector::new(rt, plan.limits);
            let done = campaign::run(&rt, &rt, &connector, &plan, &mut rt.stdout()).map(|_| 0);
            exit_code(&rt, done)
        }
        Ok(HeadEndCommand::Ledgered(plan)) => {
            let connector = TcpConnector::new(rt, plan.campaign.limits);
            let output = &mut rt.stdout();
            let done = run_ledgered(&rt, &rt, &connector, &plan, Unknown, output);
            exit_code(&rt, done.map(|_| 0))
        }
        Ok(HeadEndCommand::Asking(plan)) => {
            let connector = TcpConnector::new(rt, plan.campaign.limits);
            let output = &mut rt.stdout();
            let done = ask(&rt, &rt, &connector, &plan, Unknown, output);
            exit_code(&rt, done.map(|_| 0))
        }
        Err(fault) => exit_code(&rt, Err(fault)),
    }
}
