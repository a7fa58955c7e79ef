//! `plan_campaign` and `plan_jobs`: what a campaign starts with: its options, and its jobs, which
//! are those of the list in an input or are given.
ghost use Rattle.std.specs.Prelude.{◌≡◌, ◌≤◌, Ok, codes, length, IfOk, IfErr, IfSome};
ghost use Rattle.std.specs.List.{All};
ghost use Rattle.acse_ber.specs.Password.{IsPassword};
ghost use Rattle.clap.specs.Matches.{found_of};
ghost use Rattle.head_end_commands.specs.Lists.{AreJobsOf};
ghost use Rattle.head_end_commands.specs.Options.{AreLimits, AreWorkers, IsLimit};
ghost use Rattle.program.specs.Values.{IsNumber};
ghost use Rattle.head_end_commands.specs.Passwords.{ArePasswords, HasPasswords, IsCommonPassword};
ghost use Rattle.head_end_commands.specs.Passwords.{IsStored, stored_bytes};
ghost use Rattle.head_end_commands.specs.PlanFaults.{IsCampaignFault, IsCommonFault, IsJobsFault};
ghost use Rattle.head_end_commands.specs.PlanFaults.{IsPasswordFault, IsPlanFault, IsStoredFault};

use crate::listing::load_jobs;
use crate::passwords::passwords;
use acse_ber::MAX_PASSWORD;
use clap::ArgMatches;
use cosem_axdr::Octets;
use head_end::{Jobs, TcpLimits};
use program::{Fault, environment_password, read_password_file};
use std::alloc::Global;
use std::io::{IsTerminal, Read};
use std::time::Duration;
use wire_bytes::Listed;

/// The jobs and options of a campaign, all valid.
#[derive(Drop)]
pub struct CampaignPlan {
    /// The jobs, in the order of their list.
    pub jobs: Jobs,
    /// The password of each job, 1 to 32 bytes, in the same order.
    pub passwords: Listed<Octets>,
    /// The number of workers, 1 to 16.
    pub workers: u8,
    /// The time limits of each connection.
    pub limits: TcpLimits,
    /// Whether the progress is shown on standard error.
    pub is_shown: bool,
    ghost sized: { All IsPassword passwords },
    ghost paired: { length passwords ≡ length jobs },
    ghost some: { 1 ≤ workers },
    ghost within_max: { workers ≤ 16 },
}

// Returns the seconds of an option, or 0 if it has no value.
fn seconds_of(matches: &ArgMatches<'_>, name: &str) -> u32
    ensures { IsNumber 32 (found_of matches.now) name.now result }
{
    matches.get_one::<u32>(name).unwrap_or(0)
}

// Returns the time limit of an option. 0 seconds mean no limit, which is the greatest time:
// 4,294,967,295 s.
fn limit(matches: &ArgMatches<'_>, name: &str) -> Duration
    ensures { IsLimit (found_of matches.now) name.now result }
{
    let seconds = seconds_of(matches, name);
    Duration::from_secs(u64::from(if seconds == 0 { u32::MAX } else { seconds }))
}

// Returns the time limits of a connect and of a whole connection.
fn limits_of(matches: &ArgMatches<'_>) -> TcpLimits
    ensures { AreLimits (found_of matches.now) result }
{
    TcpLimits {
        connect: limit(matches, "connect-timeout"),
        answer: limit(matches, "timeout"),
    }
}

// Returns the number of the option `--workers`, or 4 if it has no value.
fn number_of_workers(matches: &ArgMatches<'_>) -> u8
    ensures { IsNumber 8 (found_of matches.now) (codes "workers") result }
{
    matches.get_one::<u8>("workers").unwrap_or(4)
}

// Returns the number of workers, 1 to 16.
fn workers(matches: &ArgMatches<'_>) -> u8
    ensures { AreWorkers (found_of matches.now) result }
{
    number_of_workers(matches).clamp(1, 16)
}

// Returns the bytes of a password. Errors: `Input` if they are not 1 to 32, `Memory`.
fn parse_password(alloc: Global, text: &str) -> Result<Octets, Fault>
    ensures sized { IfOk result IsPassword }
    ensures bytes { IfOk result (λ password. password ≡ text.now) }
    ensures err { IfErr result (IsPasswordFault text.now) }
{
    let bytes = text.as_bytes();
    if bytes.is_empty() || bytes.len() > MAX_PASSWORD {
        return Err(Fault::Input);
    }
    match Octets::from_slice(alloc, bytes) {
        Ok(password) => Ok(password),
        Err(_) => Err(Fault::Memory),
    }
}

// Returns the bytes of a password. If they are not 1 to 32, writes a line on standard error that
// reports it.
fn check_password(rt: &HostRuntime, text: &str) -> Result<Octets, Fault>
    ensures sized { IfOk result IsPassword }
    ensures bytes { IfOk result (λ password. password ≡ text.now) }
    ensures err { IfErr result (IsPasswordFault text.now) }
{
    let password = parse_password(rt.alloc(), text);
    if matches!(password, Err(Fault::Input)) {
        let _ = eprintln!(rt; "password: must be 1 to 32 bytes");
    }
    password
}

// Returns the password of the file of `--password-file`, else that of the environment. Errors:
// `Read` if the file cannot be read; `Input` if it has no password, or if the environment's is not
// UTF-8; `Memory`.
#[tactic(auto, using(crate::proofs::Stored::stored_variable))]
fn stored_password(rt: &HostRuntime, matches: &ArgMatches<'_>) -> Result<Option<String>, Fault>
    ensures { IsStored (found_of matches.now) (stored_bytes result) }
{
    match matches.get_str("password-file") {
        Some(path) => Ok(Some(read_password_file(rt, path)?)),
        None => environment_password(rt),
    }
}

// Returns the bytes of a stored password, by how it was read, or `None` if there is none. Errors:
// that of the read; `Input` if the password does not have 1 to 32 bytes, with a line on standard
// error; `Memory`.
fn check_stored(
    rt: &HostRuntime,
    stored: Result<Option<String>, Fault>,
) -> Result<Option<Octets>, Fault>
    ensures bytes { IfOk result (λ common. stored_bytes stored ≡ Ok common) }
    ensures sized { IfOk result (λ common. IfSome common IsPassword) }
    ensures err { IfErr result (IsStoredFault (stored_bytes stored)) }
{
    match stored {
        Ok(Some(text)) => Ok(Some(check_password(rt, text.as_str())?)),
        Ok(None) => Ok(None),
        Err(fault) => Err(fault),
    }
}

// Returns the common password: that of the command line, else that of the file that it names, else
// that of the environment, or `None` without one. Errors: those of a file without a password, and
// `Input` if the password does not have 1 to 32 bytes, with a line on standard error; `Memory`.
fn common_password(rt: &HostRuntime, matches: &ArgMatches<'_>) -> Result<Option<Octets>, Fault>
    ensures common { IfOk result (IsCommonPassword (found_of matches.now)) }
    ensures err { IfErr result (IsCommonFault (found_of matches.now)) }
{
    if let Some(text) = matches.get_str("password") {
        return Ok(Some(check_password(rt, text)?));
    }
    check_stored(rt, stored_password(rt, matches))
}

// Returns the password of each job.
fn job_passwords(
    rt: &HostRuntime,
    matches: &ArgMatches<'_>,
    jobs: &Jobs,
    common: &Option<Octets>,
) -> Result<Listed<Octets>, Fault>
    requires { IfSome common.now IsPassword }
    ensures passwords { IfOk result (ArePasswords (found_of matches.now) common.now jobs.now) }
    ensures sized { IfOk result (λ passwords. All IsPassword passwords) }
    ensures paired { IfOk result (λ passwords. length passwords ≡ length jobs.now) }
    ensures err { IfErr result (IsJobsFault (found_of matches.now) common.now) }
{
    match common {
        Some(password) => passwords(rt, matches, jobs, Some(password.as_slice())),
        None => passwords(rt, matches, jobs, None),
    }
}

// Returns the plan of these jobs, each with the password of its name, else the common one. Errors:
// those of the passwords, with a line on standard error that describes them.
fn plan_with(
    rt: &HostRuntime,
    matches: &ArgMatches<'_>,
    jobs: Jobs,
    common: &Option<Octets>,
) -> Result<CampaignPlan, Fault>
    requires { IfSome common.now IsPassword }
    ensures jobs { IfOk result (λ plan. plan.jobs ≡ jobs) }
    ensures limits { IfOk result (λ plan. AreLimits (found_of matches.now) plan.limits) }
    ensures workers { IfOk result (λ plan. AreWorkers (found_of matches.now) plan.workers) }
    ensures passwords { IfOk result (λ plan. ArePasswords (found_of matches.now) common.now
        plan.jobs plan.passwords) }
    ensures err { IfErr result (IsJobsFault (found_of matches.now) common.now) }
{
    match job_passwords(rt, matches, &jobs, common) {
        Ok(passwords) => Ok(CampaignPlan {
            jobs,
            passwords,
            workers: workers(matches),
            limits: limits_of(matches),
            is_shown: matches.get_flag("progress") || rt.stderr().is_terminal(),
        }),
        Err(fault) => {
            drop(jobs);
            Err(fault)
        }
    }
}

/// Validates the options, and gives these jobs their passwords. Drops the jobs if it fails.
///
/// Errors: first those of the common password: `Read` if the file of `--password-file` cannot be
/// read; `Input` if it has no password, if the environment's is not UTF-8, or if the password does
/// not have 1 to 32 bytes; `Memory`. Then those of the file of `--passwords`: `Read` if it cannot
/// be read; `Input` if it is not a list of passwords, or if a job has no password; `Memory`. A line
/// on standard error describes each fault but `Memory`.
pub fn plan_jobs(
    rt: &HostRuntime,
    matches: &ArgMatches<'_>,
    jobs: Jobs,
) -> Result<CampaignPlan, Fault>
    ensures jobs { IfOk result (λ plan. plan.jobs ≡ jobs) }
    ensures limits { IfOk result (λ plan. AreLimits (found_of matches.now) plan.limits) }
    ensures workers { IfOk result (λ plan. AreWorkers (found_of matches.now) plan.workers) }
    ensures passwords { IfOk result (λ plan. HasPasswords (found_of matches.now) plan.jobs
        plan.passwords) }
    ensures err { IfErr result (IsPlanFault (found_of matches.now)) }
{
    match common_password(rt, matches) {
        Ok(common) => {
            let plan = plan_with(rt, matches, jobs, &common);
            drop(common);
            plan
        }
        Err(fault) => {
            drop(jobs);
            Err(fault)
        }
    }
}

/// Validates the options and reads the jobs of the list in an input, and then the passwords of the
/// jobs. Writes the warnings about the jobs on standard error. A line there describes the fault.
///
/// Errors: first those of the common password, then those of the list of jobs (`Input` if it is not
/// one, `Read`, `Memory`), then those of the file of `--passwords`; [`plan_jobs`] lists the first
/// and the last.
pub fn plan_campaign<I: Read + Drop>(
    rt: &HostRuntime,
    matches: &ArgMatches<'_>,
    input: I,
) -> Result<CampaignPlan, Fault>
    ensures jobs { IfOk result (λ plan. AreJobsOf (I.remaining input) plan.jobs) }
    ensures limits { IfOk result (λ plan. AreLimits (found_of matches.now) plan.limits) }
    ensures workers { IfOk result (λ plan. AreWorkers (found_of matches.now) plan.workers) }
    ensures passwords { IfOk result (λ plan. HasPasswords (found_of matches.now) plan.jobs
        plan.passwords) }
    ensures err { IfErr result (IsCampaignFault (found_of matches.now) (I.remaining input)) }
{
    let common = common_password(rt, matches)?;
    let jobs = load_jobs(rt, input)?;
    let planned = plan_with(rt, matches, jobs, &common);
    drop(common);
    planned
}
