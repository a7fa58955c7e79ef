//! Campaigns over scripted connections: lines in the order of the jobs, and calls of the watcher.
//! tests/campaigns.py has many more meters over TCP, and several numbers of workers.
ghost use Rattle.std.specs.Prelude.{◌≤◌, ◌≡◌, All, length, IfOk};
ghost use Rattle.acse_ber.specs.Password.{IsPassword};
ghost use Rattle.head_end.specs.Rows.{AreLines};

use crate::meters::{DONE, REJECTED, job, password};
use crate::scripts::{Everywhere, Meters};
use client_core::{Job, Outcome};
use cosem_axdr::Octets;
use head_end::{
    Attempt, Connector, Jobs, Report, Row, Watcher, jobs_may_be_cut, places_for, read_jobs,
    repeat_password, report, reports_stand_end_to_end, run_campaign, run_job, run_watched_campaign,
};
use std::alloc::{AllocError, Global};
use std::sync::atomic::{AtomicU64, Ordering};
use std::test::Fail;
use std::thread::Threads;

// The expected report of the three jobs.
const REPORT: &[u8] = b"m1 done 0\nm2 rejected 13\nm3 unknown\n";

/// Jobs at the two meters, and one at an address where there is none.
const THREE: &[u8] = b"m1 m1 disconnect\nm2 m2 disconnect\nm3 m3 disconnect\n";

/// Returns whether this is the text of a report.
fn is_report(alloc: Global, lines: &Report, text: &[u8]) -> Result<bool, AllocError> {
    let told = report(alloc, lines)?;
    let same = told.as_slice() == text;
    drop(told);
    Ok(same)
}

/// Returns the lines of jobs at meters, on places that are made for them.
fn lines_at<R: Threads + Sync, C: Connector>(
    rt: &R,
    alloc: Global,
    jobs: &Jobs,
    meters: &C,
    password: &Octets,
) -> Result<Report, AllocError>
    requires { IsPassword password.now }
    ensures { IfOk result (AreLines (C.tells meters.now) jobs.now) }
{
    let mut places = places_for(alloc, meters, jobs.len(), 2)?;
    let lines = run_campaign(rt, alloc, jobs, places.as_mut_slice(), password, 2);
    drop(places);
    lines
}

/// Returns the lines of the jobs.
fn lines_of<R: Threads + Sync>(rt: &R, alloc: Global, jobs: &Jobs) -> Result<Report, AllocError> {
    let password = password(alloc)?;
    let lines = lines_at(rt, alloc, jobs, &Meters, &password);
    drop(password);
    lines
}

/// Returns whether a report of three lines is the same once its lines were taken out and put back.
fn is_put_back(alloc: Global, report: Report) -> Result<bool, AllocError> {
    let has_three = report.len() == 3 && !report.is_empty();
    let again = Report::from_vec(report.into_vec());
    let same = is_report(alloc, &again, REPORT);
    drop(again);
    Ok(has_three && same?)
}

#[test]
fn a_report_has_a_line_for_each_job(rt: HostRuntime) -> Result<(), Fail> {
    let jobs = read_jobs(rt.alloc(), THREE)?;
    let lines = lines_of(&rt, rt.alloc(), &jobs);
    drop(jobs);
    assert!(rt; is_put_back(rt.alloc(), lines?) == Ok(true));
    Ok(())
}

/// Returns the row of a job, with the password 12345678.
fn row_with<C: Connector>(alloc: Global, job: &Job, meters: &C) -> Result<Row, AllocError> {
    let password = password(alloc)?;
    let mut attempt = Attempt::new(meters);
    let row = run_job(alloc, job, &mut attempt, &password);
    drop(attempt);
    drop(password);
    Ok(row)
}

/// Returns the row of a job at a meter that lists these bytes.
fn row_everywhere(alloc: Global, bytes: &'static [u8]) -> Result<Row, AllocError>
    requires { length bytes.now ≤ 1024 }
{
    let job = job(alloc, b"m1", b"anywhere")?;
    let row = row_with(alloc, &job, &Everywhere::new(bytes));
    drop(job);
    row
}

#[test]
fn a_meter_that_tells_is_asked(rt: HostRuntime) -> Result<(), Fail> {
    let alloc = rt.alloc();
    let is_done = row_everywhere(alloc, &DONE)? == Row::Came(Outcome::Done(0));
    let rejected = row_everywhere(alloc, &REJECTED)?;
    assert!(rt; is_done && rejected == Row::Came(Outcome::Rejected(13)));
    reports_stand_end_to_end();
    jobs_may_be_cut();
    Ok(())
}

/// A watcher that counts its calls, from the fourth digit on, and adds the digit of each job that
/// has its row.
#[derive(Drop)]
struct Tally {
    told: AtomicU64,
}

// The three jobs, each with its row and its digit in hexadecimal.
static ROWS: [(&[u8], Row, u64); 3] = [
    (b"m1", Row::Came(Outcome::Done(0)), 0x1),
    (b"m2", Row::Came(Outcome::Rejected(13)), 0x10),
    (b"m3", Row::Came(Outcome::Unknown), 0x100),
];

impl Watcher for Tally {
    fn on_job_done(&self, job: &Job, row: Row) {
        self.told.fetch_add(0x1000, Ordering::SeqCst);
        for (name, expected, digit) in &ROWS {
            if job.id.as_slice() == *name && row == *expected {
                self.told.fetch_add(*digit, Ordering::SeqCst);
            }
        }
    }
}

/// Returns the lines of jobs at the meters, with a tally as the watcher.
fn watched_lines<R: Threads + Sync>(
    rt: &R,
    alloc: Global,
    jobs: &Jobs,
    passwords: &[Octets],
    tally: &Tally,
) -> Result<Report, AllocError>
    requires passwords { All IsPassword passwords.now }
    requires paired { length passwords.now ≡ length jobs.now }
{
    let meters = Meters;
    let mut places = places_for(alloc, &meters, jobs.len(), 3)?;
    let places_now = places.as_mut_slice();
    let lines = run_watched_campaign(rt, alloc, jobs, places_now, passwords, 3, tally);
    drop(places);
    lines
}

/// Returns the lines of the jobs, all with the same password, with a tally as the watcher.
fn lines_with<R: Threads + Sync>(
    rt: &R,
    alloc: Global,
    jobs: &Jobs,
    tally: &Tally,
) -> Result<Report, AllocError> {
    let password = password(alloc)?;
    let passwords = repeat_password(alloc, &password, jobs.len());
    drop(password);
    let passwords = passwords?;
    let lines = watched_lines(rt, alloc, jobs, passwords.as_slice(), tally);
    drop(passwords);
    lines
}

#[test]
fn a_watcher_is_told_of_each_job(rt: HostRuntime) -> Result<(), Fail> {
    let tally = Tally {
        told: AtomicU64::new(0),
    };
    let jobs = read_jobs(rt.alloc(), THREE)?;
    let lines = lines_with(&rt, rt.alloc(), &jobs, &tally);
    drop(jobs);
    let has_three = match &lines {
        Ok(lines) => lines.len() == 3,
        Err(_) => false,
    };
    drop(lines);
    assert!(rt; has_three && tally.told.load(Ordering::SeqCst) == 0x3111);
    Ok(())
}
