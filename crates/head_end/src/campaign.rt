//! Runs many jobs at many meters in parallel, on 1 to 16 workers.
ghost use Rattle.std.specs.Prelude.{◌≡◌, ◌+◌, ◌*◌, ◌^◌, ◌<◌, ◌≤◌, ℕ, List, Option, length, map, slice_index_or, IfOk, OnOk, OnErr};
ghost use Rattle.std.specs.List.{All};
ghost use Rattle.acse_ber.specs.Password.{IsPassword};
ghost use Rattle.client_core.specs.declared.job.Job.{Job};
ghost use Rattle.head_end.specs.declared.row.Row.{Row};
ghost use Rattle.head_end.specs.declared.row.ReportLine.{ReportLine};
ghost use Rattle.head_end.specs.Attempts.{unused};
ghost use Rattle.head_end.specs.Campaigns.{place_at, slot_at, turns_for, slots_for, IsRun};
ghost use Rattle.head_end.specs.Campaigns.{EachChange, AreTried, AreTriedWith};
ghost use Rattle.head_end.specs.Connections.{Forecast};
ghost use Rattle.head_end.specs.Rounds.{AreRounds, AreWaiting, IsRoundRun, IsTurn};
ghost use Rattle.head_end.specs.Rows.{AreLines};

use crate::connection::Connector;
use crate::job_list::Jobs;
use crate::passwords::repeat_password;
use crate::placing::{JobPlace, turns_for};
use crate::report_lines::Report;
use crate::rounds::rounds_of;
use crate::row::{ReportLine, Row};
use crate::running::run_job;
use crate::watching::{UnwatchedCampaign, Watcher};
use client_core::Job;
use cosem_axdr::Octets;
use std::alloc::{AllocError, Global};
use std::thread;
use std::thread::Threads;

/// Runs all jobs on 1 to 16 workers, and returns their lines in the order of the jobs. The password
/// has 1 to 32 bytes.
///
/// Each job has one attempt, that of its place, and uses it as `run_job` does. Jobs that are next
/// to one another are run by different workers. Jobs of one address run one after the other, in the
/// order of the list: they are in different rounds, and a round begins when the one before it has
/// ended. All memory of the report is allocated before the first connection is made: an error
/// leaves all places unchanged.
pub fn run_campaign<R: Threads + Sync, C: Connector>(
    rt: &R,
    alloc: Global,
    jobs: &Jobs,
    places: &mut [JobPlace<C>],
    password: &Octets,
    workers: u8,
) -> Result<Report, AllocError>
    requires non_zero { 1 ≤ workers }
    requires within_max { workers ≤ 16 }
    requires password { IsPassword password.now }
    requires count { length places.old ≡ slots_for (length jobs.now) workers }
    requires unused { All (λ place. place.attempt.stage ≡ unused) places.old }
    ensures lines { IfOk result (λ lines. (tells : List ℕ → Option Forecast)
        → All (λ place. C.tells place.attempt.source.value ≡ tells) places.old
        → AreLines tells jobs.now lines) }
    ensures tried { IfOk result (λ lines. AreTried (turns_for (length jobs.now) workers)
        workers jobs.now password.now lines
        (map (λ place. place.attempt.stage) places.new)) }
    ensures unchanged_on_error { OnErr result (places.new ≡ places.old) }
{
    let passwords = repeat_password(alloc, password, jobs.len())?;
    let report = run_watched_campaign(
        rt,
        alloc,
        jobs,
        places,
        passwords.as_slice(),
        workers,
        &UnwatchedCampaign,
    );
    drop(passwords);
    report
}

/// Runs all jobs as [`run_campaign`] does, each with its own password of 1 to 32 bytes, and calls a
/// watcher after each job. The passwords are in the order of the jobs.
pub fn run_watched_campaign<R: Threads + Sync, C: Connector, W: Watcher>(
    rt: &R,
    alloc: Global,
    jobs: &Jobs,
    places: &mut [JobPlace<C>],
    passwords: &[Octets],
    workers: u8,
    watcher: &W,
) -> Result<Report, AllocError>
    requires non_zero { 1 ≤ workers }
    requires within_max { workers ≤ 16 }
    requires passwords { All IsPassword passwords.now }
    requires paired { length passwords.now ≡ length jobs.now }
    requires count { length places.old ≡ slots_for (length jobs.now) workers }
    requires unused { All (λ place. place.attempt.stage ≡ unused) places.old }
    ensures lines { IfOk result (λ lines. (tells : List ℕ → Option Forecast)
        → All (λ place. C.tells place.attempt.source.value ≡ tells) places.old
        → AreLines tells jobs.now lines) }
    ensures tried { IfOk result (λ lines. AreTriedWith (turns_for (length jobs.now) workers)
        workers jobs.now passwords.now lines
        (map (λ place. place.attempt.stage) places.new)) }
    ensures names { IfOk result (λ lines. map (λ line. line.id) lines
        ≡ map (λ job. job.id) jobs.now) }
    ensures unchanged_on_error { OnErr result (places.new ≡ places.old) }
{
    let workers = usize::from(workers);
    let turns = turns_for(jobs.len(), workers).ok_or(AllocError)?;
    let mut lines = blank_lines(alloc, jobs.as_slice())?;
    let rounds = rounds_of(alloc, jobs.as_slice())?;
    let campaign = Campaign {
        jobs: jobs.as_slice(),
        passwords,
        rounds: rounds.of_jobs.as_slice(),
        count: rounds.count,
        turns,
        workers,
        watcher,
    };
    campaign.fill(rt, alloc, places, lines.as_mut_slice());
    drop(rounds);
    Ok(Report::from_vec(lines))
}

// The values that all workers of a campaign share: `rounds` has the round of each job, `count` is
// the number of rounds, and `turns` the number of places of each worker.
#[derive(Drop)]
struct Campaign<'a, W: Watcher> {
    jobs: &'a [Job],
    passwords: &'a [Octets],
    rounds: &'a [usize],
    count: usize,
    turns: usize,
    workers: usize,
    watcher: &'a W,
    ghost some_turns: { 0 < turns },
    ghost some_workers: { 0 < workers },
    ghost fits: { turns * workers < 2 ^ 64 },
    ghost sized: { All IsPassword passwords.now },
    ghost paired: { length passwords.now ≡ length jobs.now },
    ghost ordered: { AreRounds jobs.now rounds.now count },
}

impl<'a, W: Watcher> Campaign<'a, W> {
    // Runs all jobs, and stores their rows in their lines. It allocates nothing except for the
    // conversations of the jobs.
    fn fill<R: Threads + Sync, C: Connector>(
        &self,
        rt: &R,
        alloc: Global,
        places: &mut [JobPlace<C>],
        lines: &mut [ReportLine],
    )
        requires slots { length places.old ≡ self.now.turns * self.now.workers }
        requires room { length self.now.jobs.now < self.now.turns * self.now.workers }
        requires unused { All (λ place. place.attempt.stage ≡ unused) places.old }
        requires names { map (λ line. line.id) lines.old ≡ map (λ job. job.id) self.now.jobs.now }
        ensures lines { (tells : List ℕ → Option Forecast)
            → All (λ place. C.tells place.attempt.source.value ≡ tells) places.old
            → AreLines tells self.now.jobs.now lines.new }
        ensures tried { AreTriedWith self.now.turns self.now.workers self.now.jobs.now
            self.now.passwords.now lines.new (map (λ place. place.attempt.stage) places.new) }
        ensures names { map (λ line. line.id) lines.new
            ≡ map (λ job. job.id) self.now.jobs.now }
        ensures len { length lines.new ≡ length lines.old }
    {
        self.work(rt, alloc, places);
        gather(lines, places, self.turns, self.workers);
    }

    // Runs the jobs of all slots, round by round.
    fn work<R: Threads + Sync, C: Connector>(
        &self,
        rt: &R,
        alloc: Global,
        places: &mut [JobPlace<C>],
    )
        requires slots { length places.old ≡ self.now.turns * self.now.workers }
        requires unused { All (λ place. place.attempt.stage ≡ unused) places.old }
        ensures { EachChange (λ slot old new. IsRun self.now.turns self.now.workers
            self.now.jobs.now self.now.passwords.now slot (C.tells old.attempt.source.value)
            new.attempt.stage new.row) places.old places.new }
    {
        'rounds: for round in 0..self.count {
            self.work_round(rt, alloc, round, places);
        }
    }

    // Runs the jobs of a round.
    fn work_round<R: Threads + Sync, C: Connector>(
        &self,
        rt: &R,
        alloc: Global,
        round: usize,
        places: &mut [JobPlace<C>],
    )
        requires slots { length places.old ≡ self.now.turns * self.now.workers }
        requires waiting { AreWaiting self.now.turns self.now.workers self.now.rounds.now round
            (λ place. place.attempt.stage) places.old }
        ensures { EachChange (λ slot old new. IsRoundRun self.now.turns self.now.workers
            self.now.jobs.now self.now.passwords.now self.now.rounds.now round slot
            (C.tells old.attempt.source.value) (C.tells new.attempt.source.value)
            old.attempt.stage new.attempt.stage old.row new.row) places.old places.new }
    {
        let campaign = self;
        thread::for_each_mut(
            rt,
            places,
            self.workers,
            &|slot, place|
                requires { (slot < campaign.now.turns * campaign.now.workers)
                    × (IsTurn campaign.now.turns campaign.now.workers campaign.now.rounds.now round
                    slot → place.now.attempt.stage ≡ unused) }
                ensures { IsRoundRun campaign.entry.now.turns campaign.entry.now.workers
                    campaign.entry.now.jobs.now campaign.entry.now.passwords.now
                    campaign.entry.now.rounds.now round slot
                    (C.tells place.entry.now.attempt.source.value)
                    (C.tells place.exit.now.attempt.source.value)
                    place.entry.now.attempt.stage place.exit.now.attempt.stage
                    place.entry.now.row place.exit.now.row }
            {
                campaign.work_slot(alloc, round, slot, place);
            },
        );
    }

    // Runs the job of a slot, if it has one of this round.
    fn work_slot<C: Connector>(
        &self,
        alloc: Global,
        round: usize,
        slot: usize,
        place: &mut JobPlace<C>,
    )
        requires slot { slot < self.now.turns * self.now.workers }
        requires unused { IsTurn self.now.turns self.now.workers self.now.rounds.now round slot
            → place.old.attempt.stage ≡ unused }
        ensures { IsRoundRun self.now.turns self.now.workers self.now.jobs.now
            self.now.passwords.now self.now.rounds.now round slot
            (C.tells place.old.attempt.source.value) (C.tells place.new.attempt.source.value)
            place.old.attempt.stage place.new.attempt.stage place.old.row place.new.row }
    {
        let index = place_of(self.turns, self.workers, slot);
        if index >= self.jobs.len() || self.rounds[index] != round {
            return;
        }
        let job = &self.jobs[index];
        place.row = run_job(alloc, job, &mut place.attempt, &self.passwords[index]);
        self.watcher.on_job_done(job, place.row);
    }
}

/// Returns a line with the name of each job.
pub fn blank_lines(alloc: Global, jobs: &[Job]) -> Result<Vec<ReportLine>, AllocError>
    ensures { IfOk result (λ lines. map (λ line. line.id) lines.items
        ≡ map (λ job. job.id) jobs.now) }
{
    let mut lines = Vec::new(alloc);
    'jobs: for job in jobs {
        let id = job.id.try_clone(alloc)?;
        lines.push(ReportLine {
            id,
            row: Row::Memory,
        })?;
    }
    Ok(lines)
}

// Returns the place of the job of a slot.
fn place_of(turns: usize, workers: usize, slot: usize) -> usize
    requires non_zero { 0 < turns }
    requires slot { slot < turns * workers }
    requires fits { turns * workers < 2 ^ 64 }
    ensures { result ≡ place_at turns workers slot }
{
    slot % turns * workers + slot / turns
}

// Stores the rows of the slots in the lines of their jobs.
fn gather<C: Connector>(
    lines: &mut [ReportLine],
    places: &[JobPlace<C>],
    turns: usize,
    workers: usize,
)
    requires workers { 0 < workers }
    requires slots { length places.now ≡ turns * workers }
    requires within_max { length lines.old < turns * workers }
    ensures rows { (i : ℕ) (line : ReportLine) (row : Row) → i < length lines.old
        → (slice_index_or lines.new i line).row
        ≡ slice_index_or (map (λ place. place.row) places.now) (slot_at turns workers i) row }
    ensures ids { (i : ℕ) (line : ReportLine) → i < length lines.old
        → (slice_index_or lines.new i line).id ≡ (slice_index_or lines.old i line).id }
    ensures len { length lines.new ≡ length lines.old }
{
    for i in 0..lines.len() {
        let line = &mut lines[i];
        line.row = places[slot_of(turns, workers, i)].row;
    }
}

// Returns the slot of the job at a place.
fn slot_of(turns: usize, workers: usize, place: usize) -> usize
    requires non_zero { 0 < workers }
    requires place { place < turns * workers }
    requires fits { turns * workers < 2 ^ 64 }
    ensures slot { result ≡ slot_at turns workers place }
    ensures below { result < turns * workers }
{
    place % workers * turns + place / workers
}
