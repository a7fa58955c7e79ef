//! Runs many jobs at many meters in parallel, in rounds, with permits of one ledger.
ghost use Rattle.std.specs.Prelude.{◌≡◌, ◌<◌, ◌≤◌, ℕ, List, Option, length, map, slice_index_or};
ghost use Rattle.std.specs.Prelude.{IfOk, IfSome};
ghost use Rattle.std.specs.List.{All};
ghost use Rattle.acse_ber.specs.Password.{IsPassword};
ghost use Rattle.turn_lock.specs.Shown.{IsSame};
ghost use Rattle.campaign_ledger.specs.Grants.{MakesSafeRuns};
ghost use Rattle.campaign_ledger.specs.Runs.{AreApart};
ghost use Rattle.head_end.specs.declared.row.Row.{Row};
ghost use Rattle.head_end.specs.declared.row.ReportLine.{ReportLine};
ghost use Rattle.campaign_ledger.specs.Entries.{entry_at};
ghost use Rattle.head_end.specs.Attempts.{unused};
ghost use Rattle.head_end.specs.Campaigns.{EachChange};
ghost use Rattle.head_end.specs.Connections.{Forecast};
ghost use Rattle.head_end.specs.Rounds.{AreRounds};
ghost use Rattle.ledger_campaigns.specs.Campaigns.{IsPlaceRun, AreLinesFor, AreSwitched, AreUses};
ghost use Rattle.ledger_campaigns.specs.Rounds.{AreUnusedWhenDue, HasRound, IsPlaceRound};

use crate::place::LedgeredPlace;
use crate::running::{LedgeredJob, run_ledgered_job};
use campaign_ledger::{Book, LedgerEntry};
use client_core::Job;
use cosem_axdr::Octets;
use head_end::{Connector, ReportLine, Watcher};
use std::alloc::Global;
use std::sync::Wait;
use std::thread;
use std::thread::Threads;

// The values that all workers of a campaign share: its jobs, the entries found, the password and
// the round of each job, and the number of rounds.
#[derive(Drop)]
pub(crate) struct Course<'a, W: Watcher> {
    // The jobs, one for each place.
    pub jobs: &'a [Job],
    // The entries that the ledger had at the start of the run.
    pub found: &'a [LedgerEntry],
    // The password of each job, 1 to 32 bytes.
    pub passwords: &'a [Octets],
    // The round of each job: jobs of one address have different rounds.
    pub rounds: &'a [usize],
    // The number of rounds.
    pub count: usize,
    // The number of workers.
    pub workers: usize,
    // Is called with the row of each job that has ended.
    pub watcher: &'a W,
    ghost few: { length jobs.now ≤ 1000 },
    ghost some_workers: { 0 < workers },
    ghost sized: { All IsPassword passwords.now },
    ghost paired: { length passwords.now ≡ length jobs.now },
    ghost ordered: { AreRounds jobs.now rounds.now count },
}

impl<'a, W: Watcher> Course<'a, W> {
    // Runs the jobs of all places, round by round: a job begins when all jobs of the rounds before
    // its own have ended.
    pub(crate) fn work<R: Threads + Wait + Sync, C: Connector, B: Book + Send>(
        &self,
        rt: &R,
        alloc: Global,
        places: &mut [LedgeredPlace<C, B>],
    )
        requires count { length places.old ≡ length self.now.jobs.now }
        requires unused { All (λ place. place.attempt.stage ≡ unused) places.old }
        ensures runs { EachChange (λ i old new. IsPlaceRun self.now.jobs.now self.now.found.now
            self.now.passwords.now i (C.tells old.attempt.source.value)
            new.port new.row new.attempt.stage
            × IsSame old.port new.port) places.old places.new }
    {
        'rounds: for round in 0..self.count {
            self.work_round(rt, alloc, round, places);
        }
    }

    // Runs the jobs of a round.
    fn work_round<R: Threads + Wait + Sync, C: Connector, B: Book + Send>(
        &self,
        rt: &R,
        alloc: Global,
        round: usize,
        places: &mut [LedgeredPlace<C, B>],
    )
        requires count { length places.old ≡ length self.now.jobs.now }
        requires unused { AreUnusedWhenDue self.now.rounds.now round
            (λ place. place.attempt.stage) places.old }
        ensures runs { EachChange (λ i old new. IsPlaceRound
            (λ place. C.tells place.attempt.source.value)
            (λ place. place.port) (λ place. place.row) (λ place. place.attempt.stage)
            self.now.jobs.now self.now.found.now self.now.passwords.now self.now.rounds.now
            round i old new × IsSame old.port new.port) places.old places.new }
    {
        let course = self;
        thread::for_each_mut(
            rt,
            places,
            self.workers,
            &|i, place|
                requires { (i < length course.now.jobs.now)
                    × (HasRound course.now.rounds.now round i → place.now.attempt.stage ≡ unused) }
                ensures { IsPlaceRound (λ place. C.tells place.attempt.source.value)
                    (λ place. place.port) (λ place. place.row) (λ place. place.attempt.stage)
                    course.entry.now.jobs.now course.entry.now.found.now
                    course.entry.now.passwords.now course.entry.now.rounds.now round i
                    place.entry.now place.exit.now
                    × IsSame place.entry.now.port place.exit.now.port }
            {
                course.work_place(rt, alloc, round, i, place);
            },
        );
    }

    // Runs the job of a place, if it has this round.
    fn work_place<R: Wait, C: Connector, B: Book>(
        &self,
        rt: &R,
        alloc: Global,
        round: usize,
        i: usize,
        place: &mut LedgeredPlace<C, B>,
    )
        requires place { i < length self.now.jobs.now }
        requires unused { HasRound self.now.rounds.now round i
            → place.old.attempt.stage ≡ unused }
        ensures run { IsPlaceRound (λ place. C.tells place.attempt.source.value)
            (λ place. place.port) (λ place. place.row) (λ place. place.attempt.stage)
            self.now.jobs.now self.now.found.now self.now.passwords.now self.now.rounds.now round i
            place.old place.new }
        ensures port { IsSame place.old.port place.new.port }
    {
        if self.rounds[i] != round {
            return;
        }
        let job = &self.jobs[i];
        let task = LedgeredJob {
            job,
            place: i as u32,
            found: entry_of(self.found, i),
            password: &self.passwords[i],
        };
        run_ledgered_job(rt, alloc, &task, place);
        self.watcher.on_job_done(job, place.row);
    }
}

// Returns the entry of a place: `MaybeSent` if there is none.
fn entry_of(found: &[LedgerEntry], place: usize) -> LedgerEntry
    ensures { result ≡ entry_at found.now place }
{
    match found.get(place) {
        Some(entry) => *entry,
        None => LedgerEntry::MaybeSent,
    }
}

// Stores the rows of the places in the lines of their jobs.
pub(crate) fn gather<C: Connector, B: Book>(
    lines: &mut [ReportLine],
    places: &[LedgeredPlace<C, B>],
)
    requires { length places.now ≡ length lines.old }
    ensures rows { (i : ℕ) (line : ReportLine) (row : Row) → i < length lines.old
        → (slice_index_or lines.new i line).row
        ≡ slice_index_or (map (λ place. place.row) places.now) i row }
    ensures ids { (i : ℕ) (line : ReportLine) → i < length lines.old
        → (slice_index_or lines.new i line).id ≡ (slice_index_or lines.old i line).id }
    ensures len { length lines.new ≡ length lines.old }
{
    for i in 0..lines.len() {
        let line = &mut lines[i];
        line.row = places[i].row;
    }
}
