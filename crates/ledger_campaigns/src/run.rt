//! A whole run of a campaign on a ledger.
ghost use Rattle.std.specs.Prelude.{◌≡◌, ℕ, List, Option, length, map, false, IfOk, IfSome};
ghost use Rattle.std.specs.List.{All};
ghost use Rattle.turn_lock.specs.Shown.{IsSame};
ghost use Rattle.campaign_ledger.specs.Grants.{MakesSafeRuns};
ghost use Rattle.campaign_ledger.specs.Runs.{AreApart};
ghost use Rattle.head_end.specs.Attempts.{unused};
ghost use Rattle.head_end.specs.Campaigns.{EachChange};
ghost use Rattle.head_end.specs.Connections.{Forecast};
ghost use Rattle.head_end.specs.Rounds.{AreRounds};
ghost use Rattle.ledger_campaigns.specs.Campaigns.{AreLinesFor, AreSwitched, AreUsesBy};
ghost use Rattle.ledger_campaigns.specs.Campaigns.{AreStored, IsLedgeredRun};

use crate::campaign::{Course, gather};
use crate::place::{LedgeredPlace, ledgered_places_for};
use crate::plan::LedgeredPlan;
use crate::sharing::{close, meet_all, share};
use campaign_ledger::{Book, Ledger, LedgerEntry, grants_add_up};
use head_end::{Connector, JobRounds, Report, ReportLine, Watcher, blank_lines, rounds_of};
use std::alloc::{AllocError, Global};
use std::sync::Wait;
use std::thread::Threads;

/// The end of a run of a campaign on a ledger.
#[derive(Drop)]
pub struct LedgeredRun<'a, C: Connector, B: Book> {
    /// A line for each job, in their order.
    pub report: Report,
    /// A place for each job, in their order.
    pub places: Vec<LedgeredPlace<'a, C, B>>,
    /// The ledger, or `None` if a turn of its lock has not ended. All turns have ended, since all
    /// calls have returned; no contract states that.
    pub ledger: Option<Ledger<B>>,
}

/// Runs the jobs of a campaign whose commands were not sent before, on the plan's workers, and
/// returns the lines of all jobs in their order.
///
/// A job with an outcome keeps it. A job whose command may have been sent is not run, and is
/// unknown. For each other job `run_ledgered_job` asks for the permit of its place before its
/// command goes out. Once the ledger has failed it gives no further permit; a worker that has one
/// may still send its command. A ledger that has not failed has the outcome of each conversation,
/// unless all turns of its lock, 2^62, were drawn. Jobs of one address are in different rounds, in
/// the order of the list, and a round begins when the one before it has ended.
///
/// Errors: `AllocError`; the ledger is dropped. The code allocates all memory of the report before
/// it starts a worker; no contract states that no connection is made before an error.
pub fn run_ledgered_campaign<
    'a,
    R: Threads + Wait + Sync,
    C: Connector,
    B: Book + Send,
    W: Watcher,
>(
    rt: &R,
    alloc: Global,
    plan: &LedgeredPlan<'_, W>,
    ledger: Ledger<B>,
    connector: &'a C,
) -> Result<LedgeredRun<'a, C, B>, AllocError>
    requires { length ledger.entries ≡ length plan.now.jobs.now }
    ensures lines { IfOk result (λ run. AreLinesFor (C.tells connector.now) plan.now.jobs.now
        ledger.entries run.report) }
    ensures run { IfOk result (λ run. IsLedgeredRun B.is_honest B.is_marked B.keeps
        plan.now.jobs.now plan.now.passwords.now ledger run.ledger run.report
        (map (λ place. place.attempt.stage) run.places.items)
        (map (λ place. place.port) run.places.items)) }
    ensures stored { IfOk result (λ run. IfSome run.ledger (λ now. now.has_failed ≡ false
        → AreStored B.is_honest B.is_marked B.keeps plan.now.jobs.now run.report
        (map (λ place. place.attempt.stage) run.places.items)
        (map (λ place. place.port) run.places.items) now)) }
    ensures safe { IfOk result (λ run. IfSome run.ledger (λ now. (sent : List ℕ) → AreApart sent
        → AreSwitched plan.now.jobs.now (map (λ place. place.attempt.stage) run.places.items) sent
        → MakesSafeRuns B.is_honest B.is_marked B.may_leave ledger now sent)) }
{
    let found = Vec::from_slice(alloc, ledger.entries())?;
    let mut lines = blank_lines(alloc, plan.jobs.as_slice())?;
    let rounds = rounds_of(alloc, plan.jobs.as_slice())?;
    let (shared, mut port) = share(alloc, ledger)?;
    let mut places = ledgered_places_for(alloc, connector, &mut port, plan.jobs.len())?;
    run_places(
        rt,
        alloc,
        plan,
        found.as_slice(),
        &rounds,
        places.as_mut_slice(),
        lines.as_mut_slice(),
    );
    drop(rounds);
    meet_all(&mut port, places.as_mut_slice());
    // (no effect: the contract needs these laws)
    port.history_is_legal();
    grants_add_up::<B>();
    let ledger = close(shared, port);
    Ok(LedgeredRun {
        report: Report::from_vec(lines),
        places,
        ledger,
    })
}

// Runs the jobs of all places, and stores their rows in their lines.
fn run_places<R: Threads + Wait + Sync, C: Connector, B: Book + Send, W: Watcher>(
    rt: &R,
    alloc: Global,
    plan: &LedgeredPlan<'_, W>,
    found: &[LedgerEntry],
    rounds: &JobRounds,
    places: &mut [LedgeredPlace<C, B>],
    lines: &mut [ReportLine],
)
    requires count { length places.old ≡ length plan.now.jobs.now }
    requires unused { All (λ place. place.attempt.stage ≡ unused) places.old }
    requires rounds { AreRounds plan.now.jobs.now rounds.now.of_jobs rounds.now.count }
    requires names { map (λ line. line.id) lines.old ≡ map (λ job. job.id) plan.now.jobs.now }
    ensures lines { (tells : List ℕ → Option Forecast)
        → All (λ place. C.tells place.attempt.source.value ≡ tells) places.old
        → AreLinesFor tells plan.now.jobs.now found.now lines.new }
    ensures uses { AreUsesBy plan.now.jobs.now found.now plan.now.passwords.now
        (map (λ place. place.port) places.new) lines.new
        (map (λ place. place.attempt.stage) places.new) }
    ensures ports { EachChange (λ _ old new. IsSame old.port new.port) places.old places.new }
    ensures len { length lines.new ≡ length lines.old }
{
    let course = Course {
        jobs: plan.jobs.as_slice(),
        found,
        passwords: plan.passwords,
        rounds: rounds.of_jobs.as_slice(),
        count: rounds.count,
        workers: usize::from(plan.workers),
        watcher: plan.watcher,
    };
    course.work(rt, alloc, places);
    gather(lines, places);
}
