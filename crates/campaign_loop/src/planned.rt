//! A campaign over a book, from its plan to its report.
ghost use Rattle.std.specs.Prelude.{◌≡◌, ◌≤◌, ◌^◌, length, IfOk};
ghost use Rattle.campaign_loop.specs.Planned.{RunsPlan};

use crate::campaign::{LoopReport, run_campaign};
use crate::jobs::CampaignJobs;
use crate::wires::Wires;
use campaign_board::Board;
use campaign_ledger::{Book, LedgerEntry};
use head_end::Watcher;
use std::alloc::{AllocError, Global};
use std::sync::Wait;

/// What a campaign does.
#[derive(Clone, Copy)]
pub struct LoopPlan<'a, V: Watcher> {
    /// The jobs with their passwords.
    pub list: CampaignJobs<'a>,
    /// The maximum number of open connections.
    pub limit: usize,
    /// Is called once for each job that is over.
    pub watcher: &'a V,
}

/// A campaign that has run.
#[derive(Drop)]
pub struct LoopRun<B: Book> {
    /// Its report.
    pub report: LoopReport,
    /// Its board, which has the end of each job, and the book.
    pub board: Board<B>,
}

/// Runs the jobs of a plan over these connections, with the book of a ledger and the entries that
/// were found in it. A job whose command may have been sent is not run.
///
/// Errors: `AllocError`, before the first connection is opened if the names of the jobs have at
/// most 32 bytes; the book is dropped.
pub fn run_plan<R: Wait, B: Book, W: Wires, V: Watcher>(
    rt: &R,
    alloc: Global,
    plan: &LoopPlan<'_, V>,
    book: B,
    found: Vec<LedgerEntry>,
    wires: &mut W,
) -> Result<LoopRun<B>, AllocError>
    requires { length plan.now.list.jobs.now ≤ 2 ^ 32 }
    ensures { IfOk result (λ run. RunsPlan B.is_honest B.is_marked plan.now.list plan.now.limit
        book found.items run.report run.board (W.log wires.old) (W.log wires.new)) }
{
    let mut board = Board::new(alloc, book, plan.list.jobs, found, plan.limit)?;
    match run_campaign(rt, alloc, &mut board, wires, &plan.list, plan.watcher) {
        Ok(report) => Ok(LoopRun { report, board }),
        Err(fault) => {
            drop(board);
            Err(fault)
        }
    }
}
