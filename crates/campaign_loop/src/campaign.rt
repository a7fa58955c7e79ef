//! Runs a campaign by the loop, and returns its report.
ghost use Rattle.std.specs.Prelude.{◌≡◌, ◌≤◌, ◌^◌, length, IfOk, OnErr};
ghost use Rattle.std.specs.List.{All};
ghost use Rattle.campaign_loop.specs.Rows.{Reports};
ghost use Rattle.head_end.specs.Reports.{longest_name};

use crate::course::Course;
use crate::jobs::CampaignJobs;
use crate::rows::report_of;
use crate::turns::{LoopFault, LoopMemory, run};
use crate::wires::Wires;
use campaign_board::{Board, Schedule};
use campaign_ledger::Book;
use cosem_axdr::Octets;
use head_end::{Report, Watcher, add_report, blank_lines};
use std::alloc::{AllocError, Global};
use std::sync::Wait;

// A line of a report has at most 46 bytes if the name of its job has at most 32, as those of a list
// of jobs have (`longest_line` in `head_end/specs/Reports.antt`).
const LONGEST_LINE: usize = 46;

/// The report of a campaign, and how its loop ended.
#[derive(Debug, Drop)]
pub struct LoopReport {
    /// The lines of the report, one for each job.
    pub lines: Report,
    /// Their text.
    pub text: Octets,
    /// Whether each job was run, or why not.
    pub end: Result<(), LoopFault>,
}

/// Runs the jobs of a board as [`run`] does, calls a watcher after each, and returns the text of
/// their report. Afterwards the board has the end of each job.
///
/// If the names of the jobs have at most 32 bytes, as those of a list of jobs have, all memory of
/// the loop and of the text is allocated before the first connection is made: an error leaves the
/// board and the connections unchanged, and a report is never lost after a request.
pub fn run_campaign<R: Wait, B: Book, W: Wires, V: Watcher>(
    rt: &R,
    alloc: Global,
    board: &mut Board<B>,
    wires: &mut W,
    list: &CampaignJobs<'_>,
    watcher: &V,
) -> Result<LoopReport, AllocError>
    requires { length list.now.jobs.now ≤ 2 ^ 32 }
    ensures report { IfOk result (λ report. Reports B.is_honest B.is_marked list.now.jobs.now
        list.now.passwords.now list.now.choices.now report.lines report.text report.end board.old
        (W.log wires.old) board.new (W.log wires.new)) }
    ensures unchanged_on_error { All (λ job. length job.id ≤ longest_name) list.now.jobs.now
        → OnErr result ((board.new ≡ board.old) × (W.log wires.new ≡ W.log wires.old)) }
{
    let Some(capacity) = list.jobs.len().checked_mul(LONGEST_LINE) else {
        return Err(AllocError);
    };
    let mut text = Vec::with_capacity(alloc, capacity)?;
    let lines = blank_lines(alloc, list.jobs)?;
    let schedule = Schedule::new(alloc, board.jobs_before())?;
    let mut course = Course::new(schedule, list.jobs, watcher);
    let mut memory = LoopMemory::new(alloc)?;
    let end = run(rt, alloc, board, wires, list, &mut course, &mut memory);
    drop(memory);
    drop(course);
    let report = report_of(board, end, lines);
    add_report(&report, &mut text)?;
    Ok(LoopReport {
        lines: report,
        text: Octets::from_vec(text),
        end,
    })
}
