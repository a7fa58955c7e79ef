//! The rows of a report, by the board of its campaign.
ghost use Rattle.std.specs.Prelude.{◌≡◌, ◌<◌, ◌≤◌, ◌^◌, ℕ, length, map};
ghost use Rattle.campaign_loop.specs.Rows.{row_of, blank_row, AreRows};
ghost use Rattle.head_end.specs.declared.row.ReportLine.{ReportLine};

use crate::turns::LoopFault;
use campaign_board::{Board, Ending};
use campaign_ledger::Book;
use client_core::Outcome;
use head_end::{Report, ReportLine, Row};

// Returns the row of a place, by its end.
fn row_of(blank: Row, ending: Option<Ending>) -> Row
    ensures { result ≡ row_of blank ending }
{
    match ending {
        Some(ending) => Row::Came(ending.outcome),
        None => blank,
    }
}

// Returns the row of the jobs that did not begin, by the end of the loop.
fn blank_row(end: Result<(), LoopFault>) -> Row
    ensures { result ≡ blank_row end }
{
    match end {
        Err(LoopFault::Memory) => Row::Memory,
        _ => Row::Came(Outcome::Unknown),
    }
}

// Sets the row of each line to that of its place: its outcome, or the blank row if its job did not
// begin.
fn fill_rows<B: Book>(board: &Board<B>, blank: Row, lines: &mut [ReportLine])
    requires { length lines.old ≤ 2 ^ 32 }
    ensures rows { AreRows B.is_honest B.is_marked board.now blank lines.new }
    ensures names { map (λ line. line.id) lines.new ≡ map (λ line. line.id) lines.old }
{
    for at in 0..lines.len() {
        let row = row_of(blank, board.ending(at as u32));
        let line = &mut lines[at];
        line.row = row;
    }
}

/// Returns the report of a board whose loop has ended so: each line has the row of its place, which
/// is that of its outcome. The jobs that did not begin are `memory` if that was why, else
/// `unknown`. The lines have the names of the jobs, in their order. Allocates nothing.
pub fn report_of<B: Book>(
    board: &Board<B>,
    end: Result<(), LoopFault>,
    mut lines: Vec<ReportLine>,
) -> Report
    requires { length lines.items ≤ 2 ^ 32 }
    ensures rows { AreRows B.is_honest B.is_marked board.now (blank_row end) result }
    ensures names { map (λ line. line.id) result ≡ map (λ line. line.id) lines.items }
{
    fill_rows(board, blank_row(end), lines.as_mut_slice());
    Report::from_vec(lines)
}
