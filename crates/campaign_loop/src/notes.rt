//! The jobs whose outcome is unknown, told apart by what was sent.
ghost use Rattle.std.specs.Prelude.{◌≡◌, ◌++◌, OnOk};
ghost use Rattle.campaign_loop.specs.Notes.{note_text, unknown_text, was_asked};

use crate::wires::Wires;
use campaign_board::{Board, Ending};
use campaign_ledger::Book;
use client_core::Outcome;
use cosem_axdr::Octets;
use head_end::{ReportLine, Row};
use std::alloc::AllocError;

// Returns whether the request of a place was given.
fn was_asked(ending: Option<Ending>) -> bool
    ensures { result ≡ was_asked ending }
{
    match ending {
        Some(ending) => ending.was_asked,
        None => false,
    }
}

// Appends the line of a job whose outcome is unknown.
fn put_note(name: &Octets, asked: bool, reached: bool, out: &mut Octets) -> Result<(), AllocError>
    ensures { OnOk result (out.new ≡ out.old ++ unknown_text name.now asked reached) }
{
    out.extend_from_slice(name.as_slice())?;
    if asked {
        return out.extend_from_slice(b" sent, no answer\n");
    }
    if reached {
        return out.extend_from_slice(b" no association\n");
    }
    out.extend_from_slice(b" not reached\n")
}

// Appends the line of a job, if its outcome is unknown.
fn add_note(
    line: &ReportLine,
    ending: Option<Ending>,
    reached: bool,
    out: &mut Octets,
) -> Result<(), AllocError>
    ensures { OnOk result (out.new ≡ out.old ++ note_text line.now ending reached) }
{
    match line.row {
        Row::Came(Outcome::Unknown) => put_note(&line.id, was_asked(ending), reached, out),
        Row::Came(_) => Ok(()),
        Row::Memory => Ok(()),
    }
}

/// Appends a line for each job of a campaign that has run whose outcome is unknown, in the order of
/// the jobs: its name, and `sent, no answer` if its command may have been sent, `no association` if
/// only a connection was opened, or `not reached`. Errors: `AllocError`, after some of the lines.
pub fn add_notes<B: Book, W: Wires>(
    board: &Board<B>,
    wires: &W,
    lines: &[ReportLine],
    out: &mut Octets,
) -> Result<(), AllocError> {
    'lines: for (at, line) in lines.iter().enumerate() {
        let Ok(place) = u32::try_from(at) else {
            break 'lines;
        };
        add_note(line, board.ending(place), wires.was_open(place), out)?;
    }
    Ok(())
}
