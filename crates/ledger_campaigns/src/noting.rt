//! The jobs whose outcome is unknown, told apart by their entries.
ghost use Rattle.std.specs.Prelude.{◌≡◌, ◌++◌, ◌∷◌, [], codes, OnOk};
ghost use Rattle.ledger_campaigns.specs.Notes.{note_text, unknown_text};

use campaign_ledger::LedgerEntry;
use client_core::Outcome;
use cosem_axdr::Octets;
use head_end::{Report, ReportLine, Row};
use std::alloc::AllocError;

// Appends a line for each job whose outcome is unknown: its name and `not reached`, if its command
// was surely not sent, or `sent, no answer`. `entries` has the entry of each line's place.
pub(crate) fn add_notes(
    report: &Report,
    entries: &[LedgerEntry],
    out: &mut Octets,
) -> Result<(), AllocError> {
    for (line, entry) in report.as_slice().iter().zip(entries) {
        add_note(line, *entry, out)?;
    }
    Ok(())
}

// Appends the line of a job, if its outcome is unknown.
fn add_note(line: &ReportLine, entry: LedgerEntry, out: &mut Octets) -> Result<(), AllocError>
    ensures { OnOk result (out.new ≡ out.old ++ note_text line.now entry) }
{
    match line.row {
        Row::Came(Outcome::Unknown) => put_note(line, entry, out),
        Row::Came(_) => Ok(()),
        Row::Memory => Ok(()),
    }
}

// Appends the line of a job whose outcome is unknown.
fn put_note(line: &ReportLine, entry: LedgerEntry, out: &mut Octets) -> Result<(), AllocError>
    ensures { OnOk result (out.new ≡ out.old ++ unknown_text line.now.id entry) }
{
    out.extend_from_slice(line.id.as_slice())?;
    match entry {
        LedgerEntry::NotSent => out.extend_from_slice(b" not reached\n"),
        LedgerEntry::MaybeSent | LedgerEntry::Came(_) => {
            out.extend_from_slice(b" sent, no answer\n")
        }
    }
}
