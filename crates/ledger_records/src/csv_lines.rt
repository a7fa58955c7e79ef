//! Appends the jobs of a ledger as comma-separated values.
ghost use Rattle.std.specs.Prelude.{◌≡◌, ◌++◌, OnOk, map};
ghost use Rattle.csv.specs.Writing.{default_writer, row_text};
ghost use Rattle.ledger_records.specs.Csv.{csv_head, csv_line};

use crate::fields::{
    answer_state, answer_time, outcome_number, outcome_word, seconds_taken, sent_word, utc_text,
};
use ledger_reports::{LedgerLine, standing_of};
use record_parts::{number_column, write_row};
use std::alloc::{AllocError, Global};

// Appends a line of these columns.
fn add_columns(alloc: Global, out: &mut Vec<u8>, columns: [&[u8]; 11]) -> Result<(), AllocError>
    ensures { OnOk result (out.new.items ≡ out.old.items
        ++ row_text default_writer (map (λ field. field.now) columns.entry)) }
{
    write_row(alloc, out, &columns)
}

/// Appends the line of the names of the columns. Fails only if out of memory.
pub fn write_csv_head(alloc: Global, out: &mut Vec<u8>) -> Result<(), AllocError>
    ensures { OnOk result (out.new.items ≡ out.old.items ++ csv_head) }
{
    write_row(
        alloc,
        out,
        &[
            b"name",
            b"address",
            b"verb",
            b"outcome",
            b"number",
            b"sent",
            b"begun_at",
            b"ended_at",
            b"seconds",
            b"state",
            b"asked_at",
        ],
    )
}

/// Appends the line of a job: its name, address and verb; its outcome as a word, and the number of
/// the outcome; whether its request was sent (`yes`, `no` or `maybe`); when it was marked and when
/// its outcome was stored, in UTC; the seconds between the two; the control state that the meter
/// reported later, 0 to 2; and when that asking began, in UTC. A value that is not known is empty.
/// Fails only if out of memory.
pub fn write_csv(alloc: Global, out: &mut Vec<u8>, line: &LedgerLine) -> Result<(), AllocError>
    ensures { OnOk result (out.new.items ≡ out.old.items ++ csv_line line.now) }
{
    let standing = standing_of(line.entry);
    let number = number_column(alloc, outcome_number(line.entry))?;
    let begun = utc_text(alloc, line.times.begun)?;
    let ended = utc_text(alloc, line.times.ended)?;
    let seconds = number_column(alloc, seconds_taken(line.times))?;
    let state = number_column(alloc, answer_state(line.answer))?;
    let asked = utc_text(alloc, answer_time(line.answer))?;
    // (static texts are copied, since an array of borrowed texts cannot hold them)
    let verb = Vec::from_slice(alloc, line.job.verb.word())?;
    let outcome = Vec::from_slice(alloc, outcome_word(standing).as_bytes())?;
    let sent = Vec::from_slice(alloc, sent_word(standing).as_bytes())?;
    let columns: [&[u8]; 11] = [
        line.job.id.as_slice(),
        line.job.address.as_slice(),
        verb.as_slice(),
        outcome.as_slice(),
        number.as_slice(),
        sent.as_slice(),
        begun.as_ref().map_or(b"", String::as_bytes),
        ended.as_ref().map_or(b"", String::as_bytes),
        seconds.as_slice(),
        state.as_slice(),
        asked.as_ref().map_or(b"", String::as_bytes),
    ];
    add_columns(alloc, out, columns)
}
