//! Appends records as comma-separated values.
ghost use Rattle.std.specs.Prelude.{◌≡◌, ◌++◌, OnOk, OnErr, codes, map, option_map};
ghost use Rattle.csv.specs.Writing.{default_writer, row_text};
ghost use Rattle.trace_records.specs.Csv.{csv_head, csv_line, last_column};

use crate::civil::civil_time;
use crate::record::Record;
use itoa::Buffer;
use record_parts::{number_column, write_row};
use std::alloc::{AllocError, Global};

// Appends a line of the columns of each record, and of the last column if there is one.
fn add_columns(
    alloc: Global,
    out: &mut Vec<u8>,
    columns: [&[u8]; 6],
    last: Option<&[u8]>,
) -> Result<(), AllocError>
    ensures ok { OnOk result (out.new.items ≡ out.old.items ++ row_text default_writer
        (map (λ field. field.now) columns.entry
        ++ last_column (option_map (λ field. field.now) last.entry))) }
    ensures err { OnErr result (out.new.items ≡ out.old.items) }
{
    let [number, reply, state, supply, moment, time] = columns;
    match last {
        Some(event) => write_row(
            alloc,
            out,
            &[number, reply, state, supply, moment, time, event],
        ),
        None => write_row(alloc, out, &[number, reply, state, supply, moment, time]),
    }
}

/// Appends the line of the names of the columns, the last of them `event` if `with_events`. Fails
/// only if out of memory; then nothing is appended.
pub fn write_csv_head(alloc: Global, out: &mut Vec<u8>, with_events: bool) -> Result<(), AllocError>
    ensures ok { OnOk result (out.new.items ≡ out.old.items ++ csv_head with_events) }
    ensures err { OnErr result (out.new.items ≡ out.old.items) }
{
    let last: Option<&[u8]> = if with_events { Some(b"event") } else { None };
    let columns: [&[u8]; 6] = [b"number", b"reply", b"state", b"supply", b"moment", b"time"];
    add_columns(alloc, out, columns, last)
}

/// Appends the line of the values of a record: its number, the words of its reply, the number of
/// the control state, `on` or `off`, the moment of the clock in seconds and as a civil date and
/// time (both empty before the first moment), and the line of the event if the record has it. Fails
/// only if out of memory; then nothing is appended.
pub fn write_csv(alloc: Global, out: &mut Vec<u8>, row: &Record) -> Result<(), AllocError>
    ensures ok { OnOk result (out.new.items ≡ out.old.items ++ csv_line row.now) }
    ensures err { OnErr result (out.new.items ≡ out.old.items) }
{
    let moment = number_column(alloc, row.moment)?;
    let time = civil_time(alloc, row.moment)?;
    let supply: &[u8] = if row.output { b"on" } else { b"off" };
    let mut number = Buffer::new();
    let mut state = Buffer::new();
    let columns: [&[u8]; 6] = [
        number.format(row.number).as_bytes(),
        row.reply.as_bytes(),
        state.format(row.state).as_bytes(),
        supply,
        moment.as_slice(),
        time.as_ref().map_or(b"", String::as_bytes),
    ];
    add_columns(
        alloc,
        out,
        columns,
        row.event.as_ref().map(String::as_bytes),
    )
}
