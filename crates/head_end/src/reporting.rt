//! Formats a report as text: one line for each job, with its name and its result.
ghost use Rattle.std.specs.Prelude.{◌≡◌, ◌+◌, ◌*◌, ◌<◌, ◌≤◌, ◌++◌, ◌∷◌, [], codes, decimal, length};
ghost use Rattle.std.specs.Prelude.{vec_len, vec_capacity, IfOk, OnOk, OnErr};
ghost use Rattle.std.specs.List.{All};
ghost use Rattle.head_end.specs.Reports.{row_text, line_text, report_text};
ghost use Rattle.head_end.specs.Reports.{longest_name, longest_result, longest_line};

use crate::report_lines::Report;
use crate::row::{ReportLine, Row};
use client_core::Outcome;
use cosem_axdr::Octets;
use itoa::Buffer;
use std::alloc::{AllocError, Global};

/// Returns the text of a report: for each job its name, a blank and `done N`, `refused N`,
/// `rejected N`, `unknown` or `memory`, ended by the byte 0A.
pub fn report(alloc: Global, report: &Report) -> Result<Octets, AllocError>
    ensures { IfOk result (λ text. text ≡ report_text report.now) }
{
    let mut out = Vec::new(alloc);
    add_report(report, &mut out)?;
    Ok(Octets::from_vec(out))
}

/// Appends the text of a report to a text. If the names of the jobs have at most 32 bytes, it fails
/// only if the text has less capacity left than 46 bytes for each job.
#[tactic(auto, unfolding(crate::specs::Reports::report_text))]
pub fn add_report(report: &Report, out: &mut Vec<u8>) -> Result<(), AllocError>
    ensures text { OnOk result (out.new.items ≡ out.old.items ++ report_text report.now) }
    ensures room { All (λ line. length line.id ≤ longest_name) report.now
        → OnErr result (vec_capacity out.old
        < vec_len out.old + longest_line * length report.now) }
{
    'lines: for line in report.as_slice() {
        put_line(line, out)?;
    }
    Ok(())
}

// Appends a line of a report: the name of the job and its result.
fn put_line(line: &ReportLine, out: &mut Vec<u8>) -> Result<(), AllocError>
    ensures text { OnOk result (out.new.items ≡ out.old.items ++ line_text line.now) }
    ensures capacity { vec_capacity out.old ≤ vec_capacity out.new }
    ensures within_max { length line.now.id ≤ longest_name
        → vec_len out.new ≤ vec_len out.old + longest_line }
    ensures room { length line.now.id ≤ longest_name
        → OnErr result (vec_capacity out.old < vec_len out.old + longest_line) }
{
    out.extend_from_slice(line.id.as_slice())?;
    put_row(line.row, out)?;
    out.push(b'\n')?;
    Ok(())
}

// Appends the result of a job.
fn put_row(row: Row, out: &mut Vec<u8>) -> Result<(), AllocError>
    ensures text { OnOk result (out.new.items ≡ out.old.items ++ row_text row) }
    ensures capacity { vec_capacity out.old ≤ vec_capacity out.new }
    ensures within_max { vec_len out.new ≤ vec_len out.old + longest_result }
    ensures room { OnErr result (vec_capacity out.old < vec_len out.old + longest_result) }
{
    match row {
        Row::Came(Outcome::Done(number)) => put_number(b" done ", number, out),
        Row::Came(Outcome::Refused(number)) => put_number(b" refused ", number, out),
        Row::Came(Outcome::Rejected(number)) => put_number(b" rejected ", number, out),
        Row::Came(Outcome::Unknown) => out.extend_from_slice(b" unknown"),
        Row::Memory => out.extend_from_slice(b" memory"),
    }
}

// Appends a word of at most 10 bytes and a number, which has at most 3 digits.
fn put_number(word: &[u8], number: u8, out: &mut Vec<u8>) -> Result<(), AllocError>
    requires { length word.now ≤ 10 }
    ensures text { OnOk result (out.new.items ≡ out.old.items ++ (word.now ++ decimal number)) }
    ensures capacity { vec_capacity out.old ≤ vec_capacity out.new }
    ensures within_max { vec_len out.new ≤ vec_len out.old + longest_result }
    ensures room { OnErr result (vec_capacity out.old < vec_len out.old + longest_result) }
{
    let mut buffer = Buffer::new();
    out.extend_from_slice(word)?;
    out.extend_from_slice(buffer.format(number).as_bytes())
}
