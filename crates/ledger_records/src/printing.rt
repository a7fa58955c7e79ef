//! `ledger_text`: the text of a ledger in a format.
ghost use Rattle.std.specs.Prelude.{◌≡◌, ◌++◌, IfOk, OnOk};
ghost use Rattle.ledger_records.specs.Csv.{csv_rows, csv_text};
ghost use Rattle.ledger_records.specs.Json.{json_rows};
ghost use Rattle.ledger_records.specs.Texts.{text_in};

use crate::csv_lines::{write_csv, write_csv_head};
use crate::format::LedgerFormat;
use crate::json_lines::write_json;
use cosem_axdr::Octets;
use ledger_reports::{LedgerLine, status};
use std::alloc::{AllocError, Global};

// Appends the line of each job as comma-separated values.
#[tactic(auto, unfolding(crate::specs::Csv::csv_rows))]
fn put_csv_rows(alloc: Global, lines: &[LedgerLine], out: &mut Vec<u8>) -> Result<(), AllocError>
    ensures { OnOk result (out.new.items ≡ out.old.items ++ csv_rows lines.now) }
{
    'lines: for line in lines {
        write_csv(alloc, out, line)?;
    }
    Ok(())
}

// Appends the line of each job as JSON.
#[tactic(auto, unfolding(crate::specs::Json::json_rows))]
fn put_json_rows(alloc: Global, lines: &[LedgerLine], out: &mut Vec<u8>) -> Result<(), AllocError>
    ensures { OnOk result (out.new.items ≡ out.old.items ++ json_rows lines.now) }
{
    'lines: for line in lines {
        write_json(alloc, out, line)?;
    }
    Ok(())
}

// Returns all jobs as comma-separated values.
fn csv_text(alloc: Global, lines: &[LedgerLine]) -> Result<Octets, AllocError>
    ensures { IfOk result (λ text. text ≡ csv_text lines.now) }
{
    let mut out = Vec::new(alloc);
    write_csv_head(alloc, &mut out)?;
    put_csv_rows(alloc, lines, &mut out)?;
    Ok(Octets::from_vec(out))
}

// Returns all jobs as lines of JSON.
fn json_text(alloc: Global, lines: &[LedgerLine]) -> Result<Octets, AllocError>
    ensures { IfOk result (λ text. text ≡ json_rows lines.now) }
{
    let mut out = Vec::new(alloc);
    put_json_rows(alloc, lines, &mut out)?;
    Ok(Octets::from_vec(out))
}

/// Returns the text of a ledger with these lines in a format: its state, or a line for each job, in
/// the order of the jobs. Fails only if out of memory.
pub fn ledger_text(
    alloc: Global,
    format: LedgerFormat,
    lines: &[LedgerLine],
) -> Result<Octets, AllocError>
    ensures { IfOk result (λ text. text ≡ text_in format lines.now) }
{
    match format {
        LedgerFormat::State => status(alloc, lines),
        LedgerFormat::Csv => csv_text(alloc, lines),
        LedgerFormat::Json => json_text(alloc, lines),
    }
}
