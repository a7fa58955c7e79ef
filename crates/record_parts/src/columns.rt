//! Lines of comma-separated values.
ghost use Rattle.std.specs.Prelude.{◌≡◌, ◌++◌, IfOk, OnOk, OnErr, decimal, map, option_map};
ghost use Rattle.csv.specs.Writing.{default_writer, row_text};
ghost use Rattle.record_parts.specs.Columns.{column};

use csv::WriterBuilder;
use std::alloc::{AllocError, Global};
use text_lines::write_number;

/// Appends a line of these fields (RFC 4180). Fails only if out of memory; then nothing is
/// appended.
pub fn write_row(alloc: Global, out: &mut Vec<u8>, fields: &[&[u8]]) -> Result<(), AllocError>
    ensures ok { OnOk result (out.new.items ≡ out.old.items
        ++ row_text default_writer (map (λ field. field.now) fields.now)) }
    ensures err { OnErr result (out.new.items ≡ out.old.items) }
{
    let mut writer = WriterBuilder::new().from_writer(Vec::new(alloc));
    if writer.write_fields(fields).is_err() {
        return Err(AllocError);
    }
    match writer.into_inner() {
        Ok(row) => out.extend_from_slice(row.as_slice()),
        Err(_) => Err(AllocError),
    }
}

/// Returns the digits of a number, or no digits if there is no number. Fails only if out of memory.
pub fn number_column(alloc: Global, number: Option<u32>) -> Result<Vec<u8>, AllocError>
    ensures { IfOk result (λ text. text.items ≡ column (option_map decimal number)) }
{
    let mut text = Vec::new(alloc);
    if let Some(number) = number {
        write_number(&mut text, u64::from(number))?;
    }
    Ok(text)
}
