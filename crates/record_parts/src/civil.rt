//! Writes a second as a civil date and time.
ghost use Rattle.std.specs.Prelude.{◌≡◌, ◌≤◌, ◌++◌, IfOk, OnOk, string_bytes};
ghost use Rattle.cosem_datetime.specs.Calendar.{date_of_day};
ghost use Rattle.record_parts.specs.Civil.{civil_text, date_text, time_text, two_digits};

use crate::text::text_of;
use cosem_datetime::{SECONDS_OF_DAY, date_of_day};
use std::alloc::{AllocError, Global};

// The number of bytes of a date and time.
const BYTES: usize = 19;

// Appends the tens and the ones of a number.
fn add_two_digits(out: &mut Vec<u8>, number: u32) -> Result<(), AllocError>
    ensures { OnOk result (out.new.items ≡ out.old.items ++ two_digits number) }
{
    out.push(b'0' + (number / 10 % 10) as u8)?;
    out.push(b'0' + (number % 10) as u8)?;
    Ok(())
}

// Appends the date of a day, counted from 1 January of the year 0.
fn add_date(out: &mut Vec<u8>, day: u32) -> Result<(), AllocError>
    requires { day ≤ 1_000_000 }
    ensures { OnOk result (out.new.items ≡ out.old.items ++ date_text (date_of_day day)) }
{
    let date = date_of_day(day);
    let year = u32::from(date.year);
    add_two_digits(out, year / 100)?;
    add_two_digits(out, year)?;
    out.push(b'-')?;
    add_two_digits(out, u32::from(date.month))?;
    out.push(b'-')?;
    add_two_digits(out, u32::from(date.day))
}

// Appends the time of a second of the day.
fn add_time(out: &mut Vec<u8>, second: u32) -> Result<(), AllocError>
    ensures { OnOk result (out.new.items ≡ out.old.items ++ time_text second) }
{
    add_two_digits(out, second / 3600)?;
    out.push(b':')?;
    add_two_digits(out, second / 60 % 60)?;
    out.push(b':')?;
    add_two_digits(out, second % 60)
}

/// Returns a second as a civil date and time, `YYYY-MM-DDThh:mm:ss`. `seconds` are counted from the
/// beginning of `first_day`, which is a number of days since 1 January of the year 0. Fails only if
/// out of memory.
#[tactic(auto, using(crate::proofs::AsciiTexts::civil_is_ascii))]
pub fn civil_text(alloc: Global, first_day: u32, seconds: u32) -> Result<String, AllocError>
    requires { first_day ≤ 900_000 }
    ensures { IfOk result (λ text. string_bytes text ≡ civil_text first_day seconds) }
{
    let mut out = Vec::with_capacity(alloc, BYTES)?;
    add_date(&mut out, first_day + seconds / SECONDS_OF_DAY)?;
    out.push(b'T')?;
    add_time(&mut out, seconds % SECONDS_OF_DAY)?;
    Ok(text_of(out))
}
