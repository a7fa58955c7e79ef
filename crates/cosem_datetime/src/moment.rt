//! The second that a date-time names, in seconds since 1 January 2000: its written time plus its
//! deviation (IEC 62056-6-2).
ghost use Rattle.std.specs.Prelude.{◌≡◌, ◌+◌, ◌*◌, ◌^◌, ◌<◌, ◌≤◌, pos, ◌+ℤ◌, ◌-ℤ◌, ◌*ℤ◌};
ghost use Rattle.jiff_core.specs.Calendar.{IsWithin};
ghost use Rattle.cosem_datetime.specs.Calendar.{first_day_of_2000};
ghost use Rattle.cosem_datetime.specs.Moment.{in_u32, moment_of};

use crate::calendar::{SECONDS_OF_DAY, day_of_date};
use crate::date_time::DateTimeField;

// The seconds from 1 January of the year 0 to 1 January 2000.
const FIRST_SECOND: i64 = 63_113_904_000;

// The last year for which `jiff` is called. The moments end in 2136.
const LAST_YEAR: u16 = 9999;

// Returns the seconds from 1 January 2000 to a second of a day, as written: negative before 2000.
fn written_seconds(day: u32, second: u32) -> i64
    requires day { day ≤ 3_652_424 }
    requires second { second < 86400 }
    ensures value { result ≡ pos (86400 * day + second) -ℤ pos (86400 * first_day_of_2000) }
    ensures bound { IsWithin (2 ^ 40) result }
{
    let seconds = u64::from(SECONDS_OF_DAY) * u64::from(day) + u64::from(second);
    seconds as i64 - FIRST_SECOND
}

// Returns the seconds after adding a deviation in minutes.
fn moved_seconds(seconds: i64, deviation: i16) -> i64
    requires { IsWithin (2 ^ 40) seconds }
    ensures { result ≡ seconds +ℤ (pos 60 *ℤ deviation) }
{
    seconds + 60 * i64::from(deviation)
}

// Returns the seconds, or `None` if they do not fit a `u32`.
fn seconds_of_u32(seconds: i64) -> Option<u32>
    ensures { result ≡ in_u32 seconds }
{
    u32::try_from(seconds).ok()
}

/// Returns the second that a date-time names, in seconds since 1 January 2000: the written time
/// plus the deviation.
///
/// Returns `None` unless year, month, day, hour, minute and second are all numbers, the calendar
/// has the date, the weekday (if specified) is the date's own, and the sum fits a `u32`.
pub fn moment_of(field: &DateTimeField) -> Option<u32>
    ensures { result ≡ moment_of field.now }
{
    let deviation = field.deviation.unwrap_or(0);
    let date = field.date.plain_date()?;
    let second = field.time.second_of_day()?;
    if date.year > LAST_YEAR {
        return None;
    }
    let day = day_of_date(date)?;
    if !field.date.weekday_holds(day) {
        return None;
    }
    seconds_of_u32(moved_seconds(written_seconds(day, second), deviation))
}
