//! The days of the calendar, which `jiff` computes.

ghost use Rattle.std.specs.Prelude.{◌≡◌, ◌≤◌, ◌↔◌, ℕ, Some, None, IfSome, if◌then◌else◌};
ghost use Rattle.cosem_datetime.specs.declared.calendar.CivilDate.{CivilDate};
ghost use Rattle.cosem_datetime.specs.Calendar as calendar;

use jiff::civil::Date;
use jiff_core::civil;

/// A date of the calendar.
#[derive(Clone, Copy, Debug)]
pub struct CivilDate {
    /// The year, counted from the year 0.
    pub year: u16,
    /// The month, 1 for January.
    pub month: u8,
    /// The day of the month, from 1 on.
    pub day: u8,
}

/// The number of seconds of a day.
pub const SECONDS_OF_DAY: u32 = 86_400;

/// 1 January 2000, as the number of days since 1 January of the year 0.
pub const FIRST_DAY_OF_2000: u32 = 730_485;

// The number of days from `jiff`'s first day to 1 January of the year 0.
const DAYS_BEFORE_YEAR_0: u32 = 3_652_059;

/// Returns the date of a day, counted from 1 January of the year 0.
pub fn date_of_day(day: u32) -> CivilDate
    requires { day ≤ 1_000_000 }
    ensures date { result ≡ calendar.date_of_day day }
    ensures year { result.year ≤ 9999 }
    ensures day { result.day ≤ 31 }
{
    let date = Date::from_plain(civil::Date::from_days_since_min(
        day + DAYS_BEFORE_YEAR_0,
    )).to_plain();
    CivilDate {
        year: date.year as u16,
        month: date.month,
        day: date.day,
    }
}

/// Returns the weekday of a day, counted from 1 January of the year 0, up to 31 December 9999: 1
/// for Monday to 7 for Sunday.
pub fn weekday(day: u32) -> u8
    requires { day ≤ 3_652_424 }
    ensures { result ≡ calendar.weekday day }
{
    let date = Date::from_plain(civil::Date::from_days_since_min(day + DAYS_BEFORE_YEAR_0));
    date.weekday().to_monday_one_offset() as u8
}

/// Returns the number of days of a month.
pub fn month_length(year: u16, month: u8) -> u8
    requires { year ≤ 9999 }
    ensures value { result ≡ calendar.month_length year month }
{
    civil::days_in_month(year as i16, month)
}

/// Returns the day of a date, counted from 1 January of the year 0, or `None` if the calendar has
/// no such date.
pub fn day_of_date(date: CivilDate) -> Option<u32>
    requires year { date.year ≤ 9999 }
    requires month { date.month ≤ 12 }
    requires day { date.day ≤ 31 }
    ensures value { result
        ≡ (if calendar.is_date date then Some (calendar.day_count date) else None) }
    ensures bound { IfSome result (λ day. day ≤ 3_652_424) }
{
    match Date::new(date.year as i16, date.month as i8, date.day as i8) {
        Ok(date) => Some(date.to_plain().days_since_min() - DAYS_BEFORE_YEAR_0),
        Err(_) => None,
    }
}

/// Laws of the calendar that contracts refer to: each day has exactly one date, found by counting
/// the years, months and days before it, and 1 January 2000 is a Saturday. Calling the function has
/// no effect; its contract states the laws.
pub fn calendar_laws()
    ensures one_date { (n : ℕ) (c : CivilDate) → calendar.IsDay n c ↔ (c ≡ calendar.date_of_day n) }
    ensures first_day_of_2000 { calendar.first_day_of_2000 ≡ 730_485 }
    ensures saturday { calendar.weekday calendar.first_day_of_2000 ≡ 6 }
{}
