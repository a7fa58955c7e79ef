//! The date pattern of five bytes (IEC 62056-6-2, date and time formats): reading, writing and
//! matching days of the calendar.
ghost use Rattle.std.specs.Prelude.{◌≡◌, ◌≢◌, ◌≤◌, ◌↔◌, length, slice_index, IsTrue, IfOk, IfSome, IsErrOf, Ok};
ghost use Rattle.cosem_datetime.specs.Fields.{DateFields, IsDateFields, day_byte, date_bytes, unspecified_date_time};
ghost use Rattle.cosem_datetime.specs.Matching.{holds, day_holds, date_holds, last_week_holds, past_week_holds, month_day_holds, date_matches, is_plain};
ghost use Rattle.cosem_datetime.specs.Moment.{plain_date};
ghost use Rattle.cosem_datetime.specs.Calendar.{weekday};
ghost use Rattle.cosem_datetime.specs.Reading.{month_of, day_of, year_of, date_of, is_season};

use crate::calendar::{CivilDate, date_of_day, month_length, weekday};
use crate::fault::PatternFault;
use crate::field::{NOT_SPECIFIED, byte_of, field_holds, read_field};
use byteorder::{BigEndian, ByteOrder};
use std::marker::Model;

/// The day of the month of a date.
#[derive(Clone, Copy, Debug, PartialEq, Eq)]
pub enum DayOfMonth {
    /// Not specified (`FF`): any day.
    Any,
    /// A day from 1 to 31.
    Number(u8),
    /// The second last day of the month (`FD`).
    SecondLast,
    /// The last day of the month (`FE`); with a weekday the last such weekday of the month.
    Last,
}

// The number of days of a week.
const DAYS_OF_WEEK: u8 = 7;

// The day of the month that stands for the last one.
const LAST_DAY: u8 = 0xFE;

// The day of the month that stands for the second last one.
const SECOND_LAST_DAY: u8 = 0xFD;

// The month that stands for the begin of daylight saving time, which the meter rejects.
const DAYLIGHT_SAVING_BEGIN: u8 = 0xFE;

// The month that stands for the end of daylight saving time, which the meter rejects.
const DAYLIGHT_SAVING_END: u8 = 0xFD;

// The two bytes of a year that is not specified: the date is valid in every year.
const YEAR_NOT_SPECIFIED: u16 = 0xFFFF;

/// A date of five bytes: year, month, day of the month and day of the week, each of which may be
/// unspecified.
#[derive(Clone, Copy, Debug, PartialEq, Eq)]
pub struct DatePattern {
    year: Option<u16>,
    month: Option<u8>,
    day: DayOfMonth,
    weekday: Option<u8>,
}

impl Model for DatePattern {
    ghost use Rattle.cosem_datetime.specs.Fields.{DateFields, IsDateFields};

    ghost Value = { DateFields };

    ghost view = { λ p. record {
      year = p.year;
      month = p.month;
      day = p.day;
      weekday = p.weekday;
    } };

    ghost invariant = { λ p.
        IsDateFields (record {
          year = p.year;
          month = p.month;
          day = p.day;
          weekday = p.weekday;
        }) };

    ghost inverse = { λ v. record {
      year = v.year;
      month = v.month;
      day = v.day;
      weekday = v.weekday;
    } };
}

// Reads a month. Fails with `SeasonMonth` on the begin or end of daylight saving time, and with
// `Range` on any other byte that is neither 1 to 12 nor `FF`.
fn read_month(byte: u8) -> Result<Option<u8>, PatternFault>
    ensures { result ≡ month_of byte }
{
    match byte {
        DAYLIGHT_SAVING_BEGIN | DAYLIGHT_SAVING_END => Err(PatternFault::SeasonMonth),
        _ => read_field(byte, 1, 12),
    }
}

// Reads a day of the month. Fails with `Range` on a byte that is neither 1 to 31 nor `FD` to `FF`.
fn read_day(byte: u8) -> Result<DayOfMonth, PatternFault>
    ensures { result ≡ day_of byte }
{
    match byte {
        NOT_SPECIFIED => Ok(DayOfMonth::Any),
        LAST_DAY => Ok(DayOfMonth::Last),
        SECOND_LAST_DAY => Ok(DayOfMonth::SecondLast),
        1..=31 => Ok(DayOfMonth::Number(byte)),
        _ => Err(PatternFault::Range),
    }
}

// Reads a year, `None` if it is not specified. Every other number is a year.
fn read_year(year: u16) -> Option<u16>
    ensures { result ≡ year_of year }
{
    if year == YEAR_NOT_SPECIFIED {
        None
    } else {
        Some(year)
    }
}

// Reads a date of five bytes, field by field from left to right, up to the first fault.
#[tactic(auto, unfolding(crate::specs::Reading::date_of))]
pub(crate) fn date_fields(bytes: &[u8]) -> Result<DatePattern, PatternFault>
    ensures { result ≡ date_of bytes.now }
{
    if bytes.len() != 5 {
        return Err(PatternFault::Length);
    }
    let year = read_year(BigEndian::read_u16(bytes));
    let month = read_month(bytes[2])?;
    let day = read_day(bytes[3])?;
    let weekday = read_field(bytes[4], 1, 7)?;
    Ok(DatePattern {
        year,
        month,
        day,
        weekday,
    })
}

/// Reads a date of five bytes.
pub fn read_date(bytes: &[u8]) -> Result<DatePattern, PatternFault>
    // Fields are checked from left to right; the first fault is returned.
    ensures exact { result ≡ date_of bytes.now }
    // The bytes of a date that is read spell it, and a date that they spell is read.
    ensures found { IfOk result (λ p. IsDateFields p × (bytes.now ≡ date_bytes p)) }
    ensures unique { (p : DateFields) → IsDateFields p → bytes.now ≡ date_bytes p → result ≡ Ok p }
    ensures length { IsErrOf result PatternFault.Length ↔ (length bytes.now ≢ 5) }
    // The month is the first field checked, so this fault takes precedence over those of later
    // fields.
    ensures season { IsErrOf result PatternFault.SeasonMonth
        ↔ ((length bytes.now ≡ 5) × IsTrue (is_season (slice_index bytes.now 2))) }
{
    date_fields(bytes)
}

impl DayOfMonth {
    // Returns the byte of this day of the month.
    fn byte(self) -> u8
        ensures { result ≡ day_byte self }
    {
        match self {
            DayOfMonth::Any => NOT_SPECIFIED,
            DayOfMonth::Number(day) => day,
            DayOfMonth::SecondLast => SECOND_LAST_DAY,
            DayOfMonth::Last => LAST_DAY,
        }
    }

    // Returns whether a date has this day of the month.
    fn holds(self, date: CivilDate) -> bool
        requires year { date.year ≤ 9999 }
        requires day { date.day ≤ 31 }
        ensures { result ≡ day_holds self date }
    {
        match self {
            DayOfMonth::Any => true,
            DayOfMonth::Number(day) => day == date.day,
            DayOfMonth::SecondLast => date.day + 1 == month_length(date.year, date.month),
            DayOfMonth::Last => date.day == month_length(date.year, date.month),
        }
    }
}

// Returns whether a year is this number, or not specified.
fn year_holds(year: Option<u16>, number: u16) -> bool
    ensures { result ≡ holds year number }
{
    match year {
        None => true,
        Some(year) => year == number,
    }
}

impl DatePattern {
    // Returns the date with no field specified.
    pub(crate) const fn unspecified() -> DatePattern
        ensures { result ≡ unspecified_date_time.date }
    {
        DatePattern {
            year: None,
            month: None,
            day: DayOfMonth::Any,
            weekday: None,
        }
    }

    /// Returns the five bytes of the date. They are the bytes from which it was read.
    pub fn bytes(&self) -> [u8; 5]
        ensures bytes { result ≡ date_bytes self.now }
        ensures within { IsDateFields self.now }
        // Reading the bytes returns the same date.
        ensures read_back { date_of result ≡ Ok self.now }
    {
        self.spelling()
    }

    // Returns the five bytes that spell the date.
    fn spelling(&self) -> [u8; 5]
        ensures bytes { result ≡ date_bytes self.now }
        ensures within { IsDateFields self.now }
    {
        let mut bytes = [
            0,
            0,
            byte_of(self.month),
            self.day.byte(),
            byte_of(self.weekday),
        ];
        BigEndian::write_u16(&mut bytes, self.year.unwrap_or(YEAR_NOT_SPECIFIED));
        bytes
    }

    // Returns whether a date has this year, month and day of the month.
    fn holds(&self, date: CivilDate) -> bool
        requires year { date.year ≤ 9999 }
        requires day { date.day ≤ 31 }
        ensures { result ≡ date_holds self.now date }
    {
        year_holds(self.year, date.year)
            && field_holds(self.month, u32::from(date.month))
            && self.day.holds(date)
    }

    // Returns whether a date is in the last seven days of its month and has this year and month.
    fn last_week_holds(&self, date: CivilDate) -> bool
        requires year { date.year ≤ 9999 }
        requires day { date.day ≤ 31 }
        ensures { result ≡ last_week_holds self.now date }
    {
        year_holds(self.year, date.year)
            && field_holds(self.month, u32::from(date.month))
            && month_length(date.year, date.month) < date.day + DAYS_OF_WEEK
    }

    // Returns whether one of the seven days up to this day has the pattern's year, month and day
    // of the month.
    fn past_week_holds(&self, day: u32) -> bool
        requires low { 7 ≤ day }
        requires high { day ≤ 1_000_000 }
        ensures { result ≡ past_week_holds self.now day }
    {
        for back in 0..u32::from(DAYS_OF_WEEK) {
            if self.holds(date_of_day(day - back)) {
                return true;
            }
        }
        false
    }

    // Returns whether the pattern without its weekday matches a day.
    fn month_day_holds(&self, day: u32) -> bool
        requires low { 7 ≤ day }
        requires high { day ≤ 1_000_000 }
        ensures { result ≡ month_day_holds self.now.day self.now.weekday self.now day }
    {
        match (self.day, self.weekday) {
            (DayOfMonth::Last, Some(_)) => self.last_week_holds(date_of_day(day)),
            (DayOfMonth::Number(_), Some(_)) if self.year.is_none() || self.month.is_none() => {
                self.past_week_holds(day)
            }
            _ => self.holds(date_of_day(day)),
        }
    }

    // Returns whether the pattern matches a day, counted from 1 January of the year 0.
    #[tactic(auto, unfolding(crate::specs::Matching::date_matches))]
    pub(crate) fn matches_day(&self, day: u32) -> bool
        requires low { 7 ≤ day }
        requires high { day ≤ 1_000_000 }
        ensures { result ≡ date_matches self.now day }
    {
        self.weekday_holds(day) && self.month_day_holds(day)
    }

    // Returns whether year, month and day of the month are numbers.
    pub(crate) fn is_plain(&self) -> bool
        ensures { result ≡ is_plain self.now }
    {
        self.year.is_some() && self.month.is_some() && matches!(&self.day, DayOfMonth::Number(_))
    }

    // Returns the date if year, month and day of the month are numbers.
    pub(crate) fn plain_date(&self) -> Option<CivilDate>
        ensures date { result ≡ plain_date self.now }
        ensures within { IfSome result (λ c. (c.month ≤ 12) × (c.day ≤ 31)) }
    {
        let year = self.year?;
        let month = self.month?;
        let DayOfMonth::Number(day) = self.day else {
            return None;
        };
        Some(CivilDate { year, month, day })
    }

    // Returns whether the pattern has no weekday or that of a day, counted from 1 January of the
    // year 0.
    pub(crate) fn weekday_holds(&self, day: u32) -> bool
        requires { day ≤ 3_652_424 }
        ensures { result ≡ holds self.now.weekday (weekday day) }
    {
        field_holds(self.weekday, u32::from(weekday(day)))
    }
}
