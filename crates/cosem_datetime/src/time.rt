//! The time pattern of four bytes (IEC 62056-6-2, date and time formats): reading, writing and
//! matching seconds of a day.
ghost use Rattle.std.specs.Prelude.{◌≡◌, ◌+◌, ◌*◌, ◌/◌, ◌<◌, ◌≢◌, ◌↔◌, length, Ok, IsTrue, IfOk, IfSome, IsErrOf};
ghost use Rattle.cosem_datetime.specs.Reading.{time_of};
ghost use Rattle.cosem_datetime.specs.Fields.{TimeFields, IsTimeFields, time_bytes, unspecified_date_time};
ghost use Rattle.cosem_datetime.specs.Matching.{holds, time_matches};
ghost use Rattle.cosem_datetime.specs.Moment.{second_of_day};
ghost use Rattle.cosem_datetime.specs.First.{IsFirstIfAny, TellsPassing, hour_second_holds, day_second_holds};

use crate::fault::PatternFault;
use crate::field::{byte_of, field_holds, read_field};
use std::marker::Model;

/// A time of four bytes: hour, minute, second and hundredths of a second, each of which may be
/// unspecified.
#[derive(Clone, Copy, Debug, PartialEq, Eq)]
pub struct TimePattern {
    hour: Option<u8>,
    minute: Option<u8>,
    second: Option<u8>,
    hundredths: Option<u8>,
}

impl Model for TimePattern {
    ghost use Rattle.cosem_datetime.specs.Fields.{TimeFields, IsTimeFields};

    ghost Value = { TimeFields };

    ghost view = { λ p. record {
      hour = p.hour;
      minute = p.minute;
      second = p.second;
      hundredths = p.hundredths;
    } };

    ghost invariant = { λ p.
        IsTimeFields (record {
          hour = p.hour;
          minute = p.minute;
          second = p.second;
          hundredths = p.hundredths;
        }) };

    ghost inverse = { λ v. record {
      hour = v.hour;
      minute = v.minute;
      second = v.second;
      hundredths = v.hundredths;
    } };
}

// Reads a time of four bytes, field by field from left to right, up to the first fault.
#[tactic(auto, unfolding(crate::specs::Reading::time_of))]
pub(crate) fn time_fields(bytes: &[u8]) -> Result<TimePattern, PatternFault>
    ensures { result ≡ time_of bytes.now }
{
    if bytes.len() != 4 {
        return Err(PatternFault::Length);
    }
    let hour = read_field(bytes[0], 0, 23)?;
    let minute = read_field(bytes[1], 0, 59)?;
    let second = read_field(bytes[2], 0, 59)?;
    let hundredths = read_field(bytes[3], 0, 0)?;
    Ok(TimePattern {
        hour,
        minute,
        second,
        hundredths,
    })
}

/// Reads a time of four bytes (IEC 62056-6-2, date and time formats). Hundredths of a second are 0
/// or not specified; that is a rule of this meter.
///
/// Errors, judged in this order: `Length` if there are not four bytes, `Range` if a field is out of
/// its range.
pub fn read_time(bytes: &[u8]) -> Result<TimePattern, PatternFault>
    // Fields are read from left to right, up to the first fault.
    ensures exact { result ≡ time_of bytes.now }
    // Reads a time exactly if the bytes spell it.
    ensures found { IfOk result (λ p. IsTimeFields p × (bytes.now ≡ time_bytes p)) }
    ensures unique { (p : TimeFields) → IsTimeFields p → bytes.now ≡ time_bytes p → result ≡ Ok p }
    ensures length { IsErrOf result PatternFault.Length ↔ (length bytes.now ≢ 4) }
    ensures no_season { ¬ IsErrOf result PatternFault.SeasonMonth }
{
    time_fields(bytes)
}

// Returns the first number from `from` to before `limit` that the field allows, or `None`.
fn first_value(field: Option<u8>, from: u32, limit: u32) -> Option<u32>
    ensures { IsFirstIfAny (holds field) from limit result }
{
    let value = field.map_or(from, u32::from);
    if from <= value && value < limit {
        Some(value)
    } else {
        None
    }
}

// Returns the first matching second from `from` on in the same minute, or `None`. Both are counted
// from the start of the hour.
fn first_in_minute(minute: Option<u8>, second: Option<u8>, from: u32) -> Option<u32>
    requires { from < 3600 }
    ensures { IsFirstIfAny (hour_second_holds minute second) from (60 * (from / 60 + 1)) result }
{
    if !field_holds(minute, from / 60) {
        return None;
    }
    let second = first_value(second, from % 60, 60)?;
    Some(60 * (from / 60) + second)
}

// Returns the first matching second from `from` on in the same hour, or `None`. Both are counted
// from the start of the hour.
fn first_in_hour(minute: Option<u8>, second: Option<u8>, from: u32) -> Option<u32>
    requires { from < 3600 }
    ensures { IsFirstIfAny (hour_second_holds minute second) from 3600 result }
{
    if let Some(found) = first_in_minute(minute, second, from) {
        return Some(found);
    }
    let minute = first_value(minute, from / 60 + 1, 60)?;
    let second = first_value(second, 0, 60)?;
    Some(60 * minute + second)
}

impl TimePattern {
    // Returns the time with no field specified.
    pub(crate) const fn unspecified() -> TimePattern
        ensures { result ≡ unspecified_date_time.time }
    {
        TimePattern {
            hour: None,
            minute: None,
            second: None,
            hundredths: None,
        }
    }

    /// Returns the four bytes that spell the time: those that it was read from.
    pub fn bytes(&self) -> [u8; 4]
        ensures bytes { result ≡ time_bytes self.now }
        ensures within { IsTimeFields self.now }
        // Reading the bytes returns the time.
        ensures read_back { time_of result ≡ Ok self.now }
    {
        self.spelling()
    }

    // Returns the four bytes that spell the time.
    fn spelling(&self) -> [u8; 4]
        ensures bytes { result ≡ time_bytes self.now }
        ensures within { IsTimeFields self.now }
    {
        [
            byte_of(self.hour),
            byte_of(self.minute),
            byte_of(self.second),
            byte_of(self.hundredths),
        ]
    }

    /// Returns whether both have the same hour, minute and second as written. An unspecified field
    /// equals only an unspecified field; hundredths do not count.
    pub fn same_time(&self, other: &TimePattern) -> bool
        ensures { IsTrue result
            ↔ (((self.now.hour ≡ other.now.hour) × (self.now.minute ≡ other.now.minute))
            × (self.now.second ≡ other.now.second)) }
    {
        self.hour == other.hour && self.minute == other.minute && self.second == other.second
    }

    // Returns whether the time matches a second of the day.
    #[tactic(auto, unfolding(crate::specs::Matching::time_matches))]
    pub(crate) fn matches_second(&self, second: u32) -> bool
        ensures { result ≡ time_matches self.now second }
    {
        field_holds(self.hour, second / 3600)
            && field_holds(self.minute, second / 60 % 60)
            && field_holds(self.second, second % 60)
    }

    // Returns the first matching second from `from` on in the same hour, or `None`. Both are
    // counted from the start of the day.
    fn first_in_this_hour(&self, from: u32) -> Option<u32>
        requires { from < 86400 }
        ensures { IsFirstIfAny (day_second_holds self.now) from (3600 * (from / 3600 + 1)) result }
    {
        if !field_holds(self.hour, from / 3600) {
            return None;
        }
        let second = first_in_hour(self.minute, self.second, from % 3600)?;
        Some(3600 * (from / 3600) + second)
    }

    // Returns the first matching second from `from` on in the same day, or `None`. Both are
    // counted from the start of the day.
    fn first_in_day(&self, from: u32) -> Option<u32>
        requires { from < 86400 }
        ensures { IsFirstIfAny (day_second_holds self.now) from 86400 result }
    {
        if let Some(found) = self.first_in_this_hour(from) {
            return Some(found);
        }
        let hour = first_value(self.hour, from / 3600 + 1, 24)?;
        let second = first_in_hour(self.minute, self.second, 0)?;
        Some(3600 * hour + second)
    }

    // Returns whether the time matches some second of the day from `from` to `to`, both included.
    pub(crate) fn matches_between(&self, from: u32, to: u32) -> bool
        requires from_in_day { from < 86400 }
        requires to_in_day { to < 86400 }
        ensures { TellsPassing (time_matches self.now) from to result }
    {
        match self.first_in_day(from) {
            Some(first) => first <= to,
            None => false,
        }
    }

    // Returns the second of the day, or `None` unless hour, minute and second are all numbers.
    pub(crate) fn second_of_day(&self) -> Option<u32>
        ensures second { result ≡ second_of_day self.now }
        ensures within { IfSome result (λ second. second < 86400) }
    {
        let hour = self.hour?;
        let minute = self.minute?;
        let second = self.second?;
        Some(3600 * u32::from(hour) + 60 * u32::from(minute) + u32::from(second))
    }
}
