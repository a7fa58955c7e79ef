//! The date-time of twelve bytes (IEC 62056-6-2, date and time formats): a date, a time, the
//! deviation from UTC and the clock status.
ghost use Rattle.std.specs.Prelude.{◌≡◌, ◌≢◌, ◌≤◌, ◌↔◌, [], ◌∷◌, length, slice_index, Ok, IsTrue, IfOk, IsErrOf};
ghost use Rattle.byteorder.specs.Endian.{big_number};
ghost use Rattle.cosem_datetime.specs.Fields.{DateTimeFields, IsDateTimeFields, date_time_bytes, unspecified_date_time};
ghost use Rattle.cosem_datetime.specs.Reading.{is_season, deviation_of, date_time_of};

use crate::date::{DatePattern, date_fields};
use crate::fault::PatternFault;
use crate::field::NOT_SPECIFIED;
use crate::time::{TimePattern, time_fields};
use byteorder::{BigEndian, ByteOrder};
use std::marker::Model;

/// A date-time of twelve bytes: a date, a time, the deviation from local time to UTC in minutes,
/// and the clock status.
#[derive(Clone, Copy, Debug)]
pub struct DateTimeField {
    // The date.
    pub(crate) date: DatePattern,
    // The time of day.
    pub(crate) time: TimePattern,
    // The minutes from local time to UTC, -720 to 840, or `None` if not specified.
    pub(crate) deviation: Option<i16>,
    // The clock status, any byte.
    status: u8,
}

impl Model for DateTimeField {
    ghost use Rattle.std.specs.Prelude.{◌<◌};
    ghost use Rattle.cosem_datetime.specs.Fields.{DateTimeFields, IsDeviationWithin};

    ghost Value = { DateTimeFields };

    ghost view = { λ p. record {
      date = p.date;
      time = p.time;
      deviation = p.deviation;
      status = p.status;
    } };

    ghost invariant = { λ p. IsDeviationWithin p.deviation × (p.status < 256) };

    ghost inverse = { λ v. record {
      date = v.date;
      time = v.time;
      deviation = v.deviation;
      status = v.status;
    } };
}

// Reads the deviation from the first two bytes.
fn read_deviation(bytes: &[u8]) -> Result<Option<i16>, PatternFault>
    requires { 2 ≤ length bytes.now }
    ensures { result ≡ deviation_of (big_number 2 bytes.now) }
{
    match BigEndian::read_i16(bytes) {
        i16::MIN => Ok(None),
        minutes @ -720..=840 => Ok(Some(minutes)),
        _ => Err(PatternFault::Range),
    }
}

// Reads a date-time of twelve bytes, field by field from left to right, up to the first fault.
#[tactic(auto, unfolding(crate::specs::Reading::date_time_of))]
fn date_time_fields(bytes: &[u8]) -> Result<DateTimeField, PatternFault>
    ensures { result ≡ date_time_of bytes.now }
{
    if bytes.len() != 12 {
        return Err(PatternFault::Length);
    }
    let date = date_fields(&bytes[..5])?;
    let time = time_fields(&bytes[5..9])?;
    let deviation = read_deviation(&bytes[9..])?;
    Ok(DateTimeField {
        date,
        time,
        deviation,
        status: bytes[11],
    })
}

/// Reads a date-time of twelve bytes.
pub fn read_date_time(bytes: &[u8]) -> Result<DateTimeField, PatternFault>
    // Fields are checked from left to right; the first fault is returned.
    ensures exact { result ≡ date_time_of bytes.now }
    // The bytes of a date-time that is read spell it, and a date-time that they spell is read.
    ensures found { IfOk result (λ p. IsDateTimeFields p × (bytes.now ≡ date_time_bytes p)) }
    ensures unique { (p : DateTimeFields) → IsDateTimeFields p → bytes.now ≡ date_time_bytes p
        → result ≡ Ok p }
    ensures length { IsErrOf result PatternFault.Length ↔ (length bytes.now ≢ 12) }
    // The month is the first field checked, so this fault takes precedence over those of later
    // fields.
    ensures season { IsErrOf result PatternFault.SeasonMonth
        ↔ ((length bytes.now ≡ 12) × IsTrue (is_season (slice_index bytes.now 2))) }
{
    date_time_fields(bytes)
}

impl DateTimeField {
    /// Returns the date-time with no field specified, `FFFFFFFFFFFFFFFFFF8000FF`.
    pub const fn unspecified() -> DateTimeField
        ensures fields { result ≡ unspecified_date_time }
        ensures bytes { date_time_bytes result
            ≡ 0xFF ∷ 0xFF ∷ 0xFF ∷ 0xFF ∷ 0xFF ∷ 0xFF ∷ 0xFF ∷ 0xFF ∷ 0xFF ∷ 0x80 ∷ 0x00 ∷ 0xFF
            ∷ [] }
    {
        DateTimeField {
            date: DatePattern::unspecified(),
            time: TimePattern::unspecified(),
            deviation: None,
            status: NOT_SPECIFIED,
        }
    }

    /// Returns the twelve bytes of the date-time. They are the bytes from which it was read.
    pub fn bytes(&self) -> [u8; 12]
        ensures bytes { result ≡ date_time_bytes self.now }
        ensures within { IsDateTimeFields self.now }
        // Reading the bytes returns the same date-time.
        ensures read_back { date_time_of result ≡ Ok self.now }
    {
        self.spelling()
    }

    // Returns the twelve bytes that spell the date-time.
    fn spelling(&self) -> [u8; 12]
        ensures bytes { result ≡ date_time_bytes self.now }
        ensures within { IsDateTimeFields self.now }
    {
        let [y1, y2, month, day, weekday] = self.date.bytes();
        let [hour, minute, second, hundredths] = self.time.bytes();
        let mut bytes = [
            y1,
            y2,
            month,
            day,
            weekday,
            hour,
            minute,
            second,
            hundredths,
            0,
            0,
            self.status,
        ];
        BigEndian::write_i16(&mut bytes[9..], self.deviation.unwrap_or(i16::MIN));
        bytes
    }
}
