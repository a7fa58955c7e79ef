//! The error of the readers of dates and times: wrong length, a field out of its range, or daylight
//! saving.
ghost use Rattle.std.specs.Prelude.{◌≡◌};
ghost use Rattle.cosem_datetime.specs.Numbers.{fault_number};

use thiserror::Error;

/// Why bytes are not a date, time or date-time. The length is judged first, then the fields from
/// left to right; the first fault is reported.
#[derive(Clone, Copy, Debug, PartialEq, Eq, Error)]
pub enum PatternFault {
    /// The number of bytes is wrong: a date has five, a time four, a date-time twelve.
    #[error("a date or time of another length")]
    Length = 1,
    /// A field is neither in its range nor one of its special values.
    #[error("a field of a date or time out of its range")]
    Range = 2,
    /// The month is the begin or the end of daylight saving (`FE`, `FD`), which this meter does not
    /// offer.
    #[error("a month that stands for a change of daylight saving")]
    SeasonMonth = 3,
}

/// Returns the number of the fault, 1 to 3.
impl From<PatternFault> for u8 {
    ghost from_gives = { λ fault number. number ≡ fault_number fault };

    fn from(fault: PatternFault) -> u8 {
        fault as u8
    }
}
