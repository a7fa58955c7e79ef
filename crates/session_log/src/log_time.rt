//! The time at the head of a line of the log.
use jiff::Timestamp;
use jiff::civil::DateTime;
use jiff::tz::TimeZone;
use std::fmt;
use std::time::Clock;

/// The time of a line of the log, in UTC, shown to the millisecond: `2026-11-27T08:05:09.042Z`. A
/// clock that cannot be read is shown as `(no time)`.
#[derive(Clone, Copy)]
pub struct LogTime {
    time: Option<DateTime>,
}

impl LogTime {
    /// Returns the time of a clock.
    pub fn now(clock: &impl Clock) -> LogTime {
        LogTime {
            time: match Timestamp::now(clock) {
                Ok(now) => Some(now.to_zoned(TimeZone::UTC).datetime()),
                Err(_) => None,
            },
        }
    }
}

impl fmt::Display for LogTime {
    fn fmt<W: fmt::Write>(&self, f: &mut fmt::Formatter<W>) -> fmt::Result {
        let Some(time) = self.time else {
            return f.write_str("(no time)");
        };
        write!(
            f,
            "{}T{:02}:{:02}:{:02}.{:03}Z",
            time.date(),
            time.hour(),
            time.minute(),
            time.second(),
            time.millisecond()
        )
    }
}
