//! Dates and times as DLMS/COSEM writes them (IEC 62056-6-2, date and time formats): patterns whose
//! fields may be unspecified, and the seconds of a meter's clock that match them.
//!
//! A second is a `u32`: the seconds since 1 January 2000, 00:00:00, in the meter's own time. No
//! function allocates.
#![tactic(auto)]

mod calendar;
mod date;
mod date_time;
mod entry;
mod fault;
mod field;
mod moment;
mod time;

pub use calendar::{CivilDate, FIRST_DAY_OF_2000, SECONDS_OF_DAY, calendar_laws, date_of_day};
pub use date::{DatePattern, DayOfMonth, read_date};
pub use date_time::{DateTimeField, read_date_time};
pub use entry::EntryPattern;
pub use fault::PatternFault;
pub use moment::moment_of;
pub use time::{TimePattern, read_time};
