//! Checks that entries are allowed for a type of schedule, and finds whether one matches in an
//! interval (IEC 62056-6-2, class 22, type and execution_time).
ghost use Rattle.std.specs.Prelude.{◌≡◌};
ghost use Rattle.std.specs.List.{list_all};
ghost use Rattle.action_schedule.specs.Fitting.{is_same_time, have_one_time, have_plain_dates, fits_type, has_match, window_start};

use crate::kind::ScheduleType;
use cosem_datetime::{EntryPattern, TimePattern};

/// The greatest number of seconds that are searched before a moment: a day.
pub const SECONDS_LOOKED_BACK: u32 = 86_400;

// Returns whether two times have the same hour, minute and second, as written.
fn is_same_time(one: &TimePattern, other: &TimePattern) -> bool
    ensures { result ≡ is_same_time one.now other.now }
{
    one.same_time(other)
}

// Returns whether all entries have this time.
fn have_time(time: &TimePattern, entries: &[EntryPattern]) -> bool
    ensures { result ≡ list_all (λ entry. is_same_time time.now entry.time) entries.now }
{
    entries.iter().all(|entry| is_same_time(time, &entry.time))
}

// Returns whether all entries have the same time.
fn have_one_time(entries: &[EntryPattern]) -> bool
    ensures { result ≡ have_one_time entries.now }
{
    match entries {
        [] => true,
        [first, rest @ ..] => have_time(&first.time, rest),
    }
}

// Returns whether year, month and day of every entry's date are plain numbers.
fn have_plain_dates(entries: &[EntryPattern]) -> bool
    ensures { result ≡ have_plain_dates entries.now }
{
    entries.iter().all(|entry| entry.date_is_plain())
}

// Returns whether entries are allowed for a type of schedule.
pub(crate) fn fits_type(kind: ScheduleType, entries: &[EntryPattern]) -> bool
    ensures { result ≡ fits_type kind entries.now }
{
    match kind {
        ScheduleType::Type1 => entries.len() == 1,
        ScheduleType::Type2 => have_one_time(entries) && have_plain_dates(entries),
        ScheduleType::Type3 => have_one_time(entries),
        ScheduleType::Type4 => have_plain_dates(entries),
        ScheduleType::Type5 => true,
    }
}

// Returns the moment after which seconds are searched: the previous one, but at most a day before
// `now`.
pub(crate) fn window_start(previous: u32, now: u32) -> u32
    ensures { result ≡ window_start previous now }
{
    previous.max(now.saturating_sub(SECONDS_LOOKED_BACK))
}

// Returns whether a second after `after` and up to and including `upto` matches one of the entries.
pub(crate) fn has_match(entries: &[EntryPattern], after: u32, upto: u32) -> bool
    ensures { result ≡ has_match entries.now after upto }
{
    entries.iter().any(|entry| entry.matches_in(after, upto))
}
