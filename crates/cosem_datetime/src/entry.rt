//! An execution time of a schedule, a time and a date pattern (IEC 62056-6-2, class 22), matched
//! against seconds of the meter's clock.
ghost use Rattle.std.specs.Prelude.{◌≡◌, ◌+◌, ◌*◌, ◌<◌, ◌≤◌, ◌↔◌, ℕ, IsTrue};

use crate::calendar::{FIRST_DAY_OF_2000, SECONDS_OF_DAY};
use crate::date::DatePattern;
use crate::time::TimePattern;

/// One execution time of a single action schedule (IEC 62056-6-2, class 22): a time, on the days of
/// a date.
#[derive(Clone, Copy, Debug)]
pub struct EntryPattern {
    /// The time of day.
    pub time: TimePattern,
    /// The days on which the time counts.
    pub date: DatePattern,
}

impl EntryPattern {
    ghost use Rattle.cosem_datetime.specs.Matching.{matches, matches_in, is_plain};
    ghost use Rattle.cosem_datetime.specs.First.{TellsPassing};

    /// Returns whether the entry matches a second of the meter's time.
    #[tactic(auto, using(crate::proofs::Jiff::first_day_is), unfolding(crate::specs::Matching::matches))]
    pub fn matches(&self, second: u32) -> bool
        ensures { result ≡ matches self.now second }
    {
        self.date
            .matches_day(FIRST_DAY_OF_2000 + second / SECONDS_OF_DAY)
            && self.time.matches_second(second % SECONDS_OF_DAY)
    }

    /// Returns whether the entry matches some second of `(after, upto]`: after `after`, up to and
    /// including `upto`.
    pub fn matches_in(&self, after: u32, upto: u32) -> bool
        ensures value { result ≡ matches_in self.now after upto }
        ensures seconds { IsTrue result
            ↔ ((s : ℕ) × ((after < s) × ((s ≤ upto) × IsTrue (matches self.now s)))) }
    {
        after < upto && self.matches_within(after + 1, upto)
    }

    /// Returns whether year, month and day of the month are plain numbers. The weekday does not
    /// count.
    pub fn date_is_plain(&self) -> bool
        ensures { result ≡ is_plain self.now.date }
    {
        self.date.is_plain()
    }

    // Returns whether the entry matches some second from `first` to `last`, both included.
    fn matches_within(&self, first: u32, last: u32) -> bool
        ensures { TellsPassing (matches self.now) first last result }
    {
        for day in first / SECONDS_OF_DAY..last / SECONDS_OF_DAY + 1 {
            let begin = SECONDS_OF_DAY * day;
            let from = first.saturating_sub(begin);
            let to = (last - begin).min(SECONDS_OF_DAY - 1);
            if self.matches_on(day, from, to) {
                return true;
            }
        }
        false
    }

    // Returns whether the entry matches some second of a day from `from` to `to`, both included.
    // Day 0 is 1 January 2000.
    fn matches_on(&self, day: u32, from: u32, to: u32) -> bool
        requires day { day ≤ 49710 }
        requires from_in_day { from < 86400 }
        requires to_in_day { to < 86400 }
        ensures { TellsPassing (matches self.now) (86400 * day + from) (86400 * day + to) result }
    {
        self.date.matches_day(FIRST_DAY_OF_2000 + day) && self.time.matches_between(from, to)
    }
}
