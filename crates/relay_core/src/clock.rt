//! Moments of the clock: a later one runs the scripts of all schedules that are due since the last
//! (IEC 62056-6-2, class 22).
ghost use Rattle.std.specs.Prelude.{◌≡◌};
ghost use Rattle.std.specs.List.{count_by};
ghost use Rattle.action_schedule.specs.Fitting.{is_due};
ghost use Rattle.relay_core.specs.Clock.{with_moment, after_schedule, after_schedules, at_moment};
ghost use Rattle.relay_events.specs.Kinds.{IsOfClock};
ghost use Rattle.relay_core.specs.Schedules.{schedule_of, all_schedules};
ghost use Rattle.relay_core.specs.Stands.{StandsFor};
ghost use Rattle.relay_core.specs.World.{World};

use crate::relay::RelayCore;
use crate::scripts::Origin;
use cosem_names::ScheduleNumber;
use relay_events::Reply;

impl RelayCore {
    // Sets the clock of both limiters.
    fn set_clock(&mut self, now: u32)
        ensures world { (w : World) → StandsFor self.old w
            → StandsFor self.new (with_moment now w) }
        ensures schedules { self.new.schedules ≡ self.old.schedules }
    {
        self.import.at(now);
        self.export.at(now);
    }

    // Handles a moment of the clock. One earlier than the last is stale, and the last again
    // changes nothing. A later one runs the schedules that have become due since the last.
    #[tactic(auto, unfolding(crate::specs::Clock::at_moment))]
    pub(crate) fn tick(&mut self, now: u32) -> Reply
        ensures world { (w : World) → StandsFor self.old w
            → StandsFor self.new (at_moment now w).world }
        ensures reply { (w : World) → StandsFor self.old w → result ≡ (at_moment now w).reply }
        ensures fits { IsOfClock result }
    {
        match self.last_moment() {
            Some(last) if now < last => Reply::Stale { last },
            Some(last) if now == last => Reply::Ran(0),
            Some(last) => {
                self.set_clock(now);
                Reply::Ran(self.run_schedules(last, now))
            }
            None => {
                self.set_clock(now);
                Reply::Ran(0)
            }
        }
    }

    // Runs the schedules that are due after `last` and at or before `now`, in order, and returns
    // their number.
    fn run_schedules(&mut self, last: u32, now: u32) -> u8
        ensures world { (w : World) → StandsFor self.old w
            → StandsFor self.new (after_schedules last now (all_schedules w.schedules) w) }
        ensures count { result
            ≡ count_by (λ schedule. is_due schedule last now) (all_schedules self.old.schedules) }
    {
        let first = self.run_schedule(ScheduleNumber::First, last, now);
        let second = self.run_schedule(ScheduleNumber::Second, last, now);
        let third = self.run_schedule(ScheduleNumber::Third, last, now);
        let fourth = self.run_schedule(ScheduleNumber::Fourth, last, now);
        u8::from(first) + u8::from(second) + u8::from(third) + u8::from(fourth)
    }

    // Runs the script of a schedule if it is due, and returns whether it was.
    #[tactic(auto, unfolding(crate::specs::Clock::after_schedule))]
    fn run_schedule(&mut self, which: ScheduleNumber, last: u32, now: u32) -> bool
        ensures world { (w : World) → StandsFor self.old w
            → StandsFor self.new
            (after_schedule last now (schedule_of which self.old.schedules) w) }
        ensures due { result ≡ is_due (schedule_of which self.old.schedules) last now }
        ensures schedules { self.new.schedules ≡ self.old.schedules }
    {
        let schedule = self.schedules.get(which);
        if !schedule.due(last, now) {
            return false;
        }
        let selector = schedule.selector();
        let _code = self.run_script(Origin::Remote, selector);
        true
    }
}
