//! Holds back moments of the clock that are far ahead, since no later call sets the clock back.
ghost use Rattle.std.specs.Prelude.{◌↔◌, IsTrue};
ghost use Rattle.meter_console.specs.Clocks.{IsFarAhead, IsStep};

use crate::sink::EventSink;
use relay_events::Event;
use std::time::Clock;

// A day, in seconds: a moment that is further ahead is held back.
const DAY: u32 = 86_400;

// The moment 0, 2000-01-01 00:00:00 UTC, in seconds since 1970.
const FIRST_MOMENT: u64 = 946_684_800;

// Returns whether a moment is more than a day after another, if that is known.
fn is_far_ahead(known: Option<u32>, moment: u32) -> bool
    ensures { IsTrue result ↔ IsFarAhead known moment }
{
    match known {
        Some(known) => moment.saturating_sub(known) > DAY,
        None => false,
    }
}

/// Returns whether a moment is more than a day ahead of the last one, or of the clock of this
/// machine, as far as these are known.
pub fn is_clock_step(last: Option<u32>, machine: Option<u32>, moment: u32) -> bool
    ensures { IsTrue result ↔ IsStep last machine moment }
{
    is_far_ahead(last, moment) || is_far_ahead(machine, moment)
}

// Returns the moment of a clock, or `None` if it cannot be read or has no moment.
fn moment_of(clock: &impl Clock) -> Option<u32> {
    let seconds = clock.since_1970().ok()?.as_secs();
    u32::try_from(seconds.checked_sub(FIRST_MOMENT)?).ok()
}

/// What a console knows of the meter's clock. It holds back moments that are far ahead, and reports
/// them and those that are stale.
#[derive(Drop)]
pub struct ClockGuard<R, E> {
    /// The clock of this machine.
    pub clock: R,
    /// Where moments that are held back are reported.
    pub errors: E,
    /// The last moment that the meter was given, if there is one.
    pub last: Option<u32>,
    /// Whether moments that are far ahead pass.
    pub accepts_steps: bool,
    /// The number of moments that were held back since one has passed.
    pub held_back: u64,
}

impl<R: Clock, E: Eprint> ClockGuard<R, E> {
    // Holds back a moment. The first one since a moment has passed is reported.
    fn hold_back(&mut self, moment: u32) {
        if self.held_back == 0 {
            let _ = eprintln!(self.errors;
                "console: moment {moment} held back: more than a day ahead of the last one or of \
                 this machine; --accept-clock-step lets it pass"
            );
        }
        self.held_back = self.held_back.saturating_add(1);
    }

    // Reports that moments pass again, or that this one is before the last one.
    fn pass(&mut self, moment: u32) {
        if self.held_back > 0 {
            let count = self.held_back;
            let _ = eprintln!(self.errors; "console: {count} moments were held back");
            self.held_back = 0;
        }
        match self.last {
            Some(last) if moment < last => {
                let _ = eprintln!(self.errors;
                    "console: moment {moment} is stale: the last one is {last}"
                );
            }
            _ => self.last = Some(moment),
        }
    }

    // Returns whether an event is handed on: any but a moment that is held back.
    fn lets_pass(&mut self, event: &Event) -> bool {
        let Event::Moment(moment) = event else {
            return true;
        };
        let is_step = is_clock_step(self.last, moment_of(&self.clock), *moment);
        if is_step && !self.accepts_steps {
            self.hold_back(*moment);
            return false;
        }
        self.pass(*moment);
        true
    }
}

// A sink that hands on the events that a guard lets pass.
#[derive(Drop)]
pub(crate) struct GuardedSink<S: EventSink, R, E> {
    pub(crate) sink: S,
    pub(crate) guard: ClockGuard<R, E>,
}

impl<S: EventSink, R: Clock, E: Eprint> EventSink for GuardedSink<S, R, E> {
    fn take(&mut self, event: Event) {
        if self.guard.lets_pass(&event) {
            self.sink.take(event);
        } else {
            drop(event);
        }
    }
}
