//! Reports the moments of the clock at which schedules ran.
ghost use Rattle.std.specs.Prelude.{◌≡◌};
ghost use Rattle.meter_console.specs.Reported.{source_of};

use relay_events::Reply;
use shared_meter::MomentSource;

/// The moments of a source. Those at which the meter ran schedules are reported.
#[derive(Drop)]
pub struct ReportedMoments<S, E> {
    source: S,
    errors: E,
    // The moment that was returned last.
    last: u32,
}

impl<S, E> ReportedMoments<S, E> {
    /// Returns the moments of this source, which are reported on `errors`.
    pub fn new(source: S, errors: E) -> ReportedMoments<S, E>
        ensures { source_of result ≡ source }
    {
        ReportedMoments {
            source,
            errors,
            last: 0,
        }
    }
}

impl<S: MomentSource, E: Eprint + Drop> MomentSource for ReportedMoments<S, E> {
    ghost forecast = { λ moments. S.forecast (source_of moments) };

    fn next_moment(&mut self) -> Option<u32> {
        let next = self.source.next_moment();
        if let Some(moment) = next {
            self.last = moment;
        }
        next
    }

    fn receive(&mut self, reply: &Reply) {
        if let Reply::Ran(count) = reply
            && *count > 0
        {
            let moment = self.last;
            let word = if *count == 1 { "schedule" } else { "schedules" };
            let _ = eprintln!(self.errors; "console: moment {moment} ran {count} {word}");
        }
    }
}
