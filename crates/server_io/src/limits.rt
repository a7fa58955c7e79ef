//! The time limits of a client.
ghost use Rattle.std.specs.Prelude.{◌≡◌, ◌↔◌, IsTrue};
ghost use Rattle.std.specs.Duration.{as_nanos};
ghost use Rattle.server_io.specs.Limits.{IsLimit, IsOver, nanos_of, lesser_limit, limit_after};

use std::time::Duration;

/// The time limits of a client; `None` means no limit.
#[derive(Clone, Copy, Debug)]
pub struct StreamLimits {
    /// The limit of a read or a write.
    pub call: Option<Duration>,
    /// The limit of a whole session.
    pub session: Option<Duration>,
}

// Returns the limit of this number of seconds; 0 means no limit.
fn limit_of(seconds: u32) -> Option<Duration>
    ensures { IsLimit seconds result }
{
    if seconds == 0 {
        None
    } else {
        Some(Duration::from_secs(u64::from(seconds)))
    }
}

// Returns the shorter of two durations.
fn shorter(first: Duration, second: Duration) -> Duration
    ensures { nanos_of (Some result)
        ≡ lesser_limit (nanos_of (Some first)) (nanos_of (Some second)) }
{
    match first.checked_sub(second) {
        Some(_) => second,
        None => first,
    }
}

impl StreamLimits {
    /// Returns the limits of a read or a write and of a session, in seconds; 0 means no limit.
    pub fn from_seconds(call: u32, session: u32) -> StreamLimits
        ensures call { IsLimit call result.call }
        ensures session { IsLimit session result.session }
    {
        StreamLimits {
            call: limit_of(call),
            session: limit_of(session),
        }
    }

    /// Returns whether a session that has lasted this long has exceeded its limit.
    pub fn is_over(self, lasted: Duration) -> bool
        ensures { IsTrue result ↔ IsOver self.session lasted }
    {
        match self.session {
            Some(session) => session.saturating_sub(lasted).is_zero(),
            None => false,
        }
    }

    /// Returns the time limit of the next read or write in a session that has lasted this long;
    /// `None` means no limit.
    pub fn left_after(self, lasted: Duration) -> Option<Duration>
        ensures { nanos_of result
            ≡ lesser_limit (nanos_of self.call)
            (limit_after (nanos_of self.session) (as_nanos lasted)) }
    {
        let Some(session) = self.session else {
            return self.call;
        };
        let left = session.saturating_sub(lasted);
        match self.call {
            Some(call) => Some(shorter(call, left)),
            None => Some(left),
        }
    }
}
