//! How many answers a session was given, and how many of them refused a request.
ghost use Rattle.std.specs.Prelude.{◌≡◌};
ghost use Rattle.session_log.specs.Counts.{count_with, no_answers};

use crate::answer::AnswerKind;

/// The number of requests that the meter answered in a session, and of those that it refused. Each
/// number stops at 2^64 - 1.
#[derive(Clone, Copy, Debug, PartialEq, Eq)]
pub struct AnswerCount {
    /// The number of requests that were answered, refused ones too.
    pub requests: u64,
    /// The number of requests that were refused.
    pub refused: u64,
}

impl AnswerCount {
    /// Returns the count of a session without answers.
    pub fn new() -> AnswerCount
        ensures { result ≡ no_answers }
    {
        AnswerCount {
            requests: 0,
            refused: 0,
        }
    }

    /// Returns the count after one more answer. One to an association request, or one of another
    /// kind, does not count.
    pub fn with(self, answer: AnswerKind) -> AnswerCount
        ensures { result ≡ count_with answer self }
    {
        match answer {
            AnswerKind::Served => AnswerCount {
                requests: self.requests.saturating_add(1),
                refused: self.refused,
            },
            AnswerKind::Refused => AnswerCount {
                requests: self.requests.saturating_add(1),
                refused: self.refused.saturating_add(1),
            },
            AnswerKind::Opened | AnswerKind::NotOpened(_) | AnswerKind::Other => self,
        }
    }
}
