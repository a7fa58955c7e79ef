//! The ends of a session: closed or cut by its client, or stopped by a header that is not valid
//! (IEC 62056-4-7).
ghost use Rattle.std.specs.Prelude.{◌≡◌};
ghost use Rattle.session_core.specs.Numbers.{end_number};

use std::fmt;
use std::fmt::{Display, Formatter, Write};

/// How a session ended.
#[derive(Clone, Copy, Debug, PartialEq, Eq)]
pub enum SessionEnd {
    /// The input ended between two frames.
    Closed = 1,
    /// The input ended within a frame.
    Cut = 2,
    /// A header with a version other than 0001 arrived.
    BadVersion = 3,
    /// A header that announces a payload of more than 1,024 bytes arrived.
    TooLong = 4,
}

/// Converts an end to its number, 1 to 4.
impl From<SessionEnd> for u8 {
    ghost from_gives = { λ end number. number ≡ end_number end };

    fn from(end: SessionEnd) -> u8 {
        end as u8
    }
}

impl Display for SessionEnd {
    fn fmt<W: Write>(&self, f: &mut Formatter<W>) -> fmt::Result {
        f.write_str(match self {
            SessionEnd::Closed => "the client closed the connection",
            SessionEnd::Cut => "the client closed the connection within a frame",
            SessionEnd::BadVersion => "a frame has the wrong version: expected 1",
            SessionEnd::TooLong => "a frame is too long: expected a payload of at most 1,024 bytes",
        })
    }
}
