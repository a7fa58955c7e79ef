//! The result codes of `meter.h`, and the code of each fault.
ghost use Rattle.std.specs.Prelude.{◌≡◌};
ghost use Rattle.meter.specs.Outcomes.{code_of, of_fault};

use embedded_meter::{Given, MeterFault};
use session_core::SessionEnd;

/// The result of a call for C.
#[derive(Clone, Copy, Debug, PartialEq, Eq)]
pub enum CallResult {
    /// The call succeeded.
    Done,
    /// There is nothing to send until more bytes arrive.
    Wait,
    /// The session is over: its input ended between two frames.
    Closed,
    /// The session is over: its input ended within a frame.
    Cut,
    /// The session is over: a header with another version arrived.
    BadVersion,
    /// The session is over: a header with too long a payload length arrived.
    TooLong,
    /// The moment is earlier than the last one.
    Stale,
    /// There has been no moment yet.
    NoMoment,
    /// Out of memory.
    NoMemory,
    /// The meter is not open.
    NotOpen,
    /// The meter is already open.
    IsOpen,
    /// No session with this number is open.
    NoSession,
    /// A session with this number is already open.
    SessionTaken,
    /// A length or a number is outside its range, or a text is not a trace.
    WrongArgument,
    /// The caller's buffer is too short.
    NoRoom,
}

impl CallResult {
    // Returns the number of the result in `meter.h`.
    pub(crate) fn code(self) -> u32
        ensures { result ≡ code_of self }
    {
        match self {
            CallResult::Done => 0,
            CallResult::Wait => 1,
            CallResult::Closed => 2,
            CallResult::Cut => 3,
            CallResult::BadVersion => 4,
            CallResult::TooLong => 5,
            CallResult::Stale => 6,
            CallResult::NoMoment => 7,
            CallResult::NoMemory => 8,
            CallResult::NotOpen => 9,
            CallResult::IsOpen => 10,
            CallResult::NoSession => 11,
            CallResult::SessionTaken => 12,
            CallResult::WrongArgument => 13,
            CallResult::NoRoom => 14,
        }
    }

    // Returns the result for C of a fault.
    pub(crate) fn from_fault(fault: MeterFault) -> CallResult
        ensures { result ≡ of_fault fault }
    {
        match fault {
            MeterFault::NoSession => CallResult::NoSession,
            MeterFault::SessionTaken => CallResult::SessionTaken,
            MeterFault::TooManySamples => CallResult::WrongArgument,
            MeterFault::Uneven => CallResult::WrongArgument,
            MeterFault::Memory => CallResult::NoMemory,
        }
    }
}
