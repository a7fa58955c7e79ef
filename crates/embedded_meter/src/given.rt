//! The results of a meter's calls.
use session_core::SessionEnd;

/// The result of [`SupplyMeter::next`](crate::SupplyMeter::next).
#[derive(Clone, Copy, Debug, PartialEq, Eq)]
pub enum Given {
    /// A frame of this many bytes was copied to the caller's buffer. The caller must send it to the
    /// client.
    Frame(usize),
    /// A frame of this many bytes must be sent, but the buffer is too short. The frame stays
    /// pending.
    NoRoom(usize),
    /// There is nothing to send until more bytes arrive.
    Wait,
    /// The session is over.
    End(SessionEnd),
}

/// How many times each side of each limiter has fired in a block of samples.
#[derive(Clone, Copy, Debug, PartialEq, Eq)]
pub struct Fired {
    /// Fires of the import limiter over its threshold.
    pub over: u16,
    /// Fires of the import limiter under its threshold.
    pub under: u16,
    /// Fires of the export limiter over its threshold; 0 in a block of import values alone.
    pub export_over: u16,
    /// Fires of the export limiter under its threshold; 0 in a block of import values alone.
    pub export_under: u16,
}

/// The result of a moment of the clock.
#[derive(Clone, Copy, Debug, PartialEq, Eq)]
pub enum Tick {
    /// The number of schedules that were due.
    Ran(u8),
    /// The moment is earlier than the last one, which this variant holds. The meter's state is
    /// unchanged; the moment is kept as an event.
    Stale(u32),
}
