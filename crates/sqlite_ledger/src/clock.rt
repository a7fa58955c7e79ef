//! The clock of a book.
ghost use Rattle.std.specs.Prelude.{ℕ, ⊤};

use std::rt::HostRuntime;
use std::time::Clock;

// Gives the second of a mark or an outcome.
pub(crate) trait SecondClock {
    // Ghost predicate: this is the second that the clock gave when it was last read. The default
    // claims nothing.
    ghost gave: { Self → ℕ → Type 0 } = { λ _ _. ⊤ };

    // Returns the seconds since 1970, or 0 if the time cannot be read or is that of 2^32 seconds or
    // more.
    fn seconds(&mut self) -> u32
        ensures { gave self.new result };
}

// Reads the time, and nothing else of the runtime.
#[derive(Clone, Copy)]
pub(crate) struct WallClock {
    rt: HostRuntime,
}

impl WallClock {
    // Returns the clock of the runtime.
    pub(crate) fn new(rt: &HostRuntime) -> WallClock {
        WallClock { rt: *rt }
    }
}

impl SecondClock for WallClock {
    fn seconds(&mut self) -> u32 {
        match self.rt.since_1970() {
            Ok(time) => u32::try_from(time.as_secs()).unwrap_or(0),
            Err(_) => 0,
        }
    }
}
