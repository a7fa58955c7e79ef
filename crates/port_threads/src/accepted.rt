//! The results of connections.
ghost use Rattle.std.specs.Prelude.{◌≡◌, ◌⊎◌, ℕ, ◌+◌, ◌<◌, ◌≤◌, ◌↔◌, true, false, IsTrue};
ghost use Rattle.port_threads.specs.Sessions.{Takes, IsAdded, IsServed};

// The result of one connection.
#[derive(Clone, Copy)]
pub(crate) enum Admission {
    // A thread serves the connection.
    Served,
    // The maximum number of sessions were open; the connection was closed.
    Crowded,
    // No memory, port or thread was available; the connection was closed.
    Starved,
    // The stream could not be set up; the connection was closed.
    SetupFailed,
}

/// The results of all connections, once no more are accepted.
#[derive(Clone, Copy, Debug, PartialEq, Eq)]
pub struct Accepted {
    /// The number of connections that a thread served. Saturates at `u64::MAX`.
    pub served: u64,
    /// The number of connections closed without a byte sent. Saturates at `u64::MAX`.
    pub turned_away: u64,
    /// Whether the listener failed.
    pub has_failed: bool,
    /// Whether a connection was closed because no memory, port or thread was available.
    pub has_starved: bool,
}

impl Accepted {
    // Returns the results before any connection.
    pub(crate) fn new() -> Accepted
        ensures { result ≡ record {
          served = 0;
          turned_away = 0;
          has_failed = false;
          has_starved = false;
        } }
    {
        Accepted {
            served: 0,
            turned_away: 0,
            has_failed: false,
            has_starved: false,
        }
    }

    // Adds the result of one more connection.
    pub(crate) fn count(&mut self, outcome: Admission)
        ensures counted { self.old.served + self.old.turned_away < u64.MAX
            → self.new.served + self.new.turned_away ≡ self.old.served + self.old.turned_away + 1 }
        ensures rises { self.old.served + self.old.turned_away ≤ self.new.served
            + self.new.turned_away }
        ensures starved { self.new.has_starved ≡ true → (self.old.has_starved ≡ true)
            ⊎ (outcome ≡ Admission.Starved) }
        ensures served { (before : ℕ) (now : ℕ) (later : ℕ) → IsServed before now self.old
            → Takes outcome now later → IsServed before later self.new }
        ensures added { IsAdded outcome self.old self.new }
        ensures failed { self.new.has_failed ≡ self.old.has_failed }
    {
        match outcome {
            Admission::Served => self.served = self.served.saturating_add(1),
            Admission::Crowded | Admission::SetupFailed => {
                self.turned_away = self.turned_away.saturating_add(1);
            }
            Admission::Starved => {
                self.turned_away = self.turned_away.saturating_add(1);
                self.has_starved = true;
            }
        }
    }

    // Returns whether the number of connections has reached the limit; a limit of 0 means no
    // limit.
    pub(crate) fn has_reached(&self, limit: u64) -> bool
        ensures { IsTrue result ↔ (0 < limit) × (limit ≤ self.now.served + self.now.turned_away) }
    {
        limit > 0 && limit <= self.served.saturating_add(self.turned_away)
    }
}
