//! The right to send the command of one place.
ghost use Rattle.std.specs.Prelude.{◌≡◌};

use std::marker::Model;

/// The right to send the switching command of one place, once. Only [`crate::Ledger::begin`] makes
/// one, and it cannot be copied. Contracts see the place.
#[derive(Debug, Drop)]
pub struct Permit {
    place: u32,
}

impl Model for Permit {
    ghost use Rattle.std.specs.Prelude.{ℕ};

    ghost Value = { ℕ };

    ghost view = { λ permit. permit.place };
}

impl Permit {
    // Returns the permit for a place.
    pub(crate) fn new(place: u32) -> Permit
        ensures { result ≡ place }
    {
        Permit { place }
    }

    /// Returns the place whose command may be sent.
    pub fn place(&self) -> u32
        ensures { result ≡ self.now }
    {
        self.place
    }
}
