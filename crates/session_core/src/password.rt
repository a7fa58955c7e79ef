//! The management client's password, 1 to 32 bytes.
ghost use Rattle.std.specs.Prelude.{◌≡◌, IfOk};
ghost use Rattle.acse_ber.specs.Password.{IsPassword};

use cosem_axdr::Octets;
use std::alloc::{AllocError, Global};
use std::marker::Model;

// The password of the management client: 1 to 32 bytes. Contracts see these bytes.
#[derive(Drop)]
pub(crate) struct Password {
    octets: Octets,
}

impl Model for Password {
    ghost use Rattle.std.specs.Prelude.{List, ℕ};
    ghost use Rattle.acse_ber.specs.Password.{IsPassword};

    ghost Value = { List ℕ };

    ghost view = { λ password. password.octets };

    ghost invariant = { λ password. IsPassword password.octets };
}

impl Password {
    // Copies a password. Fails if out of memory.
    pub(crate) fn new(alloc: Global, octets: &Octets) -> Result<Password, AllocError>
        requires { IsPassword octets.now }
        ensures { IfOk result (λ password. password ≡ octets.now) }
    {
        Ok(Password {
            octets: octets.try_clone(alloc)?,
        })
    }

    // Returns its bytes.
    pub(crate) fn octets(&self) -> &Octets
        ensures octets { result.now ≡ self.now }
        ensures password { IsPassword result.now }
    {
        &self.octets
    }
}
