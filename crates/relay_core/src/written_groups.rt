//! `WrittenGroups`: the group ids that a SET stores.
ghost use Rattle.std.specs.Prelude.{◌≡◌, IfOk};

use limiter_core::Limiter;
use std::alloc::{AllocError, Global};
use std::marker::Model;

/// The group ids that a SET stores (IEC 62056-6-2, class 71, attribute 9), in an otherwise new
/// limiter. The limiter has memory of its own, because few events write group ids, and all kept
/// events take the space of the largest. Contracts see the limiter.
#[derive(Debug, Drop)]
pub struct WrittenGroups {
    limiter: Box<Limiter>,
}

impl Model for WrittenGroups {
    ghost use Rattle.limiter_core.specs.State.{State};
    ghost use Rattle.limiter_core.specs.contracts.limiter.Limiter as limiter_row;

    ghost Value = { State };

    ghost coded = { limiter_row.the_row.coded };

    ghost view = { λ groups. groups.limiter.value };
}

impl WrittenGroups {
    // Moves a limiter into memory of its own. Fails if out of memory.
    pub(crate) fn new(alloc: Global, limiter: Limiter) -> Result<WrittenGroups, AllocError>
        ensures { IfOk result (λ groups. groups ≡ limiter) }
    {
        let limiter = Box::new(alloc, limiter)?;
        Ok(WrittenGroups { limiter })
    }

    // Swaps the group ids with those of a limiter. Does not allocate.
    pub(crate) fn swap_with(&mut self, limiter: &mut Limiter)
        ensures { limiter.new
            ≡ record limiter.old {
              settings = record limiter.old.settings
                  { groups = self.old.settings.groups };
            } }
    {
        self.limiter.swap_groups(limiter);
    }
}
