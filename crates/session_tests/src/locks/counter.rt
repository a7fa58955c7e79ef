//! Values for the tests of locks.
ghost use Rattle.std.specs.Prelude.{◌≡◌, ◌≢◌, ℕ, ◌+◌, ◌%◌, ◌^◌, IfOk, IfErr, IsTrue};
ghost use Rattle.turn_lock.specs.Trials.{next_count, Counts, count_after};

use std::alloc::{AllocError, Global};
use turn_lock::{Inspected, Turned};

/// The one event of a counter.
#[derive(Clone, Copy)]
pub(super) struct Bump;

/// A counter of its turns, which replies with the count.
#[derive(Drop)]
pub(super) struct Counter {
    pub(super) count: u64,
}

impl Counter {
    pub(super) fn new() -> Counter
        ensures { result.count ≡ 0 }
    {
        Counter { count: 0 }
    }
}

impl Turned for Counter {
    type Event = Bump;

    type Reply = u64;

    type Origin = ();

    ghost origin = { λ _. tt };

    ghost legal = { λ _ h. Counts 0 h };

    ghost stands = { λ c h. Counts 0 h × (c.count ≡ count_after 0 h) };

    ghost sure = { λ _. Unit {0} };

    fn turn(&mut self, _alloc: Global, _event: Bump) -> Result<u64, AllocError> {
        self.count = self.count.wrapping_add(1);
        Ok(self.count)
    }

    ghost is_legal = { λ _ _ s. s.0 };
}

/// An event of the refusing counter.
#[derive(Clone, Copy)]
pub(super) enum Wish {
    Bump,
    Refuse,
}

/// A counter that returns `AllocError` for the event `Refuse`.
#[derive(Drop)]
pub(super) struct RefusingCounter {
    pub(super) count: u64,
}

impl RefusingCounter {
    pub(super) fn new() -> RefusingCounter
        ensures { result.count ≡ 0 }
    {
        RefusingCounter { count: 0 }
    }
}

impl Turned for RefusingCounter {
    ghost use Rattle.session_tests.specs.declared.locks.counter.Wish.TheVariants.{Bump};

    type Event = Wish;

    type Reply = u64;

    type Origin = ();

    ghost origin = { λ _. tt };

    ghost legal = { λ _ h. Counts 0 h };

    ghost stands = { λ c h. Counts 0 h × (c.count ≡ count_after 0 h) };

    ghost sure = { λ e. e ≡ Bump };

    fn turn(&mut self, _alloc: Global, event: Wish) -> Result<u64, AllocError> {
        match event {
            Wish::Bump => {
                self.count = self.count.wrapping_add(1);
                Ok(self.count)
            }
            Wish::Refuse => Err(AllocError),
        }
    }

    ghost is_legal = { λ _ _ s. s.0 };
}

impl Inspected for RefusingCounter {
    /// Is this the count?
    type Question = u64;

    type Finding = bool;

    ghost finds = { λ _ h question finding. IsTrue finding → question ≡ count_after 0 h };

    fn inspect(&mut self, _alloc: Global, question: u64) -> bool {
        question == self.count
    }
}
