//! The sources of blocks of samples, moments and presses, and the source of events that each of
//! them is to a worker.
ghost use Rattle.std.specs.Prelude.{◌≡◌, ℕ, List, Option, None};
ghost use Rattle.lane_sampler.specs.Samples.{Samples};
ghost use Rattle.shared_meter.specs.Sources.{AllMoments, AllPresses, Gives, Includes, Offers, Presses};
ghost use Rattle.relay_events.specs.declared.event.Event.{Event};

use lane_sampler::Block;
use relay_events::{Event, Reply};
use std::alloc::Global;

/// A source of blocks of power samples.
pub trait BlockSource: Drop {
    /// The blocks that the source has yet to return, if it declares them.
    ghost forecast: { Self → Option (List Samples) } = { λ _. None };

    /// Waits for the next block and returns it. `None` is the end of the source.
    fn next_block(&mut self) -> Option<Block>
        ensures { Gives (forecast self.old) result (forecast self.new) };
}

/// A source of moments of the clock.
pub trait MomentSource: Drop {
    /// The moments that the source has yet to return, if it declares them.
    ghost forecast: { Self → Option (List ℕ) } = { λ _. None };

    /// Waits for the next moment and returns it, in seconds since 2000-01-01 00:00:00 of the
    /// meter's time. `None` is the end of the source.
    fn next_moment(&mut self) -> Option<u32>
        ensures { Gives (forecast self.old) result (forecast self.new) };

    /// Receives the meter's reply to the moment that was returned last. The default does nothing.
    fn receive(&mut self, _reply: &Reply)
        ensures { forecast self.new ≡ forecast self.old }
    {}
}

/// A source of presses of the meter's button.
pub trait ButtonSource: Drop {
    /// The number of presses that the source has yet to return, if it declares it.
    ghost forecast: { Self → Option ℕ } = { λ _. None };

    /// Waits for the next press, and returns whether there was one. `false` is the end of the
    /// source.
    fn pressed(&mut self) -> bool
        ensures { Presses (forecast self.old) result (forecast self.new) };
}

/// A source of events of the meter itself.
pub trait EventSource: Drop {
    /// Ghost predicate: these can be all the events that the meter accepts from the source from now
    /// on.
    ghost can_follow: { Self → List Event → Type 0 };

    /// Waits for the next event and returns it. `None` is the end of the source. If the meter is
    /// out of memory for an event that allocates, the source continues without it.
    fn next_event(&mut self, alloc: Global) -> Option<Event>
        ensures { Offers (can_follow self.old) result (can_follow self.new) };

    /// Receives the meter's reply to the event that was returned last.
    fn receive(&mut self, _reply: &Reply)
        ensures { Includes (can_follow self.old) (can_follow self.new) }
    {}
}

/// The moments of a clock, as events.
#[derive(Drop)]
pub struct MomentEvents<S> {
    pub source: S,
}

impl<S: MomentSource> EventSource for MomentEvents<S> {
    ghost can_follow = { λ moments. AllMoments (S.forecast moments.source) };

    #[tactic(auto, using(crate::proofs::SourceLemmas::moment_offered, crate::proofs::SourceLemmas::no_moment), unfolding(relay_core::specs::Machine::is_sure))]
    fn next_event(&mut self, _alloc: Global) -> Option<Event> {
        match self.source.next_moment() {
            Some(now) => Some(Event::Moment(now)),
            None => None,
        }
    }

    fn receive(&mut self, reply: &Reply) {
        self.source.receive(reply);
    }
}

/// The presses of a button, as events.
#[derive(Drop)]
pub struct PressEvents<S> {
    pub source: S,
}

impl<S: ButtonSource> EventSource for PressEvents<S> {
    ghost can_follow = { λ presses. AllPresses (S.forecast presses.source) };

    #[tactic(auto, using(crate::proofs::SourceLemmas::press_offered, crate::proofs::SourceLemmas::no_press), unfolding(relay_core::specs::Machine::is_sure))]
    fn next_event(&mut self, _alloc: Global) -> Option<Event> {
        if self.source.pressed() {
            Some(Event::Button)
        } else {
            None
        }
    }
}
