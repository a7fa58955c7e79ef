//! The ring of the last events.
ghost use Rattle.std.specs.Prelude.{◌≡◌, [], ◌∷◌};
ghost use Rattle.relay_core.specs.Runs.{world_after};
ghost use Rattle.relay_core.specs.Stands.{StandsFor};
ghost use Rattle.relay_core.specs.World.{World};

use circular_buffer::HeapCircularBuffer;
use relay_core::{Parts, RelayCore};
use relay_events::Event;
use std::marker::Model;

// A kept event with the owned values that it writes. They were decoded when the event arrived, so
// that the opening core can take it later without allocating.
#[derive(Debug, Drop)]
pub(crate) struct RecordedEvent {
    pub(crate) event: Event,
    pub(crate) parts: Parts,
}

impl Model for RecordedEvent {
    ghost use Rattle.std.specs.Prelude.{◌≡◌};
    ghost use Rattle.relay_events.specs.contracts.event.Event as event_row;
    ghost use Rattle.relay_events.specs.declared.event.Event.{Event};
    ghost use Rattle.relay_core.specs.Moving.{parts_of};

    ghost Value = { Event };

    ghost coded = { event_row.the_row.coded };

    ghost view = { λ kept. kept.event };

    ghost invariant = { λ kept. kept.parts ≡ parts_of kept.event };
}

impl RecordedEvent {
    // Returns the event.
    pub(crate) fn event(&self) -> &Event
        ensures { result.now ≡ self.now }
    {
        &self.event
    }

    // Applies the event to a core. Does not allocate.
    pub(crate) fn advance(self, core: &mut RelayCore)
        ensures { (w : World) → StandsFor core.old w
            → StandsFor core.new (world_after (self ∷ []) w) }
    {
        let RecordedEvent { event, parts } = self;
        core.advance(&event, parts);
        drop(event);
    }
}

// The kept events, oldest first.
pub(crate) type Ring = HeapCircularBuffer<RecordedEvent>;
