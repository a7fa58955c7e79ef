//! The destination of the events of the console's lines.
ghost use Rattle.std.specs.Prelude.{List, Option, None};
ghost use Rattle.relay_events.specs.declared.event.Event.{Event};
ghost use Rattle.meter_console.specs.Queues.{Gains};

use relay_events::Event;

/// Takes events, one after the other.
pub trait EventSink {
    /// Ghost value: the events taken so far, if the sink lists them. The default claims nothing.
    ghost taken: { Self → Option (List Event) } = { λ _. None };

    /// Takes an event. Blocks until it can.
    fn take(&mut self, event: Event)
        ensures { Gains (taken self.old) event (taken self.new) };
}
