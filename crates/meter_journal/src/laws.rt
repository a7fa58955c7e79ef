//! Laws of what a relay is given. Each function is a law: its contract states it, and a call makes
//! it known to the prover.
ghost use Rattle.std.specs.Prelude.{◌≡◌, ◌++◌, List};
ghost use Rattle.relay_core.specs.World.{World};
ghost use Rattle.relay_events.specs.declared.event.Event.{Event};
ghost use Rattle.shared_meter.specs.Switching.{is_on, switches_in};
ghost use Rattle.meter_journal.specs.Relaying.{output_line, relay_text, switch_text};

/// Proves that the number of changes of the supply output determines what a relay is given, since
/// each change is to the other value: the output at the start, and the output after each change by
/// these events, in order.
#[tactic(auto, using(crate::proofs::SwitchLemmas::text_of_changes))]
pub fn relay_is_given_each_change()
    ensures { (w : World) (events : List Event) → relay_text w events
        ≡ output_line (is_on w) ++ switch_text (is_on w) (switches_in w events) }
{}
