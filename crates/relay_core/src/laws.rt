//! Theorems about the core: limiters depend on runs alone, replies fit their events, and a script's
//! steps act like client requests.
ghost use Rattle.std.specs.Prelude.{◌≡◌};
ghost use Rattle.relay_events.specs.declared.event.Event.{Event};
ghost use Rattle.cosem_axdr.specs.declared.value.Data.{Data};
ghost use Rattle.relay_core.specs.Agreeing.{Agree, IsWorld, IsValue, GoAlike};
ghost use Rattle.relay_core.specs.Machine.{at_event};
ghost use Rattle.relay_events.specs.Kinds.{Fits};
ghost use Rattle.relay_core.specs.Requests.{at_request};
ghost use Rattle.relay_core.specs.Scripts.{at_step};
ghost use Rattle.relay_core.specs.World.{World};
ghost use Rattle.relay_core.specs.declared.scripts.Origin.TheVariants.{Remote};
ghost use Rattle.script_steps.specs.Table.{IsStep};
ghost use Rattle.script_steps.specs.declared.step.Step.{Step};

/// Proves that worlds which agree give equal replies to every event, and end in worlds which agree.
/// So a limiter's behaviour depends on nothing in its samples except its runs and whether they have
/// fired.
pub fn worlds_agree()
    ensures { (event : Event) (v w : World) → IsWorld v → Agree v w
        → GoAlike (at_event event v) (at_event event w) }
{}

/// Proves that a setting decoded from a value has durations of 32 bits if the value's numbers are
/// in the ranges of their types.
pub fn values_are_in_range()
    ensures { (value : Data) → IsValue value }
{}

/// Proves that in every world the reply to an event is of the event's kind.
pub fn replies_fit()
    ensures { (event : Event) (w : World) → Fits event (at_event event w).reply }
{}

/// Proves that a step of a script that a client or a schedule runs has the effect of the management
/// client's request that names the same: the SET of that attribute with that value, or the ACTION
/// of that method (IEC 62056-6-2, class 9).
pub fn steps_are_requests()
    ensures { (step : Step) (w : World) → IsStep step → at_step Remote step w ≡ at_request step w }
{}
