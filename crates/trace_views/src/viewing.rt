//! `view_trace`: plays a trace and returns the text of a view.
ghost use Rattle.std.specs.Prelude.{◌≡◌, ◌++◌, IfOk, OnOk};
ghost use Rattle.relay_core.specs.Machine.{at_event};
ghost use Rattle.relay_core.specs.Opening.{IsFitOpening};
ghost use Rattle.relay_core.specs.Stands.{StandsFor};
ghost use Rattle.relay_core.specs.World.{World};
ghost use Rattle.trace_views.specs.Views.{head_text, shown_text, step_at, steps, steps_text};
ghost use Rattle.trace_views.specs.Views.{view_text};

use crate::lines::{add_head, add_step};
use crate::view::{Switch, TraceView};
use relay_core::{RelayCore, step_to_line};
use relay_events::Event;
use std::alloc::{AllocError, Global};
use trace_player::Trace;

// Applies an event to a meter, and appends its line if the view shows it.
fn view_event(
    alloc: Global,
    view: &TraceView,
    number: u64,
    event: &Event,
    core: &mut RelayCore,
    out: &mut Vec<u8>,
) -> Result<(), AllocError>
    ensures world { OnOk result ((w : World) → StandsFor core.old w
        → StandsFor core.new (at_event event.now w).world) }
    ensures text { OnOk result ((w : World) → StandsFor core.old w
        → out.new.items ≡ out.old.items ++ shown_text view.now (step_at number event.now w)) }
{
    let before = Switch {
        state: core.state(),
        output: core.output(),
    };
    let line = step_to_line(alloc, core, event)?;
    if view.is_shown(number, before, &line) {
        add_step(alloc, out, view, number, event, &line, core.last_moment())
    } else {
        Ok(())
    }
}

// Applies events to a meter, and returns the text of the view.
fn view_events(
    alloc: Global,
    view: &TraceView,
    core: &mut RelayCore,
    events: &[Event],
) -> Result<Vec<u8>, AllocError>
    ensures { IfOk result (λ out. (w : World) → StandsFor core.old w
        → out.items ≡ head_text view.now ++ steps_text view.now (steps 1 events.now w)) }
{
    let mut out = Vec::new(alloc);
    add_head(alloc, &mut out, view)?;
    let mut number = 0u64;
    'events: for event in events {
        number += 1;
        view_event(alloc, view, number, event, core, &mut out)?;
    }
    Ok(out)
}

/// Plays a trace on a meter in the state of its opening, and returns the text of a view.
/// Fails only if out of memory.
pub fn view_trace(alloc: Global, trace: &Trace, view: &TraceView) -> Result<Vec<u8>, AllocError>
    requires { IsFitOpening trace.now.opening }
    ensures { IfOk result (λ text. text.items ≡ view_text view.now trace.now) }
{
    let mut core = RelayCore::from_fit_opening(alloc, &trace.opening)?;
    let text = view_events(alloc, view, &mut core, trace.events.as_slice());
    drop(core);
    text
}
