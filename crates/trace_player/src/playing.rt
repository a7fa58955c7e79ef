//! Applies the events of a trace to a core, each as soon as its line is read, and collects the
//! lines of the replies.
ghost use Rattle.std.specs.Prelude.{◌≡◌, ◌++◌, ◌∷◌, [], IfErr, IfOk, OnOk};
ghost use Rattle.wire_bytes.specs.Outcome.{Fails};
ghost use Rattle.relay_core.specs.Machine.{at_event};
ghost use Rattle.relay_core.specs.Runs.{line_at};
ghost use Rattle.relay_core.specs.Stands.{StandsFor};
ghost use Rattle.relay_core.specs.World.{World};
ghost use Rattle.trace_lines.specs.Events.{event_of};
ghost use Rattle.trace_words.specs.Places.{line_as};
ghost use Rattle.trace_lines.specs.Replies.{line_text};
ghost use Rattle.trace_words.specs.declared.fault.TraceFault.TheVariants as trace_fault;
ghost use Rattle.trace_player.specs.Playing.{PlaysEvent, PlaysEvents};
ghost use Rattle.trace_player.specs.Traces.{events_at};

use relay_core::{RelayCore, step_to_line};
use relay_events::{Event, Line};
use std::alloc::{AllocError, Global};
use text_lines::end_line;
use trace_lines::{next_held_event, write_line};
use trace_words::{HeldLines, TraceFault, Version};

// Appends the line of a reply, with the byte 0A that ends it.
fn add_line(alloc: Global, out: &mut Vec<u8>, number: u64, line: &Line) -> Result<(), AllocError>
    ensures { OnOk result (out.new.items ≡ out.old.items ++ line_text number line.now ++ 10 ∷ []) }
{
    write_line(alloc, out, number, line)?;
    end_line(out)
}

// Applies an event to a meter, and appends the line of the reply.
fn play_event(
    alloc: Global,
    number: u64,
    event: &Event,
    core: &mut RelayCore,
    out: &mut Vec<u8>,
) -> Result<(), AllocError>
    ensures world { OnOk result ((w : World) → StandsFor core.old w
        → StandsFor core.new (at_event event.now w).world) }
    ensures line { OnOk result ((w : World) → StandsFor core.old w
        → out.new.items ≡ out.old.items ++ line_text number (line_at event.now w) ++ 10 ∷ []) }
{
    let line = step_to_line(alloc, core, event)?;
    add_line(alloc, out, number, &line)
}

// Reads the event of the next line, applies it to a meter, and appends the line of the reply.
fn play_next(
    alloc: Global,
    version: Version,
    number: u64,
    lines: &mut HeldLines,
    core: &mut RelayCore,
    out: &mut Vec<u8>,
) -> Result<(), TraceFault>
    ensures ok { OnOk result
        (PlaysEvent version number lines.old lines.new core.old core.new out.old.items
        out.new.items) }
    ensures err { IfErr result
        (λ fault. Fails trace_fault.Memory fault (line_as (event_of version) lines.old)) }
{
    let event = next_held_event(alloc, version, lines)?;
    let played = play_event(alloc, number, &event, core, out);
    drop(event);
    Ok(played?)
}

// Reads the next `count` events, applies each to a meter as soon as it is read, and returns the
// lines of the replies, the first with number 1. An event is dropped before the next is read.
pub(crate) fn play_events(
    alloc: Global,
    version: Version,
    count: u64,
    lines: &mut HeldLines,
    core: &mut RelayCore,
) -> Result<Vec<u8>, TraceFault>
    ensures ok { IfOk result
        (λ out. PlaysEvents version count lines.old lines.new core.old out.items) }
    ensures err { IfErr result
        (λ fault. Fails trace_fault.Memory fault (events_at version count lines.old)) }
{
    let mut out = Vec::new(alloc);
    'events: for i in 0..count {
        play_next(alloc, version, i + 1, lines, core, &mut out)?;
    }
    Ok(out)
}
