//! The worker: it passes the events of a source to the meter.
ghost use Rattle.std.specs.Prelude.{◌≡◌, [], ◌∷◌, ◌++◌, IfErr, OnOk, OnErr};
ghost use Rattle.shared_meter.specs.Calls.{IsSure};
ghost use Rattle.turn_lock.specs.Calls.{IsCause};
ghost use Rattle.turn_lock.specs.Shown.{IsSame};
ghost use Rattle.shared_meter.specs.Handed.{Passes, PassesAll, StopsFor, own_events};
ghost use Rattle.shared_meter.specs.Sources.{Includes};

use crate::kept::Kept;
use crate::sources::EventSource;
use relay_events::{Event, Reply};
use std::alloc::Global;
use std::sync::Wait;
use turn_lock::{CallFault, Port};

// Passes an event to the meter and returns the reply. If the call is refused, no event was passed
// on.
#[tactic(auto, using(crate::proofs::HandedLemmas::handed_more, crate::proofs::HandedLemmas::handed_same))]
fn ask<W: Wait>(
    rt: &W,
    alloc: Global,
    port: &mut Port<Kept>,
    event: Event,
) -> Result<Reply, CallFault>
    ensures same { IsSame port.old port.new }
    ensures ok { OnOk result (own_events port.new ≡ own_events port.old ++ event ∷ []) }
    ensures err { OnErr result (own_events port.new ≡ own_events port.old) }
    ensures cause { IfErr result
        (λ fault. IsCause IsSure event port.new.bound port.new.known fault) }
{
    port.call(rt, alloc, event)
}

// Passes an event of a source to the meter, and the reply to the source. If the meter is out of
// memory for the event, the event is left out.
fn pass<S: EventSource, W: Wait>(
    rt: &W,
    alloc: Global,
    port: &mut Port<Kept>,
    source: &mut S,
    event: Event,
) -> Result<(), CallFault>
    ensures same { IsSame port.old port.new }
    ensures source { Includes (S.can_follow source.old) (S.can_follow source.new) }
    ensures ok { OnOk result (Passes event (own_events port.old) (own_events port.new)) }
    ensures err { IfErr result (StopsFor port.new) }
{
    match ask(rt, alloc, port, event) {
        Ok(reply) => {
            source.receive(&reply);
            Ok(())
        }
        Err(CallFault::Memory) => Ok(()),
        Err(CallFault::Exhausted) => Err(CallFault::Exhausted),
        Err(CallFault::Journal) => Err(CallFault::Journal),
    }
}

/// Passes each event that the source returns to the meter, until the source ends or a call is
/// refused because all turns were drawn. Returns the port.
///
/// After `Ok` all events of the source were passed on, in order, each once, except those that it
/// continued without. The only error is `Exhausted`.
#[tactic(auto, using(crate::proofs::PassingLemmas::passing_first, crate::proofs::PassingLemmas::passing_on, crate::proofs::PassingLemmas::passing_end))]
pub fn run_source<S: EventSource, W: Wait>(
    rt: &W,
    alloc: Global,
    mut source: S,
    mut port: Port<Kept>,
) -> (Port<Kept>, Result<(), CallFault>)
    ensures same { IsSame port result.0 }
    ensures passes_all { OnOk result.1 (PassesAll (S.can_follow source) port result.0) }
    ensures err { IfErr result.1 (StopsFor result.0) }
{
    'passing: for _ in rt.forever() {
        let Some(event) = source.next_event(alloc) else {
            return (port, Ok(()));
        };
        if let Err(fault) = pass(rt, alloc, &mut port, &mut source, event) {
            return (port, Err(fault));
        }
    }
    unreachable!()
}
