//! A meter that resumes from an earlier run.
ghost use Rattle.std.specs.Prelude.{◌≡◌, [], IfOk, OnOk};
ghost use Rattle.relay_recorder.specs.Recording.{IsCapacity};
ghost use Rattle.trace_player.specs.Resuming.{ContinuesRun, world_of};
ghost use Rattle.relay_core.specs.Agreeing.{AreInRange, IsWorld};
ghost use Rattle.relay_core.specs.Opening.{IsFitOpening, world_of_opening};
ghost use Rattle.relay_core.specs.Runs.{world_after};
ghost use Rattle.relay_core.specs.Stands.{StandsFor};
ghost use Rattle.relay_core.specs.World.{World};

use relay_core::{LimiterOpening, Opening, RelayCore};
use relay_events::Event;
use relay_recorder::{Recorder, Trace};
use std::alloc::{AllocError, Global};

/// Applies events to a core, one after the other, and drops the replies.
///
/// Fails only if out of memory; some of the events may then have been applied.
pub fn apply_events(alloc: Global, core: &mut RelayCore, events: &[Event]) -> Result<(), AllocError>
    ensures { OnOk result ((w : World) → StandsFor core.old w
        → StandsFor core.new (world_after events.now w)) }
{
    'events: for event in events {
        let reply = core.step(alloc, event)?;
        drop(reply);
    }
    Ok(())
}

/// Returns the recorder of a meter that resumes at the end of a trace's run. It has no events yet,
/// and keeps at most `capacity` events, 1 to 1,024.
///
/// Whatever event comes next, the reply is the one that the meter that wrote the trace would have
/// given. Fails only if out of memory.
#[tactic(auto, using(crate::proofs::Alike::goes_on))]
pub fn resume_recorder(alloc: Global, trace: &Trace, capacity: u16) -> Result<Recorder, AllocError>
    requires fit { IsFitOpening trace.now.opening }
    requires capacity { IsCapacity capacity }
    ensures empty { IfOk result (λ recorder. recorder.events ≡ []) }
    ensures capacity { IfOk result (λ recorder. recorder.capacity ≡ capacity) }
    ensures world { IfOk result (λ recorder. StandsFor recorder.core (world_of trace.now)) }
    ensures continues_run { ContinuesRun trace.now (world_of trace.now) }
{
    // (no effect: the contract needs this law)
    opening_has_range(&trace.opening);
    let mut core = RelayCore::from_fit_opening(alloc, &trace.opening)?;
    match apply_events(alloc, &mut core, trace.events.as_slice()) {
        Ok(()) => Recorder::from_core(alloc, core, capacity),
        Err(error) => {
            drop(core);
            Err(error)
        }
    }
}

// Proves that the durations of a limiter's saved state are numbers of 32 bits.
fn limiter_has_range(opening: &LimiterOpening)
    ensures { AreInRange opening.now.settings }
{
    let _over = opening.settings.min_over_threshold_duration;
    let _under = opening.settings.min_under_threshold_duration;
}

// Proves that the durations of a core's saved state are numbers of 32 bits, including those in the
// steps of its scripts.
#[tactic(auto, using(crate::proofs::ScriptRanges::scripts_in_range))]
fn opening_has_range(opening: &Opening)
    ensures { IsWorld (world_of_opening opening.now) }
{
    limiter_has_range(&opening.import);
    limiter_has_range(&opening.export);
    let _scripts = opening.scripts.scripts();
}
