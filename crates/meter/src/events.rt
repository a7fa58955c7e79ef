//! The events of the meter itself: presses, samples and moments.
ghost use Rattle.std.specs.Prelude.{◌≡◌};
ghost use Rattle.lane_sampler.specs.Samples.{values_alone, pairs_of};
ghost use Rattle.meter.specs.Exports.{OnOpen, MeterPress, MeterSamples, MeterMoment, no_fired, samples_outcome, firings_of_result, firings_of};
ghost use Rattle.meter.specs.Outcomes.{code_of, of_tick, run_count_of};

use crate::handle::MeterHandle;
use crate::outcome::CallResult;
use embedded_meter::{Fired, MeterFault, Tick};
use std::alloc::Global;

/// How many times each side of each limiter has fired: `struct meter_fired` of `meter.h`.
#[repr(C)]
#[derive(Clone, Copy, Debug, PartialEq, Eq)]
pub struct Firings {
    /// Over the threshold of the imported power.
    pub over: u16,
    /// Under the threshold of the imported power.
    pub under: u16,
    /// Over the threshold of the exported power; 0 if only imported power was passed.
    pub export_over: u16,
    /// Under the threshold of the exported power; 0 if only imported power was passed.
    pub export_under: u16,
}

/// Applies a press of the meter's button. `code` is its result. Results: `NotOpen`, and `code` is
/// 0; `Done`.
#[unsafe(no_mangle)]
pub extern "C" fn meter_press(alloc: Global, meter: &mut MeterHandle, code: &mut u8) -> u32
    ensures { OnOpen (code.new ≡ 0) (MeterPress code.new) meter.old.slot.held result
        meter.new.slot.held }
{
    *code = 0;
    let Some(mut held) = meter.take(alloc) else {
        return CallResult::NotOpen.code();
    };
    *code = held.press(alloc).code();
    meter.put(held);
    CallResult::Done.code()
}

/// Applies at most 256 samples of the imported power, in watts, ten a second. Results, in this
/// order: `NotOpen`; `WrongArgument` if there are more; `NoMemory`; `Done`. All of `fired` is 0
/// unless the result is `Done`.
#[unsafe(no_mangle)]
pub extern "C" fn meter_samples(
    alloc: Global,
    meter: &mut MeterHandle,
    watts: &[u32],
    fired: &mut Firings,
) -> u32
    ensures { OnOpen (fired.new ≡ firings_of no_fired)
        (MeterSamples (values_alone watts.now) fired.new) meter.old.slot.held result
        meter.new.slot.held }
{
    *fired = no_firings();
    let Some(mut held) = meter.take(alloc) else {
        return CallResult::NotOpen.code();
    };
    let sampled = held.sample(alloc, watts);
    meter.put(held);
    *fired = firings_of(sampled);
    sampled_outcome(sampled).code()
}

/// Applies at most 256 samples of the imported power and as many of the exported power, in watts,
/// ten of each a second. Results as of `meter_samples`; `WrongArgument` also if the numbers differ.
#[unsafe(no_mangle)]
pub extern "C" fn meter_sample_pairs(
    alloc: Global,
    meter: &mut MeterHandle,
    imported: &[u32],
    exported: &[u32],
    fired: &mut Firings,
) -> u32
    ensures { OnOpen (fired.new ≡ firings_of no_fired)
        (MeterSamples (pairs_of imported.now exported.now) fired.new) meter.old.slot.held result
        meter.new.slot.held }
{
    *fired = no_firings();
    let Some(mut held) = meter.take(alloc) else {
        return CallResult::NotOpen.code();
    };
    let sampled = held.sample_pairs(alloc, imported, exported);
    meter.put(held);
    *fired = firings_of(sampled);
    sampled_outcome(sampled).code()
}

/// Applies a moment of the meter's clock, in seconds since 2000-01-01 00:00:00. `ran` is the number
/// of schedules that were due; 0 unless the result is `Done`. Results: `NotOpen`; `Stale` if the
/// moment is earlier than the last one: the meter's state is unchanged, and the moment is kept as
/// an event; `Done`.
#[unsafe(no_mangle)]
pub extern "C" fn meter_moment(
    alloc: Global,
    meter: &mut MeterHandle,
    moment: u32,
    ran: &mut u8,
) -> u32
    ensures { OnOpen (ran.new ≡ 0) (MeterMoment moment ran.new) meter.old.slot.held result
        meter.new.slot.held }
{
    *ran = 0;
    let Some(mut held) = meter.take(alloc) else {
        return CallResult::NotOpen.code();
    };
    let tick = held.tick(alloc, moment);
    meter.put(held);
    *ran = ran_schedules(tick);
    tick_outcome(tick).code()
}

// Returns the firings after an error: all 0.
fn no_firings() -> Firings
    ensures { result ≡ firings_of no_fired }
{
    Firings {
        over: 0,
        under: 0,
        export_over: 0,
        export_under: 0,
    }
}

// Returns the firings of a block of samples as C sees them, all 0 after an error.
fn firings_of(sampled: Result<Fired, MeterFault>) -> Firings
    ensures { result ≡ firings_of (firings_of_result sampled) }
{
    match sampled {
        Ok(fired) => Firings {
            over: fired.over,
            under: fired.under,
            export_over: fired.export_over,
            export_under: fired.export_under,
        },
        Err(_) => no_firings(),
    }
}

// Returns the result for C of a block of samples.
fn sampled_outcome(sampled: Result<Fired, MeterFault>) -> CallResult
    ensures { result ≡ samples_outcome sampled }
{
    match sampled {
        Ok(_) => CallResult::Done,
        Err(fault) => CallResult::from_fault(fault),
    }
}

// Returns the result for C of a moment of the clock.
fn tick_outcome(tick: Tick) -> CallResult
    ensures { result ≡ of_tick tick }
{
    match tick {
        Tick::Ran(_) => CallResult::Done,
        Tick::Stale(_) => CallResult::Stale,
    }
}

// Returns the number of schedules that a moment ran, or 0 if it was stale.
fn ran_schedules(tick: Tick) -> u8
    ensures { result ≡ run_count_of tick }
{
    match tick {
        Tick::Ran(count) => count,
        Tick::Stale(_) => 0,
    }
}
