//! Reads the state of the meter.
ghost use Rattle.std.specs.Prelude.{◌≡◌, false};
ghost use Rattle.meter.specs.Exports.{OnOpen, MeterControlState, MeterControlMode, MeterSupply, MeterLastMoment, last_moment_outcome, moment_of};

use crate::handle::MeterHandle;
use crate::outcome::CallResult;
use std::alloc::Global;

/// Reads the control state (class 70, attribute 3). Results: `NotOpen`, and `state` is 0; `Done`.
#[unsafe(no_mangle)]
pub extern "C" fn meter_control_state(alloc: Global, meter: &mut MeterHandle, state: &mut u8) -> u32
    ensures { OnOpen (state.new ≡ 0) (MeterControlState state.new) meter.old.slot.held result
        meter.new.slot.held }
{
    *state = 0;
    let Some(held) = meter.take(alloc) else {
        return CallResult::NotOpen.code();
    };
    *state = u8::from(held.state());
    meter.put(held);
    CallResult::Done.code()
}

/// Reads the control mode (class 70, attribute 4), 0 to 6. Results: `NotOpen`, and `mode` is 0;
/// `Done`.
#[unsafe(no_mangle)]
pub extern "C" fn meter_control_mode(alloc: Global, meter: &mut MeterHandle, mode: &mut u8) -> u32
    ensures { OnOpen (mode.new ≡ 0) (MeterControlMode mode.new) meter.old.slot.held result
        meter.new.slot.held }
{
    *mode = 0;
    let Some(held) = meter.take(alloc) else {
        return CallResult::NotOpen.code();
    };
    *mode = u8::from(held.mode());
    meter.put(held);
    CallResult::Done.code()
}

/// Reads whether the supply is on (class 70, attribute 2). Results: `NotOpen`, and `is_on` is
/// false; `Done`.
#[unsafe(no_mangle)]
pub extern "C" fn meter_supply(alloc: Global, meter: &mut MeterHandle, is_on: &mut bool) -> u32
    ensures { OnOpen (is_on.new ≡ false) (MeterSupply is_on.new) meter.old.slot.held result
        meter.new.slot.held }
{
    *is_on = false;
    let Some(held) = meter.take(alloc) else {
        return CallResult::NotOpen.code();
    };
    *is_on = held.output();
    meter.put(held);
    CallResult::Done.code()
}

/// Reads the last moment of the clock, in seconds since 2000-01-01 00:00:00. Results: `NotOpen`,
/// `NoMoment` if there was none, `Done`. `moment` is 0 unless the result is `Done`.
#[unsafe(no_mangle)]
pub extern "C" fn meter_last_moment(alloc: Global, meter: &mut MeterHandle, moment: &mut u32) -> u32
    ensures { OnOpen (moment.new ≡ 0) (MeterLastMoment moment.new) meter.old.slot.held result
        meter.new.slot.held }
{
    *moment = 0;
    let Some(held) = meter.take(alloc) else {
        return CallResult::NotOpen.code();
    };
    let last = held.last_moment();
    meter.put(held);
    *moment = moment_or_zero(last);
    moment_outcome(last).code()
}

// Returns the last moment, or 0 if there was none.
fn moment_or_zero(last: Option<u32>) -> u32
    ensures { result ≡ moment_of last }
{
    match last {
        Some(moment) => moment,
        None => 0,
    }
}

// Returns the outcome of reading the last moment: done, or that there was none.
fn moment_outcome(last: Option<u32>) -> CallResult
    ensures { result ≡ last_moment_outcome last }
{
    match last {
        Some(_) => CallResult::Done,
        None => CallResult::NoMoment,
    }
}
