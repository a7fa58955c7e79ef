//! Samples and moments of a meter that continues from a trace, and the trace that it exports
//! itself.
use crate::meters::{resume_meter, standing};
use embedded_meter::{Fired, MeterFault, SupplyMeter, Tick, TraceFault};
use std::alloc::{AllocError, Global};
use std::test::Fail;

/// A switch that was disconnected and reconnected remotely, in mode 1.
static RESTORED: &[u8] = b"RELAYTRACE 1
device 52454C415931
state 1
mode 0
value 0
now -
normal 4294967295
emergency 4294967295
minover 0
minunder 0
profile 0 FFFFFFFFFFFFFFFFFF8000FF 0
groups
actions 0 0
over 0 0
under 0 0
scripts 0100
schedule 0 0 5 0100
schedule 1 0 5 0100
schedule 2 0 5 0100
schedule 3 0 5 0100
events 5
set 1 70 000060030AFF 4 0 1601
execute 1 70 000060030AFF 1 0F00
button
execute 1 70 000060030AFF 2 -
button
";

/// The end of the trace of a meter that continued from there with two samples and two moments.
static OWN_EVENTS: &[u8] = b"
events 3
samples 10 20
moment 5
moment 4
";

/// A meter in mode 5 whose export limiter executed script 1, which disconnects the supply, after
/// ten samples over 5,000 watts; then the button restored the supply.
static EXPORTING: &[u8] = b"RELAYTRACE 2
device 52454C415931
state 1
mode 5
value 0
now -
normal 4294967295
emergency 4294967295
minover 0
minunder 0
profile 0 FFFFFFFFFFFFFFFFFF8000FF 0
groups
actions 0 0
over 0 0
under 0 0
xvalue 0
xnormal 5000
xemergency 4294967295
xminover 1
xminunder 0
xprofile 0 FFFFFFFFFFFFFFFFFF8000FF 0
xgroups
xactions 1 0
xover 0 0
xunder 0 0
scripts 010102021200010101020516021200460906000060030AFF0F010F00
schedule 0 0 5 0100
schedule 1 0 5 0100
schedule 2 0 5 0100
schedule 3 0 5 0100
events 2
pairs 0 5001 0 5001 0 5001 0 5001 0 5001 0 5001 0 5001 0 5001 0 5001 0 5001
button
";

// No limiter has fired, except that the import limiter has fired once under its threshold.
const UNDER: Fired = Fired {
    over: 0,
    under: 1,
    export_over: 0,
    export_under: 0,
};

/// Applies samples and moments, and returns whether the results are right.
fn takes(alloc: Global, meter: &mut SupplyMeter) -> bool {
    let is_resumed = standing(meter) == (1, 1, true) && meter.last_moment() == None;
    let fired = meter.sample(alloc, &[10, 20]);
    let ran = meter.tick(alloc, 5);
    let stale = meter.tick(alloc, 4);
    let are_moments = ran == Tick::Ran(0) && stale == Tick::Stale(5);
    let is_last = meter.last_moment() == Some(5);
    let too_many = meter.sample(alloc, &[0; 257]);
    let are_samples = fired == Ok(UNDER) && too_many == Err(MeterFault::TooManySamples);
    is_resumed && are_moments && is_last && are_samples
}

/// Returns whether a meter that continues from a trace has the state and the last moment of the
/// other.
fn resumes(alloc: Global, trace: &[u8]) -> bool {
    match resume_meter(alloc, trace) {
        Ok(other) => {
            let is_so = standing(&other) == (1, 1, true) && other.last_moment() == Some(5);
            drop(other);
            is_so
        }
        Err(_) => false,
    }
}

/// Returns whether the meter's trace ends with those samples and moments, and another meter
/// continues from it.
fn is_told(alloc: Global, meter: &SupplyMeter) -> Result<bool, AllocError> {
    let text = meter.export(alloc)?;
    let is_so = text.as_slice().ends_with(OWN_EVENTS) && resumes(alloc, text.as_slice());
    drop(text);
    Ok(is_so)
}

#[test]
fn a_meter_goes_on_from_its_trace(rt: HostRuntime) -> Result<(), Fail> {
    let mut meter = resume_meter(rt.alloc(), RESTORED)?;
    let takes = takes(rt.alloc(), &mut meter);
    let is_told = is_told(rt.alloc(), &meter);
    drop(meter);
    assert!(rt; takes && is_told?);
    Ok(())
}

/// Applies a pair whose exported power is over its threshold, and pairs of unequal numbers. Returns
/// whether the results are right.
fn takes_pairs(alloc: Global, meter: &mut SupplyMeter) -> bool {
    let fired = meter.sample_pairs(alloc, &[0], &[5001]);
    let is_fired = fired == Ok(UNDER) && standing(meter) == (1, 5, true);
    is_fired && meter.sample_pairs(alloc, &[0], &[]) == Err(MeterFault::Uneven)
}

/// Returns the fault of a text, or `None` if it is a trace.
fn fault_of(alloc: Global, text: &[u8]) -> Option<TraceFault> {
    match resume_meter(alloc, text) {
        Ok(meter) => {
            drop(meter);
            None
        }
        Err(fault) => Some(fault),
    }
}

#[test]
fn pairs_reach_both_limiters_and_a_wrong_text_is_told(rt: HostRuntime) -> Result<(), Fail> {
    let mut meter = resume_meter(rt.alloc(), EXPORTING)?;
    let takes_pairs = takes_pairs(rt.alloc(), &mut meter);
    drop(meter);
    let fault = fault_of(rt.alloc(), b"RELAYTRACE 3\n");
    assert!(rt; takes_pairs && fault == Some(TraceFault::Line(1)));
    Ok(())
}
