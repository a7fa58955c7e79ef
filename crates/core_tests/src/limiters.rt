//! Runs of a limiter: 5000 W held for a second is ten samples. tests/core_rows.py and
//! tests/object_rows.py play emergencies, other durations, attributes and saved runs over the
//! proved executable.
use limiter_core::{Count, Fire, Kind, Limiter};
use std::alloc::Global;
use std::process::Abort;
use std::test::Fail;

/// Returns a limiter of 5000 W that fires after `seconds` over the threshold.
fn limiter(alloc: Global, seconds: u32) -> Limiter {
    let mut limiter = Limiter::new(alloc);
    limiter.set_threshold_normal(5000);
    limiter.set_min_over_threshold_duration(seconds);
    limiter
}

/// Takes `samples` samples and returns what the last fires, or `None` if one before it fires.
fn after_quiet(limiter: &mut Limiter, samples: u32, value: u32) -> Option<Fire> {
    for _ in 1..samples {
        if limiter.sample(value) != Fire::Quiet {
            return None;
        }
    }
    Some(limiter.sample(value))
}

/// Skips samples of a kind. Returns false if they may fire, or the last is not of that kind.
fn skip(limiter: &mut Limiter, kind: Kind, n: u64, last: u32) -> bool {
    let threshold = limiter.threshold();
    if n > limiter.before_fire(kind) {
        return false;
    }
    match kind {
        Kind::Over if last > threshold => limiter.skip_run(Kind::Over, n, last),
        Kind::Under if last < threshold => limiter.skip_run(Kind::Under, n, last),
        Kind::Equal if last == threshold => limiter.skip_run(Kind::Equal, n, last),
        _ => return false,
    }
    true
}

/// A step of a test of a limiter, with what it then shows.
enum Step {
    /// Takes a number of samples of a value; the last one fires this, those before it nothing.
    Samples(u32, u32, Fire),
    /// Skips a number of samples of a kind, the last of which has this value.
    Skip(Kind, u64, u32),
    /// The switch enters Connected.
    Closed,
    /// Sets min_under_threshold_duration, in seconds.
    MinUnder(u32),
    /// Expects that this number of further samples of a kind do not fire.
    BeforeFire(Kind, u64),
    /// Expects this value of the last sample.
    Value(u32),
}

/// Takes a step, and returns whether it did as expected.
fn take(limiter: &mut Limiter, step: &Step) -> bool {
    match step {
        Step::Samples(samples, value, last) => {
            after_quiet(limiter, *samples, *value) == Some(*last)
        }
        Step::Skip(kind, n, last) => skip(limiter, *kind, *n, *last),
        Step::Closed => {
            limiter.closed();
            true
        }
        Step::MinUnder(seconds) => {
            limiter.set_min_under_threshold_duration(*seconds);
            true
        }
        Step::BeforeFire(kind, samples) => limiter.before_fire(*kind) == *samples,
        Step::Value(value) => limiter.value() == *value,
    }
}

/// Takes these steps with a limiter that fires after `seconds` over the threshold, and checks each.
fn play(rt: &impl Abort, alloc: Global, seconds: u32, steps: &[Step]) {
    let mut limiter = limiter(alloc, seconds);
    for (place, step) in steps.iter().enumerate() {
        assert!(*rt; take(&mut limiter, step), "at step {place}");
    }
    drop(limiter);
}

/// A limiter that fires at the tenth sample over its threshold, and again after the switch has
/// closed; then once at the tenth sample under it. A sample that is equal to the threshold never
/// fires.
static TEN_SAMPLES: [Step; 14] = [
    Step::BeforeFire(Kind::Over, 9),
    Step::Samples(9, 5001, Fire::Quiet),
    Step::Samples(1, 5001, Fire::Over),
    Step::Value(5001),
    Step::Closed,
    Step::Samples(9, 5001, Fire::Quiet),
    Step::Samples(1, 5001, Fire::Over),
    Step::BeforeFire(Kind::Equal, u64::MAX),
    Step::Samples(10, 5000, Fire::Quiet),
    Step::MinUnder(1),
    Step::Skip(Kind::Under, 9, 4999),
    Step::Value(4999),
    Step::Samples(1, 4999, Fire::Under),
    Step::Samples(10, 4999, Fire::Quiet),
];

#[test]
fn the_tenth_sample_over_the_threshold_fires(rt: HostRuntime) {
    play(&rt, rt.alloc(), 1, &TEN_SAMPLES);
}

/// A run that has fired and does not fire again before it ends.
static A_FIRED_RUN: [Step; 7] = [
    Step::Samples(1, 5001, Fire::Over),
    Step::BeforeFire(Kind::Over, u64::MAX),
    Step::Skip(Kind::Over, 42_949_672_950, 6000),
    Step::Value(6000),
    Step::Samples(1, 5001, Fire::Quiet),
    Step::Skip(Kind::Equal, 1, 5000),
    Step::Samples(1, 5001, Fire::Over),
];

#[test]
fn a_fired_run_of_any_length_is_skipped(rt: HostRuntime) {
    play(&rt, rt.alloc(), 0, &A_FIRED_RUN);
}

/// Returns whether a limiter begins with the settings of another, at this moment, without a sample.
fn begins(limiter: &Limiter) -> bool {
    limiter.threshold_normal() == 5000
        && limiter.min_over_threshold_duration() == 3
        && limiter.moment() == Some(86_400)
        && limiter.value() == 0
        && limiter.over_run() == Count::zero()
}

#[test]
fn a_limiter_begins_with_the_settings_of_another(rt: HostRuntime) -> Result<(), Fail> {
    let mut first = limiter(rt.alloc(), 3);
    let fire = first.sample(6000);
    let settings = first.settings().try_clone(rt.alloc());
    drop(first);
    let second = Limiter::from_parts(settings?, Some(86_400));
    let is_begun = begins(&second);
    drop(second);
    assert!(rt; fire == Fire::Quiet && is_begun);
    Ok(())
}
