//! Proofs that the numbers of every opening are in the ranges of their types. These functions only
//! look at an opening, and do not allocate.
ghost use Rattle.std.specs.Prelude.{◌≡◌, ◌≤◌, IfSome, IsTrue};
ghost use Rattle.std.specs.List.{All};
ghost use Rattle.hex.specs.Hex.{IsBytes};
ghost use Rattle.cosem_datetime.specs.Fields.{IsDateTimeFields};
ghost use Rattle.relay_core.specs.Opening.{IsFitOpening};
ghost use Rattle.trace_openings.specs.OpeningTraced.{AreIds, IsTracedLimiter, IsTracedSchedule, IsTracedScript, IsTracedStep, IsWritable};

use action_schedule::ActionSchedule;
use limiter_core::Profile;
use relay_core::{LimiterOpening, Opening, Schedules};
use script_steps::{Script, Step};

/// Proves that the numbers of an opening are in the ranges of their types: if a core can start
/// from the opening, it is read back from its lines.
pub fn opening_is_writable(opening: &Opening)
    ensures { IsFitOpening opening.now → IsWritable opening.now }
{
    are_bytes(opening.device.as_slice());
    moment_is_traced(opening.moment);
    limiter_is_traced(&opening.import);
    limiter_is_traced(&opening.export);
    scripts_are_traced(opening.scripts.scripts());
    let Schedules {
        first,
        second,
        third,
        fourth,
    } = &opening.schedules;
    schedule_is_traced(first);
    schedule_is_traced(second);
    schedule_is_traced(third);
    schedule_is_traced(fourth);
}

// Proves, by a read, that a borrowed number is in the range of its type.
fn look_at<T: Drop>(_number: T) {}

// Proves that bytes are numbers below 256.
fn are_bytes(_bytes: &[u8])
    ensures { IsBytes _bytes.now }
{}

// Proves that group ids are numbers of 16 bits.
#[tactic(auto, using(crate::proofs::RangeLemmas::ids_in_range))]
fn are_ids(_ids: &[u16])
    ensures { AreIds _ids.now }
{}

// Proves that a moment, if there is one, is a number of 32 bits.
fn moment_is_traced(moment: Option<u32>)
    ensures { IfSome moment (λ moment. moment ≤ 4294967295) }
{
    match moment {
        Some(moment) => look_at(moment),
        None => {}
    }
}

// Proves that the numbers of an emergency profile are in the ranges of their types.
fn profile_is_traced(profile: &Profile)
    ensures id { profile.now.id ≤ 65535 }
    ensures start { IsDateTimeFields profile.now.start }
    ensures duration { profile.now.duration ≤ 4294967295 }
{
    look_at(profile.id);
    look_at(profile.start.bytes());
    look_at(profile.duration);
}

// Proves that the numbers of a saved limiter are in the ranges of their types.
fn limiter_is_traced(limiter: &LimiterOpening)
    ensures { IsTracedLimiter limiter.now }
{
    let settings = &limiter.settings;
    look_at(limiter.value);
    look_at(settings.threshold_normal);
    look_at(settings.threshold_emergency);
    look_at(settings.min_over_threshold_duration);
    look_at(settings.min_under_threshold_duration);
    profile_is_traced(&settings.profile);
    are_ids(settings.groups.as_slice());
    look_at(settings.actions.over);
    look_at(settings.actions.under);
}

// Proves that the numbers of a step are in the ranges of their types.
fn step_is_traced(step: &Step)
    ensures { IsTracedStep step.now }
{
    match step {
        Step::WriteNormal(_, watts) | Step::WriteEmergency(_, watts) => look_at(*watts),
        Step::WriteProfile(_, profile) => profile_is_traced(profile),
        Step::WriteMode(_)
        | Step::WriteMinOver(_, _)
        | Step::WriteMinUnder(_, _)
        | Step::Disconnect
        | Step::Reconnect => {}
    }
}

// Proves that the numbers of steps are in the ranges of their types.
fn steps_are_traced(steps: &[Step])
    ensures { All IsTracedStep steps.now }
{
    'steps: for step in steps {
        step_is_traced(step);
    }
}

// Proves that the numbers of a script are in the ranges of their types.
fn script_is_traced(script: &Script)
    ensures { IsTracedScript script.now }
{
    look_at(script.identifier);
    steps_are_traced(script.steps.as_slice());
}

// Proves that the numbers of scripts are in the ranges of their types.
fn scripts_are_traced(scripts: &[Script])
    ensures { All IsTracedScript scripts.now }
{
    'scripts: for script in scripts {
        script_is_traced(script);
    }
}

// Proves that the numbers of a schedule are in the ranges of their types.
fn schedule_is_traced(schedule: &ActionSchedule)
    ensures { IsTracedSchedule schedule.now }
{
    look_at(schedule.selector());
    let _entries = schedule.entries();
}
