//! A setting of a limiter that a write changes without allocating (IEC 62056-6-2, class 71), and
//! its application.
ghost use Rattle.std.specs.Prelude.{◌≡◌};
ghost use Rattle.limiter_attributes.specs.Settings.{with_setting};

use limiter_core::{Actions, Limiter, Profile};

/// The new value of one attribute, for the attributes whose write does not allocate.
#[derive(Clone, Copy, Debug)]
pub enum Setting {
    /// `threshold_normal` (attribute 4), in watts.
    ThresholdNormal(u32),
    /// `threshold_emergency` (attribute 5), in watts.
    ThresholdEmergency(u32),
    /// `min_over_threshold_duration` (attribute 6), in seconds.
    MinOverThresholdDuration(u32),
    /// `min_under_threshold_duration` (attribute 7), in seconds.
    MinUnderThresholdDuration(u32),
    /// `emergency_profile` (attribute 8): when the emergency threshold applies.
    Profile(Profile),
    /// `actions` (attribute 11): the scripts that run over and under the threshold.
    Actions(Actions),
}

impl Setting {
    /// Sets it in a limiter. The other settings, the clock, the last sample and the runs do not
    /// change.
    pub fn apply(self, limiter: &mut Limiter)
        ensures { limiter.new
            ≡ record limiter.old { settings = with_setting self limiter.old.settings } }
    {
        match self {
            Setting::ThresholdNormal(watts) => limiter.set_threshold_normal(watts),
            Setting::ThresholdEmergency(watts) => limiter.set_threshold_emergency(watts),
            Setting::MinOverThresholdDuration(seconds) => limiter.set_min_over_threshold_duration(
                seconds,
            ),
            Setting::MinUnderThresholdDuration(seconds) => limiter.set_min_under_threshold_duration(
                seconds,
            ),
            Setting::Profile(profile) => limiter.set_profile(profile),
            Setting::Actions(actions) => limiter.set_actions(actions),
        }
    }
}
