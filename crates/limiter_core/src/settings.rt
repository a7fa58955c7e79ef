//! The attributes of a limiter that clients write (IEC 62056-6-2, class 71), the active threshold,
//! and the number of samples of a duration.
ghost use Rattle.std.specs.Prelude.{◌≡◌, ◌≤◌, ◌<◌, ◌^◌, [], length, IfOk};
ghost use Rattle.limiter_core.specs.Settings.{is_active, active_threshold, is_within, need_of, new_settings};

use cosem_datetime::{DateTimeField, moment_of};
use std::alloc::{AllocError, Global};
use wire_bytes::Listed;

/// The maximum number of group ids that a limiter holds.
pub const MAX_GROUPS: usize = 32;

// The number of samples in a second.
const SAMPLES_PER_SECOND: u64 = 10;

/// `emergency_profile` (attribute 8): the group of meters that it is for, its first moment, and its
/// length in seconds.
#[derive(Clone, Copy, Debug)]
pub struct Profile {
    /// `emergency_profile_id`: the group of meters.
    pub id: u16,
    /// `emergency_activation_time`: the first moment.
    pub start: DateTimeField,
    /// `emergency_duration`, in seconds.
    pub duration: u32,
}

/// `actions` (attribute 11): the scripts that a limiter runs, each by its selector in the script
/// table.
#[derive(Clone, Copy, Debug, PartialEq, Eq)]
pub struct Actions {
    /// The selector of `action_over_threshold`.
    pub over: u16,
    /// The selector of `action_under_threshold`.
    pub under: u16,
}

/// The settings of a limiter: its attributes that clients write.
#[derive(Debug, Drop)]
pub struct Settings {
    /// `threshold_normal` (attribute 4), in watts.
    pub threshold_normal: u32,
    /// `threshold_emergency` (attribute 5), in watts.
    pub threshold_emergency: u32,
    /// `min_over_threshold_duration` (attribute 6), in seconds.
    pub min_over_threshold_duration: u32,
    /// `min_under_threshold_duration` (attribute 7), in seconds.
    pub min_under_threshold_duration: u32,
    /// `emergency_profile` (attribute 8): when the emergency threshold applies.
    pub profile: Profile,
    /// `emergency_profile_group_id_list` (attribute 9): the groups whose emergency profiles apply
    /// to the meter.
    pub groups: Listed<u16>,
    /// `actions` (attribute 11): the scripts that run over and under the threshold.
    pub actions: Actions,
}

// Returns whether a moment is from `start` to `start + duration`, the end excluded. Returns false
// before the first moment of the clock, and if `start` names no second.
fn is_in_time(moment: Option<u32>, start: Option<u32>, duration: u32) -> bool
    ensures { result ≡ is_within moment start duration }
{
    match (moment, start) {
        (Some(now), Some(start)) => {
            start <= now && u64::from(now) < u64::from(start) + u64::from(duration)
        }
        _ => false,
    }
}

// Returns the number of samples that a duration in seconds needs: ten a second, and at least one.
pub(crate) fn samples_of(duration: u32) -> u64
    ensures { result ≡ need_of duration }
{
    (SAMPLES_PER_SECOND * u64::from(duration)).max(1)
}

impl Settings {
    /// Returns the settings of a new limiter: both thresholds 4,294,967,295 W, everything else
    /// zero, empty or unspecified.
    pub fn new(alloc: Global) -> Settings
        ensures { result ≡ new_settings }
    {
        Settings {
            threshold_normal: u32::MAX,
            threshold_emergency: u32::MAX,
            min_over_threshold_duration: 0,
            min_under_threshold_duration: 0,
            profile: Profile {
                id: 0,
                start: DateTimeField::unspecified(),
                duration: 0,
            },
            groups: Listed::new(alloc),
            actions: Actions { over: 0, under: 0 },
        }
    }

    /// Returns equal settings with a copy of the group ids, or an error if out of memory.
    pub fn try_clone(&self, alloc: Global) -> Result<Settings, AllocError>
        ensures { IfOk result (λ settings. settings ≡ self.now) }
    {
        let groups = Vec::from_slice(alloc, self.groups.as_slice())?;
        Ok(Settings {
            threshold_normal: self.threshold_normal,
            threshold_emergency: self.threshold_emergency,
            min_over_threshold_duration: self.min_over_threshold_duration,
            min_under_threshold_duration: self.min_under_threshold_duration,
            profile: self.profile,
            groups: Listed::from_vec(groups),
            actions: self.actions,
        })
    }

    // Returns whether the emergency profile is active at a moment of the clock, in seconds since 1
    // January 2000.
    #[tactic(auto, unfolding(crate::specs::Settings::is_active))]
    pub(crate) fn is_active(&self, moment: Option<u32>) -> bool
        ensures { result ≡ is_active self.now moment }
    {
        let among = self.groups.as_slice().contains(&self.profile.id);
        let start = moment_of(&self.profile.start);
        among && is_in_time(moment, start, self.profile.duration)
    }

    // Returns the threshold that is active at a moment of the clock, in watts.
    #[tactic(auto, unfolding(crate::specs::Settings::active_threshold))]
    pub(crate) fn active_threshold(&self, moment: Option<u32>) -> u32
        ensures { result ≡ active_threshold self.now moment }
    {
        if self.is_active(moment) {
            self.threshold_emergency
        } else {
            self.threshold_normal
        }
    }
}
