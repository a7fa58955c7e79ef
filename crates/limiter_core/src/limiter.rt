//! A limiter (IEC 62056-6-2, class 71): its attributes, and the runs of samples past its threshold
//! that fire its actions.
ghost use Rattle.std.specs.Prelude.{◌≡◌, ℕ, ◌+◌, ◌-◌, ◌<◌, ◌≤◌, ◌^◌, nat_lt, if◌then◌else◌, List, [], ◌∷◌, length, Some, None, OnOk, OnErr, IfOk, IsSome, IfSome, ◌↔◌};
ghost use Rattle.limiter_core.specs.declared.kinds.Fire.TheVariants.{Quiet};
ghost use Rattle.limiter_core.specs.Counting.{no_run};
ghost use Rattle.limiter_core.specs.Opening.{opened_rows};
ghost use Rattle.limiter_core.specs.Rows.{Row, Entry, fire_of};
ghost use Rattle.limiter_core.specs.Settings.{is_active, active_threshold, row_of, kind_of, new_settings};
ghost use Rattle.limiter_core.specs.State.{limits_of, CountsRows, rows_after, IsQuiet, AreOfKind, fire_on, quiet_count, state_after_run, IsLimiter, IsFit};

use crate::count::{Count, are_fit};
use crate::kinds::{Fire, Kind};
use crate::settings::{Actions, MAX_GROUPS, Profile, Settings, samples_of};
use std::alloc::{AllocError, Global};
use std::marker::Model;
use std::mem;
use wire_bytes::Listed;

/// A limiter (IEC 62056-6-2, class 71): its settings, the last moment of the clock, the last
/// sample, and for each side of the threshold a run and whether that has fired.
#[derive(Debug, Drop)]
pub struct Limiter {
    settings: Settings,
    // Seconds since 1 January 2000, or `None` before the first moment.
    moment: Option<u32>,
    last: u32,
    over: Count,
    under: Count,
}

impl Model for Limiter {
    ghost use Rattle.limiter_core.specs.State.{State, IsLimiter};

    ghost Value = { State };

    ghost view = { λ l. record {
      settings = l.settings;
      moment = l.moment;
      last = l.last;
      over = l.over;
      under = l.under;
    } };

    ghost invariant = { λ l.
        IsLimiter (record {
          settings = l.settings;
          moment = l.moment;
          last = l.last;
          over = l.over;
          under = l.under;
        }) };
}

impl Limiter {
    /// Returns a new limiter without samples. Does not allocate.
    #[tactic(auto, using(crate::proofs::Firing::count_of_none))]
    pub fn new(alloc: Global) -> Limiter
        ensures state { result
            ≡ record {
              settings = new_settings;
              moment = None;
              last = 0;
              over = no_run;
              under = no_run;
            } }
        ensures rows { CountsRows result [] }
    {
        Limiter::from_parts(Settings::new(alloc), None)
    }

    /// Returns a limiter with these settings at this moment of the clock (seconds since 1 January
    /// 2000), without samples. Does not allocate.
    pub fn from_parts(settings: Settings, moment: Option<u32>) -> Limiter
        requires { length settings.groups ≤ MAX_GROUPS }
        ensures { result ≡ record {
          settings = settings;
          moment = moment;
          last = 0;
          over = no_run;
          under = no_run;
        } }
    {
        Limiter {
            settings,
            moment,
            last: 0,
            over: Count::zero(),
            under: Count::zero(),
        }
    }

    /// Takes a sample, in watts, and returns the action that it fires, if any.
    #[tactic(auto, using(crate::proofs::Firing::fire_counted, crate::proofs::Firing::counted))]
    pub fn sample(&mut self, value: u32) -> Fire
        ensures rows { (rows : List Row) → CountsRows self.old rows
            → CountsRows self.new (row_of (limits_of self.old) value ∷ rows) }
        ensures fire { (rows : List Row) → CountsRows self.old rows
            → result ≡ fire_of (row_of (limits_of self.old) value ∷ rows) }
        ensures settings { self.new.settings ≡ self.old.settings }
        ensures moment { self.new.moment ≡ self.old.moment }
        ensures last { self.new.last ≡ value }
    {
        let threshold = self.settings.active_threshold(self.moment);
        let need_over = samples_of(self.settings.min_over_threshold_duration);
        let need_under = samples_of(self.settings.min_under_threshold_duration);
        self.last = value;
        let over = self.over.take(value > threshold, need_over);
        let under = self.under.take(value < threshold, need_under);
        if over {
            Fire::Over
        } else if under {
            Fire::Under
        } else {
            Fire::Quiet
        }
    }

    /// Ends both runs, because the switch has entered Connected from another state.
    #[tactic(auto, using(crate::proofs::Firing::count_of_entry))]
    pub fn closed(&mut self)
        ensures rows { (rows : List Row) → CountsRows self.old rows
            → CountsRows self.new (Entry ∷ rows) }
        ensures settings { self.new.settings ≡ self.old.settings }
        ensures moment { self.new.moment ≡ self.old.moment }
        ensures last { self.new.last ≡ self.old.last }
    {
        let ended = Count::zero();
        self.over = ended;
        self.under = ended;
    }

    // Returns the number of further samples of a kind that do not fire, or `u64::MAX` if none
    // would ever fire.
    fn quiet_samples(&self, kind: Kind) -> u64
        ensures count { result ≡ quiet_count kind self.now }
        ensures limiter { IsLimiter self.now }
    {
        let settings = &self.settings;
        match kind {
            Kind::Over => self
                .over
                .quiet_before(samples_of(settings.min_over_threshold_duration)),
            Kind::Under => self
                .under
                .quiet_before(samples_of(settings.min_under_threshold_duration)),
            Kind::Equal => u64::MAX,
        }
    }

    /// Returns the number of further samples of a kind that do not fire: the greatest such number,
    /// or `u64::MAX` if none would ever fire.
    #[tactic(auto, using(crate::proofs::Skipping::quiet_up_to, crate::proofs::Skipping::quiet_for_ever, crate::proofs::Skipping::fires_next))]
    pub fn before_fire(&self, kind: Kind) -> u64
        ensures count { result ≡ quiet_count kind self.now }
        ensures quiet { (rows : List Row) (values : List ℕ) → CountsRows self.now rows
            → AreOfKind kind (limits_of self.now).threshold values
            → length values ≤ result → IsQuiet (limits_of self.now) values rows }
        ensures next { (rows : List Row) (values : List ℕ) (value : ℕ) → CountsRows self.now rows
            → AreOfKind kind (limits_of self.now).threshold values
            → kind_of (limits_of self.now).threshold value ≡ kind
            → length values ≡ result → result < 2 ^ 64 - 1
            → fire_of (row_of (limits_of self.now) value
            ∷ rows_after (limits_of self.now) values rows) ≡ fire_on kind }
        ensures never { (rows : List Row) (values : List ℕ) → CountsRows self.now rows
            → AreOfKind kind (limits_of self.now).threshold values
            → result ≡ 2 ^ 64 - 1 → IsQuiet (limits_of self.now) values rows }
    {
        self.quiet_samples(kind)
    }

    // Counts `n` samples of a kind that do not fire; `last` is the last of them.
    #[tactic(auto, using(crate::proofs::Skipping::skip_fits))]
    fn jump(&mut self, kind: Kind, n: u64, last: u32)
        requires non_zero { 0 < n }
        requires quiet { n ≤ quiet_count kind self.old }
        requires last { kind_of (limits_of self.old).threshold last ≡ kind }
        ensures state { self.new ≡ state_after_run kind n last self.old }
        ensures limiter { IsLimiter self.old }
    {
        self.last = last;
        match kind {
            Kind::Over => {
                self.over.skip(n);
                self.under = Count::zero();
            }
            Kind::Under => {
                self.under.skip(n);
                self.over = Count::zero();
            }
            Kind::Equal => {
                self.over = Count::zero();
                self.under = Count::zero();
            }
        }
    }

    /// Takes `n` samples of a kind that do not fire, with the same result as `n` calls of `sample`.
    /// `last` is the last of them, in watts; if `n` is 0 it is ignored.
    #[tactic(auto, using(crate::proofs::Skipping::quiet_up_to))]
    pub fn skip_run(&mut self, kind: Kind, n: u64, last: u32)
        requires quiet { n ≤ quiet_count kind self.old }
        requires last { 0 < n → kind_of (limits_of self.old).threshold last ≡ kind }
        ensures rows { (rows : List Row) (values : List ℕ) → CountsRows self.old rows
            → AreOfKind kind (limits_of self.old).threshold values
            → length values ≡ n
            → CountsRows self.new (rows_after (limits_of self.old) values rows) }
        ensures quiet { (rows : List Row) (values : List ℕ) → CountsRows self.old rows
            → AreOfKind kind (limits_of self.old).threshold values
            → length values ≡ n → IsQuiet (limits_of self.old) values rows }
        ensures settings { self.new.settings ≡ self.old.settings }
        ensures moment { self.new.moment ≡ self.old.moment }
        ensures last { self.new.last ≡ (if nat_lt 0 n then last else self.old.last) }
    {
        if n > 0 {
            self.jump(kind, n, last);
        }
    }

    /// Sets the last moment of the clock, in seconds since 1 January 2000.
    pub fn at(&mut self, moment: u32)
        ensures { self.new ≡ record self.old { moment = Some moment } }
    {
        self.moment = Some(moment);
    }

    /// Returns the last moment of the clock, in seconds since 1 January 2000, or `None` before the
    /// first.
    pub fn moment(&self) -> Option<u32>
        ensures { result ≡ self.now.moment }
    {
        self.moment
    }

    /// Returns the settings: the attributes that clients write.
    pub fn settings(&self) -> &Settings
        ensures settings { result.now ≡ self.now.settings }
        ensures within_max { length result.now.groups ≤ MAX_GROUPS }
    {
        &self.settings
    }

    /// Returns `threshold_active` (attribute 3), in watts.
    pub fn threshold(&self) -> u32
        ensures { result ≡ active_threshold self.now.settings self.now.moment }
    {
        self.settings.active_threshold(self.moment)
    }

    /// Returns `emergency_profile_active` (attribute 10): whether the emergency profile is active
    /// at the last moment of the clock.
    pub fn emergency_active(&self) -> bool
        ensures { result ≡ is_active self.now.settings self.now.moment }
    {
        self.settings.is_active(self.moment)
    }

    /// Returns the last sample, in watts, or 0 before the first.
    pub fn value(&self) -> u32
        ensures { result ≡ self.now.last }
    {
        self.last
    }

    /// Returns `threshold_normal` (attribute 4), in watts.
    pub fn threshold_normal(&self) -> u32
        ensures { result ≡ self.now.settings.threshold_normal }
    {
        self.settings.threshold_normal
    }

    /// Sets `threshold_normal` (attribute 4), in watts. The runs do not change.
    pub fn set_threshold_normal(&mut self, threshold: u32)
        ensures { self.new ≡ record self.old
            { settings = record self.old.settings { threshold_normal = threshold } } }
    {
        self.settings.threshold_normal = threshold;
    }

    /// Returns `threshold_emergency` (attribute 5), in watts.
    pub fn threshold_emergency(&self) -> u32
        ensures { result ≡ self.now.settings.threshold_emergency }
    {
        self.settings.threshold_emergency
    }

    /// Sets `threshold_emergency` (attribute 5), in watts. The runs do not change.
    pub fn set_threshold_emergency(&mut self, threshold: u32)
        ensures { self.new ≡ record self.old
            { settings = record self.old.settings { threshold_emergency = threshold } } }
    {
        self.settings.threshold_emergency = threshold;
    }

    /// Returns `min_over_threshold_duration` (attribute 6), in seconds.
    pub fn min_over_threshold_duration(&self) -> u32
        ensures { result ≡ self.now.settings.min_over_threshold_duration }
    {
        self.settings.min_over_threshold_duration
    }

    /// Sets `min_over_threshold_duration` (attribute 6), in seconds. The runs do not change.
    pub fn set_min_over_threshold_duration(&mut self, seconds: u32)
        ensures { self.new ≡ record self.old
            { settings = record self.old.settings { min_over_threshold_duration = seconds } } }
    {
        self.settings.min_over_threshold_duration = seconds;
    }

    /// Returns `min_under_threshold_duration` (attribute 7), in seconds.
    pub fn min_under_threshold_duration(&self) -> u32
        ensures { result ≡ self.now.settings.min_under_threshold_duration }
    {
        self.settings.min_under_threshold_duration
    }

    /// Sets `min_under_threshold_duration` (attribute 7), in seconds. The runs do not change.
    pub fn set_min_under_threshold_duration(&mut self, seconds: u32)
        ensures { self.new ≡ record self.old
            { settings = record self.old.settings { min_under_threshold_duration = seconds } } }
    {
        self.settings.min_under_threshold_duration = seconds;
    }

    /// Returns `emergency_profile` (attribute 8).
    pub fn profile(&self) -> Profile
        ensures { result ≡ self.now.settings.profile }
    {
        self.settings.profile
    }

    /// Sets `emergency_profile` (attribute 8). The runs do not change.
    pub fn set_profile(&mut self, profile: Profile)
        ensures { self.new ≡ record self.old
            { settings = record self.old.settings { profile = profile } } }
    {
        self.settings.profile = profile;
    }

    /// Returns `actions` (attribute 11).
    pub fn actions(&self) -> Actions
        ensures { result ≡ self.now.settings.actions }
    {
        self.settings.actions
    }

    /// Sets `actions` (attribute 11). The runs do not change.
    pub fn set_actions(&mut self, actions: Actions)
        ensures { self.new ≡ record self.old
            { settings = record self.old.settings { actions = actions } } }
    {
        self.settings.actions = actions;
    }

    /// Returns `emergency_profile_group_id_list` (attribute 9), at most `MAX_GROUPS` ids.
    pub fn groups(&self) -> &[u16]
        ensures ids { result.now ≡ self.now.settings.groups }
        ensures within_max { length result.now ≤ MAX_GROUPS }
    {
        self.settings.groups.as_slice()
    }

    /// Sets `emergency_profile_group_id_list` (attribute 9) to a copy of `ids`. If out of memory,
    /// nothing changes.
    pub fn set_groups(&mut self, alloc: Global, ids: &[u16]) -> Result<(), AllocError>
        requires { length ids.now ≤ MAX_GROUPS }
        ensures ok { OnOk result (self.new
            ≡ record self.old { settings = record self.old.settings { groups = ids.now } }) }
        ensures err { OnErr result (self.new ≡ self.old) }
    {
        let ids = Vec::from_slice(alloc, ids)?;
        self.settings.groups = Listed::from_vec(ids);
        Ok(())
    }

    /// Swaps the `emergency_profile_group_id_list` (attribute 9) of two limiters. Does not
    /// allocate.
    pub fn swap_groups(&mut self, other: &mut Limiter)
        ensures self_after { self.new
            ≡ record self.old {
              settings = record self.old.settings
                  { groups = other.old.settings.groups };
            } }
        ensures other_after { other.new
            ≡ record other.old {
              settings = record other.old.settings
                  { groups = self.old.settings.groups };
            } }
    {
        mem::swap(&mut self.settings.groups, &mut other.settings.groups);
    }

    /// Returns an equal limiter with a copy of the group ids, or an error if out of memory.
    pub fn try_clone(&self, alloc: Global) -> Result<Limiter, AllocError>
        ensures { IfOk result (λ limiter. limiter ≡ self.now) }
    {
        Ok(Limiter {
            settings: self.settings.try_clone(alloc)?,
            moment: self.moment,
            last: self.last,
            over: self.over,
            under: self.under,
        })
    }

    /// Returns the run of samples over the threshold.
    pub fn over_run(&self) -> Count
        ensures count { result ≡ self.now.over }
        ensures limiter { IsLimiter self.now }
    {
        self.over
    }

    /// Returns the run of samples under the threshold.
    pub fn under_run(&self) -> Count
        ensures count { result ≡ self.now.under }
        ensures limiter { IsLimiter self.now }
    {
        self.under
    }

    /// Returns a limiter with this one's settings and moment and with a saved last sample and saved
    /// runs, or `None` if no samples give these runs.
    pub fn with_runs(self, last: u32, over: Count, under: Count) -> Option<Limiter>
        ensures fit { IsSome result ↔ IsFit last over under }
        ensures state { IfSome result (λ limiter. limiter
            ≡ record self { last = last; over = over; under = under }) }
        ensures rows { IfSome result (λ limiter. CountsRows limiter (opened_rows last over under)) }
    {
        if !are_fit(last, over, under) {
            return None;
        }
        Some(Limiter {
            last,
            over,
            under,
            ..self
        })
    }
}
