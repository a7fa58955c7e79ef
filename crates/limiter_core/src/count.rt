//! Counts the samples of a run.
ghost use Rattle.std.specs.Prelude.{◌≡◌, ◌↔◌, IsTrue};
ghost use Rattle.limiter_core.specs.Counting.{no_run, count_after, fires_at, quiet_before, count_after_run};
ghost use Rattle.limiter_core.specs.State.{IsFit, IsFitCount, is_fit_count, are_fit};

/// The longest run that is counted: 42,949,672,950 samples, the need of a duration of 4,294,967,295
/// seconds.
pub const RUN_LIMIT: u64 = 42_949_672_950;

/// The length of the present run of samples past the threshold on one side, and whether it has
/// fired.
#[derive(Clone, Copy, Debug, PartialEq, Eq)]
pub struct Count {
    /// The number of consecutive samples past the threshold, at most `RUN_LIMIT`.
    pub run: u64,
    /// Whether the run has fired.
    pub fired: bool,
}

impl Count {
    /// Returns the count of an empty run.
    pub const fn zero() -> Count
        ensures { result ≡ no_run }
    {
        Count {
            run: 0,
            fired: false,
        }
    }

    // Counts a sample and returns whether it fires. `past` says whether it is past the threshold,
    // `need` how many samples the run needs to fire.
    pub(crate) fn take(&mut self, past: bool, need: u64) -> bool
        ensures count { self.new ≡ count_after past need self.old }
        ensures fires { result ≡ fires_at past need self.old }
    {
        if !past {
            *self = Count::zero();
            return false;
        }
        self.run = self.run.saturating_add(1).min(RUN_LIMIT);
        let reached = need <= self.run;
        let fires = reached && !self.fired;
        self.fired = self.fired || reached;
        fires
    }

    // Returns the number of further samples past the threshold that do not fire, or `u64::MAX` if
    // the run has fired.
    pub(crate) fn quiet_before(&self, need: u64) -> u64
        ensures { result ≡ quiet_before need self.now }
    {
        if self.fired {
            return u64::MAX;
        }
        need.saturating_sub(1).saturating_sub(self.run)
    }

    // Counts `samples` samples past the threshold that do not fire.
    pub(crate) fn skip(&mut self, samples: u64)
        ensures { self.new ≡ count_after_run samples self.old }
    {
        self.run = self.run.saturating_add(samples).min(RUN_LIMIT);
    }

    // Returns whether samples can give this count: an empty run has not fired, and a run at the cap
    // has.
    fn is_fit(&self) -> bool
        ensures test { result ≡ is_fit_count self.now }
        ensures meaning { IsTrue result ↔ IsFitCount self.now }
    {
        match self.run {
            0 => !self.fired,
            RUN_LIMIT => self.fired,
            run => run < RUN_LIMIT,
        }
    }
}

/// Returns whether samples, of which the last is `last`, can give both counts. At most one run is
/// not empty, a run over the threshold needs `last` above 0, and one under it needs `last` below
/// `u32::MAX`.
#[tactic(auto, unfolding(crate::specs::State::are_fit))]
pub fn are_fit(last: u32, over: Count, under: Count) -> bool
    ensures test { result ≡ are_fit last over under }
    ensures meaning { IsTrue result ↔ IsFit last over under }
{
    if !over.is_fit() || !under.is_fit() {
        return false;
    }
    match (over.run, under.run) {
        (0, 0) => true,
        (_, 0) => last > 0,
        (0, _) => last < u32::MAX,
        _ => false,
    }
}
