//! Stretches of samples of one kind that fire nothing, taken all at once.

ghost use Rattle.std.specs.Prelude.{◌≡◌, ℕ, ◌+◌, ◌*◌, ◌<◌, ◌≤◌, length, take, drop, slice_index_or, IfSome};
ghost use Rattle.lane_sampler.specs.Scans.{IsRightScan};
ghost use Rattle.limiter_core.specs.State.{limits_of, AreOfKind, quiet_count};
ghost use Rattle.relay_core.specs.declared.sampling.FiringCounts.{FiringCounts};
ghost use Rattle.relay_core.specs.Sampling.{imports, pairs};
ghost use Rattle.relay_core.specs.Taking.{Takes, AreAtMost};

use crate::relay::RelayCore;
use crate::sampling::FiringCounts;
use cosem_names::Which;
use lane_sampler::{Scan, classify, run_from};
use limiter_core::{Kind, Limiter};

// Returns a scan of the values at this threshold: `scan` if it has this threshold, else a new one.
pub(crate) fn scan_at(scan: Option<Scan>, values: &[u32], threshold: u32) -> Scan
    requires within_max { length values.now ≤ 256 }
    requires right { IfSome scan (IsRightScan values.now) }
    ensures right { IsRightScan values.now result }
    ensures threshold { result.threshold ≡ threshold }
{
    match scan {
        Some(scan) if scan.threshold == threshold => scan,
        _ => Scan {
            threshold,
            masks: classify(values, threshold),
        },
    }
}

// Returns the number of consecutive values from index `at` that equal the threshold.
fn equal_run(values: &[u32], threshold: u32, at: usize) -> usize
    requires { at ≤ length values.now }
    ensures within { at + result ≤ length values.now }
    ensures equal { (k : ℕ) → k < result → slice_index_or values.now (at + k) 0 ≡ threshold }
    ensures equal_at_start { at < length values.now → slice_index_or values.now at 0 ≡ threshold
        → 0 < result }
{
    let mut end = at;
    'values: while end < values.len() && values[end] == threshold {
        end += 1;
    }
    end - at
}

// Returns the kind of the value at index `at`, and the number of consecutive values of that kind
// from there.
fn run_at(values: &[u32], scan: &Scan, at: usize) -> (Kind, usize)
    requires within_max { length values.now ≤ 256 }
    requires within { at < length values.now }
    requires right { IsRightScan values.now scan.now }
    ensures kind { (n : ℕ) → n ≤ result.1
        → AreOfKind result.0 scan.now.threshold (take n (drop at values.now)) }
    ensures non_zero { 0 < result.1 }
    ensures within { at + result.1 ≤ length values.now }
{
    let masks = &scan.masks;
    let over = run_from(&masks.over, masks.len, at as u16);
    if over > 0 {
        return (Kind::Over, usize::from(over));
    }
    let under = run_from(&masks.under, masks.len, at as u16);
    if under > 0 {
        return (Kind::Under, usize::from(under));
    }
    (Kind::Equal, equal_run(values, scan.threshold, at))
}

// Returns how many of the next `count` samples of a kind fire nothing.
fn quiet_of(limiter: &Limiter, kind: Kind, count: usize) -> usize
    ensures quiet { result ≤ quiet_count kind limiter.now }
    ensures within { result ≤ count }
{
    let quiet = limiter.before_fire(kind).min(count as u64);
    quiet as usize
}

impl RelayCore {
    // Takes import samples of one kind that fire nothing.
    fn skip_values(&mut self, kind: Kind, values: &[u32])
        requires non_empty { 0 < length values.now }
        requires quiet { length values.now ≤ quiet_count kind self.old.import }
        requires kind { AreOfKind kind (limits_of self.old.import).threshold values.now }
        ensures { (firings : FiringCounts)
            → Takes self.old self.new firings firings (imports values.now) }
    {
        let last = values[values.len() - 1];
        self.import.skip_run(kind, values.len() as u64, last);
    }

    // Takes pairs that fire nothing, with all import samples of one kind and all export samples of
    // one kind.
    fn skip_pairs(&mut self, kind: Kind, values: &[u32], other_kind: Kind, others: &[u32])
        requires non_empty { 0 < length values.now }
        requires same_length { length others.now ≡ length values.now }
        requires quiet { length values.now ≤ quiet_count kind self.old.import }
        requires other_quiet { length values.now ≤ quiet_count other_kind self.old.export }
        requires kind { AreOfKind kind (limits_of self.old.import).threshold values.now }
        requires other_kind { AreOfKind other_kind (limits_of self.old.export).threshold
            others.now }
        ensures { (firings : FiringCounts)
            → Takes self.old self.new firings firings (pairs values.now others.now) }
    {
        let count = values.len();
        self.import.skip_run(kind, count as u64, values[count - 1]);
        self.export
            .skip_run(other_kind, count as u64, others[count - 1]);
    }

    // Takes the consecutive import samples from index `at` that are of one kind and fire nothing,
    // or only the next one if it fires. Returns how many it took.
    pub(crate) fn take_stretch(
        &mut self,
        values: &[u32],
        scan: &Scan,
        at: usize,
        firings: &mut FiringCounts,
    ) -> usize
        requires within_max { length values.now ≤ 256 }
        requires within { at < length values.now }
        requires right { IsRightScan values.now scan.now }
        requires active { scan.now.threshold ≡ (limits_of self.old.import).threshold }
        requires counted { AreAtMost at firings.old }
        ensures takes { Takes self.old self.new firings.old firings.new
            (imports (take result (drop at values.now))) }
        ensures non_zero { 0 < result }
        ensures within { at + result ≤ length values.now }
        ensures counted { AreAtMost (at + result) firings.new }
    {
        let (kind, length) = run_at(values, scan, at);
        let quiet = quiet_of(&self.import, kind, length);
        if quiet > 0 {
            self.skip_values(kind, &values[at..at + quiet]);
            return quiet;
        }
        let fire = self.take_sample(Which::Import, values[at]);
        firings.count(Which::Import, fire);
        1
    }

    // Takes the consecutive pairs from index `at` that are of one kind for each limiter and fire
    // nothing, or only the next pair if one of its samples fires. Returns how many it took.
    pub(crate) fn take_stretch_of_pairs(
        &mut self,
        values: &[u32],
        others: &[u32],
        scan: &Scan,
        other_scan: &Scan,
        at: usize,
        firings: &mut FiringCounts,
    ) -> usize
        requires within_max { length values.now ≤ 256 }
        requires same_length { length others.now ≡ length values.now }
        requires within { at < length values.now }
        requires right { IsRightScan values.now scan.now }
        requires other_right { IsRightScan others.now other_scan.now }
        requires active { scan.now.threshold ≡ (limits_of self.old.import).threshold }
        requires other_active { other_scan.now.threshold ≡ (limits_of self.old.export).threshold }
        requires counted { AreAtMost (2 * at) firings.old }
        ensures takes { Takes self.old self.new firings.old firings.new
            (pairs (take result (drop at values.now)) (take result (drop at others.now))) }
        ensures non_zero { 0 < result }
        ensures within { at + result ≤ length values.now }
        ensures counted { AreAtMost (2 * (at + result)) firings.new }
    {
        let (kind, length) = run_at(values, scan, at);
        let (other_kind, other_length) = run_at(others, other_scan, at);
        let length = length.min(other_length);
        let quiet = quiet_of(&self.import, kind, length);
        let quiet = quiet_of(&self.export, other_kind, quiet);
        if quiet > 0 {
            let end = at + quiet;
            self.skip_pairs(kind, &values[at..end], other_kind, &others[at..end]);
            return quiet;
        }
        let fire = self.take_sample(Which::Import, values[at]);
        firings.count(Which::Import, fire);
        let fire = self.take_sample(Which::Export, others[at]);
        firings.count(Which::Export, fire);
        1
    }
}
