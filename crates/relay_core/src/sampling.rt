//! Blocks of power samples: both limiters take them in order, and each firing runs its script (IEC
//! 62056-6-2, class 71).
ghost use Rattle.std.specs.Prelude.{◌≡◌, ℕ, ◌+◌, ◌≤◌, length, IfSome};
ghost use Rattle.lane_sampler.specs.Scans.{IsRightScan};
ghost use Rattle.relay_events.specs.Kinds.{IsOfSamples};
ghost use Rattle.relay_core.specs.Sampling.{no_firings, with_firing, fire_at, after_fire, after_sample, imports, pairs, at_samples};
ghost use Rattle.relay_core.specs.Stands.{StandsFor};
ghost use Rattle.relay_core.specs.Taking.{Takes, AreAtMost};
ghost use Rattle.relay_core.specs.World.{World};

use crate::relay::RelayCore;
use crate::scripts::Origin;
use crate::stretches::scan_at;
use cosem_names::Which;
use lane_sampler::{Block, Scan};
use limiter_core::{Actions, Fire};
use relay_events::Reply;

// The number of times that each side of each limiter has fired in a block.
#[derive(Clone, Copy, Debug)]
pub(crate) struct FiringCounts {
    pub(crate) import_over: u16,
    pub(crate) import_under: u16,
    pub(crate) export_over: u16,
    pub(crate) export_under: u16,
}

impl FiringCounts {
    // Returns the counts before the first sample of a block: all 0.
    fn zero() -> FiringCounts
        ensures firings { result ≡ no_firings }
        ensures none { AreAtMost 0 result }
    {
        FiringCounts {
            import_over: 0,
            import_under: 0,
            export_over: 0,
            export_under: 0,
        }
    }

    // Counts the firing of one more sample, if it fired.
    #[tactic(auto, unfolding(crate::specs::Sampling::with_firing))]
    pub(crate) fn count(&mut self, which: Which, fire: Fire)
        requires { AreAtMost 512 self.old }
        ensures firings { self.new ≡ with_firing which fire self.old }
        ensures within_one { (n : ℕ) → AreAtMost n self.old → AreAtMost (n + 1) self.new }
    {
        match (which, fire) {
            (_, Fire::Quiet) => {}
            (Which::Import, Fire::Over) => self.import_over += 1,
            (Which::Import, Fire::Under) => self.import_under += 1,
            (Which::Export, Fire::Over) => self.export_over += 1,
            (Which::Export, Fire::Under) => self.export_under += 1,
        }
    }
}

impl RelayCore {
    // Runs the script of a side that has fired, with the meter itself as its origin.
    #[tactic(auto, unfolding(crate::specs::Sampling::after_fire))]
    fn react(&mut self, fire: Fire, actions: Actions)
        ensures { (w : World) → StandsFor self.old w
            → StandsFor self.new (after_fire fire actions w) }
    {
        match fire {
            Fire::Quiet => {}
            Fire::Over => {
                let _code = self.run_script(Origin::Local, actions.over);
            }
            Fire::Under => {
                let _code = self.run_script(Origin::Local, actions.under);
            }
        }
    }

    // Takes a sample of a limiter, in watts. If a side fires, its script runs.
    #[tactic(auto, unfolding(crate::specs::Sampling::after_sample, crate::specs::Sampling::fire_at))]
    pub(crate) fn take_sample(&mut self, which: Which, value: u32) -> Fire
        ensures world { (w : World) → StandsFor self.old w
            → StandsFor self.new (after_sample (record { which = which; value = value }) w) }
        ensures fire { (w : World) → StandsFor self.old w
            → result ≡ fire_at (record { which = which; value = value }) w }
    {
        match which {
            Which::Import => {
                let fire = self.import.sample(value);
                let actions = self.import.actions();
                self.react(fire, actions);
                fire
            }
            Which::Export => {
                let fire = self.export.sample(value);
                let actions = self.export.actions();
                self.react(fire, actions);
                fire
            }
        }
    }

    // Takes import samples only, and counts the firings. A scan is used while its threshold is the
    // active one.
    fn take_values(&mut self, values: &[u32], scan: Option<Scan>) -> FiringCounts
        requires within_max { length values.now ≤ 256 }
        requires right { IfSome scan (IsRightScan values.now) }
        ensures { Takes self.old self.new no_firings result (imports values.now) }
    {
        let mut firings = FiringCounts::zero();
        let mut scan = scan_at(scan, values, self.import.threshold());
        let mut at = 0;
        'samples: while at < values.len() {
            scan = scan_at(Some(scan), values, self.import.threshold());
            at += self.take_stretch(values, &scan, at, &mut firings);
        }
        firings
    }

    // Takes pairs of samples, and counts the firings. Each scan is used while its threshold is the
    // active one.
    fn take_pairs(
        &mut self,
        values: &[u32],
        others: &[u32],
        scan: Option<Scan>,
        other_scan: Option<Scan>,
    ) -> FiringCounts
        requires within_max { length values.now ≤ 256 }
        requires same_length { length others.now ≡ length values.now }
        requires right { IfSome scan (IsRightScan values.now) }
        requires other_right { IfSome other_scan (IsRightScan others.now) }
        ensures { Takes self.old self.new no_firings result (pairs values.now others.now) }
    {
        let mut firings = FiringCounts::zero();
        let mut scan = scan_at(scan, values, self.import.threshold());
        let mut other_scan = scan_at(other_scan, others, self.export.threshold());
        let mut at = 0;
        'samples: while at < values.len() {
            scan = scan_at(Some(scan), values, self.import.threshold());
            other_scan = scan_at(Some(other_scan), others, self.export.threshold());
            at += self.take_stretch_of_pairs(values, others, &scan, &other_scan, at, &mut firings);
        }
        firings
    }

    // Takes the samples of a block, and returns the reply with the firings.
    #[tactic(auto, unfolding(crate::specs::Sampling::at_samples))]
    pub(crate) fn take_block(&mut self, block: &Block) -> Reply
        ensures world { (w : World) → StandsFor self.old w
            → StandsFor self.new (at_samples block.now w).world }
        ensures reply { (w : World) → StandsFor self.old w
            → result ≡ (at_samples block.now w).reply }
        ensures fits { IsOfSamples result }
    {
        let scans = block.scanned().copied();
        let scan = scans.map(|scans| scans.import);
        let Some(others) = block.export() else {
            let firings = self.take_values(block.values(), scan);
            return Reply::Sampled {
                over: firings.import_over,
                under: firings.import_under,
            };
        };
        let other_scan = scans.and_then(|scans| scans.export);
        let firings = self.take_pairs(block.values(), others, scan, other_scan);
        Reply::SampledBoth {
            over: firings.import_over,
            under: firings.import_under,
            export_over: firings.export_over,
            export_under: firings.export_under,
        }
    }
}
