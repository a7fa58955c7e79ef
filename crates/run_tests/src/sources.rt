//! Sources that declare the items they have yet to return.
ghost use Rattle.std.specs.Prelude.{Some};

use lane_sampler::Block;
use meter_server::{BlockSource, ButtonSource, MomentSource};
use std::collections::VecDeque;

/// A source of the blocks of a list.
#[derive(Drop)]
pub(crate) struct ListedBlocks {
    pub(crate) left: VecDeque<Block>,
}

impl BlockSource for ListedBlocks {
    ghost forecast = { λ source. Some source.left.items };

    #[tactic(auto, using(crate::proofs::ListLemmas::gives_front))]
    fn next_block(&mut self) -> Option<Block> {
        self.left.pop_front()
    }
}

/// A source of the moments of a list.
#[derive(Drop)]
pub(crate) struct ListedMoments {
    pub(crate) left: VecDeque<u32>,
}

impl MomentSource for ListedMoments {
    ghost forecast = { λ source. Some source.left.items };

    #[tactic(auto, using(crate::proofs::ListLemmas::gives_front))]
    fn next_moment(&mut self) -> Option<u32> {
        self.left.pop_front()
    }
}

/// A source of a number of presses.
#[derive(Drop)]
pub(crate) struct ListedPresses {
    pub(crate) left: u32,
}

impl ButtonSource for ListedPresses {
    ghost forecast = { λ source. Some source.left };

    #[tactic(auto, using(crate::proofs::ListLemmas::presses))]
    fn pressed(&mut self) -> bool {
        if self.left == 0 {
            return false;
        }
        self.left -= 1;
        true
    }
}
