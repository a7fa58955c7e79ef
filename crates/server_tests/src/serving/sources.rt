//! A source that gives nothing.
use lane_sampler::Block;
use meter_server::{BlockSource, ButtonSource, MomentSource};

/// No block, no moment and no press.
#[derive(Drop)]
pub(super) struct Silent;

impl BlockSource for Silent {
    fn next_block(&mut self) -> Option<Block> {
        None
    }
}

impl MomentSource for Silent {
    fn next_moment(&mut self) -> Option<u32> {
        None
    }
}

impl ButtonSource for Silent {
    fn pressed(&mut self) -> bool {
        false
    }
}
