//! Blocks of power samples as events, each scanned with the thresholds that were read last.
ghost use Rattle.std.specs.Prelude.{◌≡◌, ◌<◌, ◌+◌, ◌%◌, IfSome, List};
ghost use Rattle.lane_sampler.specs.Samples.{Samples};
ghost use Rattle.shared_meter.specs.Blocks.{AllBlocks, CanFollow};
ghost use Rattle.shared_meter.specs.Thresholds.{threshold_read};
ghost use Rattle.relay_events.specs.declared.event.Event.{Event};
ghost use Rattle.relay_events.specs.declared.event.Event.TheVariants as event;

use crate::sources::{BlockSource, EventSource};
use crate::thresholds::{Thresholds, make_read, thresholds_in};
use lane_sampler::Block;
use relay_events::{Event, Reply};
use std::alloc::Global;

// The number of blocks that are scanned with the same read of the thresholds.
const BLOCKS_PER_READ: u8 = 64;

/// The blocks of a source as events, with reads of the thresholds that they are scanned with.
///
/// Reads the active thresholds of both limiters before the first block and after every 64 blocks,
/// and scans each block with those that it read last, so that the meter can skip samples that fire
/// nothing. If out of memory for a read, it continues with the thresholds it has, or without a
/// scan.
#[derive(Drop)]
pub struct BlockEvents<S> {
    source: S,
    // The block that follows the read of the thresholds.
    waiting: Option<Block>,
    // The thresholds of the last successful read, if there was one.
    thresholds: Option<Thresholds>,
    // The number of blocks since the last attempt to read the thresholds, 0 to 63. At 0 an attempt
    // precedes the next block.
    since_read: u8,
    ghost within: { since_read < 64 },
}

impl<S: BlockSource> BlockEvents<S> {
    /// Returns the events of the blocks of a source.
    #[tactic(auto, using(crate::proofs::BlockLemmas::all_blocks))]
    pub fn new(source: S) -> BlockEvents<S>
        ensures { (events : List Event)
            → ⟦<BlockEvents<S> as EventSource>⟧.can_follow result events
            → AllBlocks (S.forecast source) events }
    {
        BlockEvents {
            source,
            waiting: None,
            thresholds: None,
            since_read: 0,
        }
    }

    // Returns a read of the thresholds, if one precedes the next block.
    fn due_read(&self, alloc: Global) -> Option<Event>
        ensures { IfSome result
            (λ read. (read ≡ threshold_read) × (self.now.since_read ≡ 0)) }
    {
        if self.since_read == 0 {
            make_read(alloc).ok()
        } else {
            None
        }
    }

    // Returns the event of a block, scanned with the last thresholds, and counts the block.
    fn pass(&mut self, mut block: Block) -> Event
        ensures event { result ≡ event.Samples block }
        ensures since_read { self.new.since_read ≡ (self.old.since_read + 1) % 64 }
        ensures waiting { self.new.waiting ≡ self.old.waiting }
        ensures source { self.new.source ≡ self.old.source }
    {
        if let Some(thresholds) = self.thresholds {
            block.scan(thresholds.import, thresholds.export);
        }
        self.since_read = (self.since_read + 1) % BLOCKS_PER_READ;
        Event::Samples(block)
    }
}

impl<S: BlockSource> EventSource for BlockEvents<S> {
    ghost can_follow = { λ blocks. CanFollow (S.forecast blocks.source) blocks.since_read
        blocks.waiting };

    #[tactic(auto, using(crate::proofs::BlockLemmas::block_offered, crate::proofs::BlockLemmas::no_block), unfolding(relay_core::specs::Machine::is_sure))]
    fn next_event(&mut self, alloc: Global) -> Option<Event> {
        if let Some(block) = self.waiting.take() {
            return Some(self.pass(block));
        }
        let block = self.source.next_block()?;
        match self.due_read(alloc) {
            Some(read) => {
                self.waiting = Some(block);
                Some(read)
            }
            None => Some(self.pass(block)),
        }
    }

    fn receive(&mut self, reply: &Reply) {
        self.thresholds = thresholds_in(reply).or(self.thresholds);
    }
}
