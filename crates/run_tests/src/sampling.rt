//! The thresholds that the sampler's worker scans blocks with. A scan is not part of a block's
//! value, so no contract sees it.
ghost use Rattle.std.specs.Prelude.{◌≡◌, [], IfOk};

use crate::meters::new_lock;
use crate::refusals::RefusedAndStood;
use cosem_axdr::Data;
use cosem_names::{AttrRef, ClassId, Level, Obis};
use lane_sampler::Block;
use meter_server::BlockSource;
use relay_events::Event;
use relay_recorder::Recorder;
use shared_meter::{BlockEvents, Kept, run_source};
use std::alloc::{AllocError, Global};
use std::process::Abort;
use std::sync::Wait;
use std::test::Fail;
use turn_lock::{CallFault, Port, Shared, Turned};

/// The thresholds of both limiters, in watts.
#[derive(Clone, Copy, Debug, PartialEq, Eq)]
struct Thresholds {
    import: u32,
    export: u32,
}

// The thresholds that are written before block 1.
const FIRST: Thresholds = Thresholds {
    import: 100,
    export: 200,
};

// The thresholds that are written before block 33.
const SECOND: Thresholds = Thresholds {
    import: 300,
    export: 400,
};

// The thresholds that are written before block 97.
const THIRD: Thresholds = Thresholds {
    import: 500,
    export: 600,
};

/// The number of blocks: those of the first two reads of the thresholds, and two of the third.
const BLOCKS: u16 = 130;

/// Returns the thresholds that are written before a block. Blocks are numbered from 1.
fn written_before(block: u16) -> Option<Thresholds> {
    match block {
        1 => Some(FIRST),
        33 => Some(SECOND),
        97 => Some(THIRD),
        _ => None,
    }
}

/// Returns the thresholds that a block is scanned with: those in force before block 1, 65 or 129.
fn expected_thresholds(block: u16) -> Thresholds {
    match block {
        1..=64 => FIRST,
        65..=128 => SECOND,
        _ => THIRD,
    }
}

/// Returns the reference to threshold_normal of a limiter.
fn normal(side: u8) -> AttrRef {
    AttrRef {
        class: ClassId(71),
        name: Obis([0, side, 17, 0, 0, 255]),
        number: 4,
    }
}

/// A source that writes both thresholds before some of its blocks, through a port of its own.
#[derive(Drop)]
struct Writing<'a, W: Wait> {
    rt: &'a W,
    alloc: Global,
    port: Port<Kept>,
    given: u16,
}

impl<'a, W: Wait> Writing<'a, W> {
    fn write(&mut self, side: u8, value: u32) -> Result<(), CallFault> {
        let event = Event::Set {
            level: Level::Management,
            attr: normal(side),
            selected: false,
            value: Data::DoubleLongUnsigned(value),
        };
        let reply = self.port.call(self.rt, self.alloc, event)?;
        drop(reply);
        Ok(())
    }

    fn write_both(&mut self, thresholds: Thresholds) -> Result<(), CallFault> {
        self.write(0, thresholds.import)?;
        self.write(1, thresholds.export)
    }
}

impl<'a, W: Wait> BlockSource for Writing<'a, W> {
    fn next_block(&mut self) -> Option<Block> {
        if self.given >= BLOCKS {
            return None;
        }
        self.given += 1;
        if let Some(thresholds) = written_before(self.given) {
            self.write_both(thresholds).ok()?;
        }
        Block::from_pairs(self.alloc, &[], &[]).ok()
    }
}

/// Returns the thresholds that a block was scanned with, if it was scanned with both.
fn scanned_thresholds(block: &Block) -> Option<Thresholds> {
    let scans = block.scanned()?;
    Some(Thresholds {
        import: scans.import.threshold,
        export: scans.export?.threshold,
    })
}

/// The findings of a walk through the kept events.
#[derive(Clone, Copy, Debug, PartialEq, Eq)]
struct Found {
    in_force: Thresholds,
    read: Option<Thresholds>,
    reads: u16,
    blocks: u16,
    /// Each block is scanned with the thresholds in force at the last read before it.
    is_as_read: bool,
    /// Each block is scanned with the expected thresholds.
    is_as_expected: bool,
}

// The findings before the first event.
const NOTHING: Found = Found {
    in_force: FIRST,
    read: None,
    reads: 0,
    blocks: 0,
    is_as_read: true,
    is_as_expected: true,
};

impl Found {
    fn add_block(&mut self, block: &Block) {
        let scanned = scanned_thresholds(block);
        self.blocks = self.blocks.saturating_add(1);
        self.is_as_read &= scanned == self.read;
        self.is_as_expected &= scanned == Some(expected_thresholds(self.blocks));
    }

    fn add(&mut self, event: &Event) {
        match event {
            Event::Samples(block) => self.add_block(block),
            Event::GetList { .. } => {
                self.reads = self.reads.saturating_add(1);
                self.read = Some(self.in_force);
            }
            Event::Set {
                attr,
                value: Data::DoubleLongUnsigned(value),
                ..
            } => {
                if *attr == normal(0) {
                    self.in_force.import = *value;
                } else {
                    self.in_force.export = *value;
                }
            }
            _ => {}
        }
    }

    fn add_kept(&mut self, recorder: &Recorder, i: u16) {
        if i < recorder.count() {
            self.add(recorder.event(i));
        }
    }
}

/// Walks through the events that a recorder has kept.
fn found_in(recorder: &Recorder) -> Found {
    let mut found = NOTHING;
    for i in 0..256 {
        found.add_kept(recorder, i);
    }
    found
}

/// Returns the findings for the meter in a lock, or `None` if the lock is busy.
fn found_after(shared: Shared<Kept>, port: Port<Kept>) -> Option<Found>
    requires { port.lock ≡ shared }
{
    match shared.close(port) {
        Ok(kept) => {
            let found = found_in(kept.recorder());
            drop(kept);
            Some(found)
        }
        Err((_, shared, port)) => {
            drop(shared);
            drop(port);
            None
        }
    }
}

/// Runs the worker until all blocks are passed on.
fn sample<W: Wait>(
    rt: &W,
    alloc: Global,
    shared: Shared<Kept>,
    mut port: Port<Kept>,
) -> Option<Found>
    requires { port.lock ≡ shared }
{
    match port.split() {
        Ok(own) => {
            let source = Writing {
                rt,
                alloc,
                port: own,
                given: 0,
            };
            let (port, _) = run_source(rt, alloc, BlockEvents::new(source), port);
            found_after(shared, port)
        }
        Err(_) => {
            drop(shared);
            drop(port);
            None
        }
    }
}

/// Runs the worker with a new meter. Returns `None` if out of memory.
fn sample_new<R: Wait + Abort>(rt: &R, alloc: Global) -> Option<Found> {
    let (shared, port) = new_lock(rt, alloc, 1000).ok()?;
    sample(rt, alloc, shared, port)
}

// `tests/refused_memory.py` runs it once for each of its allocations, and refuses that allocation.
// If a read of the thresholds ran out of memory, it fails with `RefusedAndStood`.
#[test]
fn blocks_are_scanned_with_the_thresholds_read_last(rt: HostRuntime) -> Result<(), Fail> {
    let found = sample_new(&rt, rt.alloc()).ok_or(AllocError)?;
    if found.blocks < BLOCKS {
        Err(AllocError)?;
    }
    assert!(rt; found.is_as_read, "{found:?}");
    if found.reads < 3 {
        Err(RefusedAndStood)?;
    }
    assert!(rt; found.reads == 3 && found.is_as_expected, "{found:?}");
    Ok(())
}
