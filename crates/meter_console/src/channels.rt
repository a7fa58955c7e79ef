//! The channels between the console's thread and the meter's workers. `None` in a channel ends its
//! source.
ghost use Rattle.std.specs.Prelude.{List, Option, None};
ghost use Rattle.meter_console.specs.Queues.{Gains, Sorts};

use crate::sink::EventSink;
use crossbeam_channel::{Receiver, Sender, bounded};
use lane_sampler::Block;
use relay_events::Event;
use shared_meter::{BlockSource, ButtonSource, MomentSource};
use std::alloc::{AllocError, Global};
use std::sync::Wait;

// The maximum number of events that wait for each worker.
const MAX_WAITING: usize = 64;

/// Blocks of samples from the console.
#[derive(Drop)]
pub struct ConsoleBlocks<R> {
    rt: R,
    blocks: Receiver<Option<Block>>,
}

impl<R: Wait + Drop + Send> BlockSource for ConsoleBlocks<R> {
    fn next_block(&mut self) -> Option<Block> {
        self.blocks.recv(&self.rt).unwrap_or(None)
    }
}

/// Moments of the clock from the console.
#[derive(Drop)]
pub struct ConsoleMoments<R> {
    rt: R,
    moments: Receiver<Option<u32>>,
}

impl<R: Wait + Drop + Send> MomentSource for ConsoleMoments<R> {
    fn next_moment(&mut self) -> Option<u32> {
        self.moments.recv(&self.rt).unwrap_or(None)
    }
}

/// Presses of the button from the console.
#[derive(Drop)]
pub struct ConsolePresses<R> {
    rt: R,
    presses: Receiver<Option<()>>,
}

impl<R: Wait + Drop + Send> ButtonSource for ConsolePresses<R> {
    fn pressed(&mut self) -> bool {
        matches!(self.presses.recv(&self.rt), Ok(Some(())))
    }
}

/// The sources that the workers read. Each ends once the console has ended, or a [`SourcesEnd`]
/// ends it.
#[derive(Drop)]
pub struct ConsoleSources<R> {
    /// The blocks of power samples.
    pub blocks: ConsoleBlocks<R>,
    /// The moments of the clock.
    pub moments: ConsoleMoments<R>,
    /// The presses of the button.
    pub presses: ConsolePresses<R>,
}

// A queue of values of one kind for their worker.
trait Queue<T> {
    // Ghost value: the values given so far, if the queue lists them. The default claims nothing.
    ghost given: { Self → Option (List T) } = { λ _. None };

    // Appends a value. Blocks while the queue is full.
    fn put(&mut self, value: T)
        ensures { Gains (given self.old) value (given self.new) };
}

// The sending end of a channel.
#[derive(Drop)]
pub(crate) struct Sending<R, T> {
    rt: R,
    sender: Sender<Option<T>>,
}

impl<R: Wait, T: Drop> Queue<T> for Sending<R, T> {
    // (if the worker has ended, the value is dropped)
    fn put(&mut self, value: T) {
        let _ = self.sender.send(&self.rt, Some(value));
    }
}

impl<R: Wait + Copy, T: Drop> Sending<R, T> {
    // Returns a second sending end.
    fn share(&self) -> Result<Sending<R, T>, AllocError> {
        let sender = self.sender.clone()?;
        Ok(Sending {
            rt: self.rt,
            sender,
        })
    }

    // Ends the source at the other end, after the values that were sent.
    fn end(&self) {
        let _ = self.sender.send(&self.rt, None);
    }
}

// A queue for each worker.
#[derive(Drop)]
pub(crate) struct Channels<B, M, P> {
    blocks: B,
    moments: M,
    presses: P,
}

impl<B: Queue<Block>, M: Queue<u32>, P: Queue<()>> Channels<B, M, P> {
    // Appends an event to the queue of its worker. Events that only a client requests are ignored.
    fn sort(&mut self, event: Event)
        ensures { Sorts event
            (record {
              blocks = B.given self.old.blocks;
              moments = M.given self.old.moments;
              presses = P.given self.old.presses;
            })
            (record {
              blocks = B.given self.new.blocks;
              moments = M.given self.new.moments;
              presses = P.given self.new.presses;
            }) }
    {
        match event {
            Event::Samples(block) => self.blocks.put(block),
            Event::Moment(now) => self.moments.put(now),
            Event::Button => self.presses.put(()),
            Event::Get { .. } | Event::GetList { .. } | Event::Set { .. } | Event::Execute { .. } =>
                {}
        }
    }
}

impl<B: Queue<Block>, M: Queue<u32>, P: Queue<()>> EventSink for Channels<B, M, P> {
    fn take(&mut self, event: Event) {
        self.sort(event);
    }
}

// The channels of a console whose threads block by `R`.
pub(crate) type WorkerChannels<R> = Channels<Sending<R, Block>, Sending<R, u32>, Sending<R, ()>>;

// Ends the source of each channel.
pub(crate) fn end_sources<R: Wait + Copy>(channels: &WorkerChannels<R>) {
    channels.blocks.end();
    channels.moments.end();
    channels.presses.end();
}

/// Ends the sources of a console from another thread, whether or not its input has ended.
#[derive(Drop)]
pub struct SourcesEnd<R> {
    channels: WorkerChannels<R>,
}

impl<R: Wait + Copy> SourcesEnd<R> {
    // Returns what ends the sources of these channels.
    pub(crate) fn from_channels(channels: &WorkerChannels<R>) -> Result<SourcesEnd<R>, AllocError> {
        let blocks = channels.blocks.share()?;
        let moments = channels.moments.share()?;
        let presses = channels.presses.share()?;
        Ok(SourcesEnd {
            channels: Channels {
                blocks,
                moments,
                presses,
            },
        })
    }

    /// Ends each source once its worker has received all that was sent before.
    pub fn end(&self) {
        end_sources(&self.channels);
    }
}

// Opens a channel for each worker, and allocates all the memory of the channels.
pub(crate) fn open_channels<R: Wait + Copy>(
    rt: &R,
    alloc: Global,
) -> Result<(WorkerChannels<R>, ConsoleSources<R>), AllocError> {
    let (to_blocks, blocks) = bounded(alloc, MAX_WAITING)?;
    let (to_moments, moments) = bounded(alloc, MAX_WAITING)?;
    let (to_presses, presses) = bounded(alloc, MAX_WAITING)?;
    let rt = *rt;
    let channels = Channels {
        blocks: Sending {
            rt,
            sender: to_blocks,
        },
        moments: Sending {
            rt,
            sender: to_moments,
        },
        presses: Sending {
            rt,
            sender: to_presses,
        },
    };
    let sources = ConsoleSources {
        blocks: ConsoleBlocks { rt, blocks },
        moments: ConsoleMoments { rt, moments },
        presses: ConsolePresses { rt, presses },
    };
    Ok((channels, sources))
}
