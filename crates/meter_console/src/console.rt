//! The console: the buffer for its lines, and the channels to the meter's own workers.
use crate::channels::{ConsoleSources, SourcesEnd, WorkerChannels, end_sources, open_channels};
use crate::clock_guard::{ClockGuard, GuardedSink};
use crate::lines::LineBuffer;
use crate::running::{ConsoleEnd, run_console};
use std::alloc::{AllocError, Global};
use std::io::BufRead;
use std::sync::Wait;
use std::time::Clock;

/// The memory and the channels of the console's thread; its input is passed later.
#[derive(Drop)]
pub struct Console<R> {
    buffer: LineBuffer,
    channels: WorkerChannels<R>,
}

impl<R: Wait + Copy + Drop> Console<R> {
    /// Returns a console, and the sources that it feeds. Allocates all their memory, except that of
    /// the events.
    pub fn new(rt: &R, alloc: Global) -> Result<(Console<R>, ConsoleSources<R>), AllocError> {
        let buffer = LineBuffer::new(alloc)?;
        let (channels, sources) = open_channels(rt, alloc)?;
        Ok((Console { buffer, channels }, sources))
    }

    /// Returns what ends the sources from another thread. Errors: `AllocError`.
    pub fn sources_end(&self) -> Result<SourcesEnd<R>, AllocError> {
        SourcesEnd::from_channels(&self.channels)
    }

    // Passes the events of an input's lines to the workers, as [`run_console`] does, but for the
    // moments that the guard holds back. The sources end when it returns.
    pub(crate) fn run<B: BufRead, T: Clock + Drop, E: Eprint + Drop>(
        self,
        alloc: Global,
        input: &mut B,
        errors: &E,
        guard: ClockGuard<T, E>,
        is_verbose: bool,
    ) -> ConsoleEnd {
        let Console { buffer, channels } = self;
        let mut sink = GuardedSink {
            sink: channels,
            guard,
        };
        let end = run_console(alloc, input, buffer, &mut sink, errors, is_verbose);
        end_sources(&sink.sink);
        end
    }
}
