//! Connections with time limits.
ghost use Rattle.std.specs.Prelude.{◌≡◌, ◌-◌, ◌≤◌, List, Option, None};
ghost use Rattle.std.specs.Duration.{as_nanos};
ghost use Rattle.std.specs.Io.{ReadsAtMost};
ghost use Rattle.head_end.specs.Logs.{Happening, ReadLogs, WriteLogs};

use crate::connection::Connection;
use counted_io::StreamFault;
use std::time::{Clock, Duration, Instant};

// The maximum number of reads after the end of a conversation.
const MAX_LAST_READS: u32 = 16;

// The time limit of each of these reads, in seconds.
const MAX_LAST_WAIT: u64 = 5;

/// A stream whose next read or write has a time limit.
pub trait LimitedStream: Drop {
    // Ghost value: the reads and writes so far, in order. The default claims nothing.
    ghost log: { Self → Option (List Happening) } = { λ _. None };

    /// Reads into the buffer within a limit, and returns the number of bytes read: 0 at the end of
    /// the stream. Fails if the limit is zero.
    fn read_within(&mut self, limit: Duration, buffer: &mut [u8]) -> Result<usize, StreamFault>
        ensures bound { ReadsAtMost result buffer.new }
        ensures log { ReadLogs (log self.old) result buffer.new (log self.new) };

    /// Writes all the bytes, with a limit on each partial write. If it fails, a prefix of them may
    /// have been written. Fails if the limit is zero.
    fn write_all_within(&mut self, limit: Duration, bytes: &[u8]) -> Result<(), StreamFault>
        ensures log { WriteLogs (log self.old) bytes.now result (log self.new) };

    /// Sends the end of the stream: nothing more is written. The log has nothing of this.
    fn end_writing(&mut self)
        ensures log { log self.new ≡ log self.old };

    /// Reads and discards bytes within a limit, and returns their number: 0 at the end of the
    /// stream. Fails if the limit is zero. The log has nothing of this.
    fn discard_within(&mut self, limit: Duration) -> Result<usize, StreamFault>
        ensures log { log self.new ≡ log self.old };
}

/// A connection over a stream whose reads and writes fail once the time limit has passed.
#[derive(Debug, Drop)]
pub struct LimitedConnection<R, S> {
    rt: R,
    stream: S,
    opened: Instant,
    /// The limit of the whole connection, from the time at which it was opened.
    pub within: Duration,
}

impl<R: Clock + Drop, S: LimitedStream> LimitedConnection<R, S> {
    /// Returns a connection over a stream that was opened at this time.
    pub fn new(rt: R, stream: S, opened: Instant, within: Duration) -> LimitedConnection<R, S>
        ensures { result.within ≡ within }
    {
        LimitedConnection {
            rt,
            stream,
            opened,
            within,
        }
    }
}

impl<R: Clock + Drop, S: LimitedStream> Connection for LimitedConnection<R, S> {
    ghost log = { λ c. S.log c.stream };

    fn read(&mut self, buffer: &mut [u8]) -> Result<usize, StreamFault> {
        let limit = time_left(&self.rt, self.opened, self.within);
        self.stream.read_within(limit, buffer)
    }

    fn write_all(&mut self, bytes: &[u8]) -> Result<(), StreamFault> {
        let limit = time_left(&self.rt, self.opened, self.within);
        self.stream.write_all_within(limit, bytes)
    }

    fn finish(&mut self) {
        self.stream.end_writing();
        'reads: for _ in 0..MAX_LAST_READS {
            let limit = time_left(&self.rt, self.opened, self.within);
            let limit = limit.min(Duration::from_secs(MAX_LAST_WAIT));
            match self.stream.discard_within(limit) {
                Ok(0) => return,
                Ok(_) => {}
                Err(_) => return,
            }
        }
    }
}

// Returns the remaining time of a limit, or zero if the clock cannot be read.
fn time_left<R: Clock>(rt: &R, opened: Instant, within: Duration) -> Duration
    ensures { as_nanos result ≤ as_nanos within }
{
    match opened.elapsed(rt) {
        Ok(passed) => time_left_of(within, passed),
        Err(_) => Duration::ZERO,
    }
}

// Returns the remaining time of a limit after some time has passed.
fn time_left_of(within: Duration, passed: Duration) -> Duration
    ensures { as_nanos result ≡ as_nanos within - as_nanos passed }
{
    within.saturating_sub(passed)
}
