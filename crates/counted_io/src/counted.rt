//! `Counted`: a stream of `std` as a `Reader` or `Writer`, with its reads counted and interrupted
//! reads retried.
ghost use Rattle.std.specs.Prelude.{◌≡◌, ◌↔◌, IsTrue};
ghost use Rattle.std.specs.Io.{ReadsAtMost};
ghost use Rattle.std.specs.Io.KnownBytes.{ReadConsumes};
ghost use Rattle.counted_io.specs.Counted.{stream_of, reads_of, has_failed, failures_of, IsWhole};

use crate::fault::StreamFault;
use crate::streams::{Reader, Writer};
use std::io;
use std::io::{ErrorKind, Read, Write};

// The maximum number of attempts of a read that signals interrupt.
const MAX_TRIES: u32 = 1_000;

// Returns whether a read that failed with this error is retried: only if a signal interrupted it.
fn is_tried_again(kind: ErrorKind) -> bool
    ensures { IsTrue result ↔ (kind ≡ ErrorKind.Interrupted) }
{
    kind == ErrorKind::Interrupted
}

/// A std stream as a [`Reader`] or a [`Writer`]. It cannot be used after its first failure. Read
/// number 18,446,744,073,709,551,616 fails.
#[derive(Debug, Drop)]
pub struct Counted<T> {
    stream: T,
    reads: u64,
    has_failed: bool,
}

impl<T> Counted<T> {
    /// Wraps a stream; no read or write has failed yet.
    pub fn new(stream: T) -> Counted<T>
        ensures stream { stream_of result ≡ stream }
        ensures whole { IsWhole result }
        ensures unread { reads_of result ≡ 0 }
    {
        Counted {
            stream,
            reads: 0,
            has_failed: false,
        }
    }

    /// Returns the wrapped stream.
    pub fn into_inner(self) -> T
        ensures { result ≡ stream_of self }
    {
        let Counted { stream, .. } = self;
        stream
    }

    /// Returns the number of successful reads.
    pub fn reads(&self) -> u64
        ensures { result ≡ reads_of self.now }
    {
        self.reads
    }

    /// Returns whether a read or a write has failed.
    pub fn has_failed(&self) -> bool
        ensures { result ≡ has_failed self.now }
    {
        self.has_failed
    }
}

// Reads from a stream. A read that a signal interrupts is retried, up to 1,000 tries in all.
pub(crate) fn read_stream<T: Read>(stream: &mut T, buffer: &mut [u8]) -> io::Result<usize>
    ensures bound { ReadsAtMost result buffer.new }
    ensures bytes { ReadConsumes (T.remaining stream.old) (T.remaining stream.new) result
        buffer.new }
{
    'tries: for _ in 1..MAX_TRIES {
        match stream.read(buffer) {
            Err(error) if is_tried_again(error.kind()) => {}
            read => return read,
        }
    }
    stream.read(buffer)
}

impl<T: Read> Reader for Counted<T> {
    ghost remaining = { λ c. T.remaining (stream_of c) };

    ghost reads = { reads_of };

    ghost failures = { failures_of };

    ghost can_read = { IsWhole };

    fn read(&mut self, buffer: &mut [u8]) -> Result<usize, StreamFault> {
        let Some(reads) = self.reads.checked_add(1) else {
            self.has_failed = true;
            return Err(StreamFault);
        };
        match read_stream(&mut self.stream, buffer) {
            Ok(count) => {
                self.reads = reads;
                Ok(count)
            }
            Err(_) => {
                self.has_failed = true;
                Err(StreamFault)
            }
        }
    }
}

impl<T: Write> Writer for Counted<T> {
    ghost contents = { λ c. T.contents (stream_of c) };

    ghost failures = { failures_of };

    ghost can_write = { IsWhole };

    fn write_all(&mut self, bytes: &[u8]) -> Result<(), StreamFault> {
        match self.stream.write_all(bytes) {
            Ok(()) => Ok(()),
            Err(_) => {
                self.has_failed = true;
                Err(StreamFault)
            }
        }
    }
}
