//! `Monitored`: a stream of `std` that records a failed read, so that contracts see it through a
//! `BufReader`.
ghost use Rattle.std.specs.Prelude.{◌≡◌, false, true, OnErr, OnOk};
ghost use Rattle.std.specs.Io.{ReadsAtMost};
ghost use Rattle.std.specs.Io.KnownBytes.{ReadConsumes};
ghost use Rattle.counted_io.specs.Monitored.{has_failed, stream_of};

use crate::counted::read_stream;
use std::io;
use std::io::Read;

/// A std stream that records whether a read of it has failed. It can be wrapped in a buffer, such
/// as std's `BufReader`, and contracts still see that it has failed.
#[derive(Debug, Drop)]
pub struct Monitored<T> {
    stream: T,
    has_failed: bool,
}

impl<T> Monitored<T> {
    /// Wraps a stream; no read has failed yet.
    pub fn new(stream: T) -> Monitored<T>
        ensures stream { stream_of result ≡ stream }
        ensures unfailed { has_failed result ≡ false }
    {
        Monitored {
            stream,
            has_failed: false,
        }
    }

    /// Returns whether a read has failed.
    pub fn has_failed(&self) -> bool
        ensures { result ≡ has_failed self.now }
    {
        self.has_failed
    }
}

impl<T: Read> Read for Monitored<T> {
    ghost remaining = { λ m. T.remaining (stream_of m) };

    fn read(&mut self, buffer: &mut [u8]) -> io::Result<usize>
        ensures bound { ReadsAtMost result buffer.new }
        ensures bytes { ReadConsumes (T.remaining (stream_of self.old))
            (T.remaining (stream_of self.new)) result buffer.new }
        ensures same { OnOk result (has_failed self.new ≡ has_failed self.old) }
        ensures cause { OnErr result (has_failed self.new ≡ true) }
    {
        let read = read_stream(&mut self.stream, buffer);
        if read.is_err() {
            self.has_failed = true;
        }
        read
    }
}
