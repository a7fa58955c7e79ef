//! `Stream`: the bytes of one connection, read and written without blocking.
ghost use Rattle.std.specs.Prelude.{◌<◌, length};
ghost use Rattle.fleet_links.specs.Streams.{StreamState, ReadBy, WrittenBy};

/// The result of a read.
#[derive(Clone, Copy, Debug, PartialEq, Eq)]
pub enum Received {
    /// This many bytes, at least one, were copied to the start of the buffer.
    Bytes(usize),
    /// No bytes have arrived. A read can succeed after the stream is readable again.
    Blocked,
    /// The client has closed its side, or the read failed.
    Ended,
}

/// The result of a write.
#[derive(Clone, Copy, Debug, PartialEq, Eq)]
pub enum Sent {
    /// This many of the first bytes, at least one, were written.
    Bytes(usize),
    /// No byte was written. A write can succeed after the stream is writable again.
    Blocked,
    /// The write failed.
    Failed,
}

/// A stream of bytes that never blocks the caller.
pub trait Stream {
    // Ghost value: the bytes read and written so far, if they are known, and two numbers: one
    // changes if a read or a write blocks, the other if a read ends or a write fails.
    ghost state: { Self → StreamState };

    /// Reads into a non-empty buffer.
    fn read(&mut self, buffer: &mut [u8]) -> Received
        requires { 0 < length buffer.now }
        ensures { ReadBy (state self.old) buffer.new result (state self.new) };

    /// Writes some of the bytes, from the first on; there must be at least one.
    fn write(&mut self, bytes: &[u8]) -> Sent
        requires { 0 < length bytes.now }
        ensures { WrittenBy (state self.old) bytes.now result (state self.new) };
}
