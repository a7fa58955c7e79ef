//! Streams in memory, whose reads and writes may fail.
use std::io;
use std::io::{ErrorKind, Read, Write};

/// A stream that returns this number of bytes at each read. One of the reads may fail.
#[derive(Drop)]
pub(crate) struct Input<'a> {
    pub(crate) rest: &'a [u8],
    pub(crate) piece: usize,
    pub(crate) reads: u32,
    pub(crate) failing: u32,
}

impl<'a> Read for Input<'a> {
    fn read(&mut self, buffer: &mut [u8]) -> io::Result<usize> {
        self.reads = self.reads.saturating_add(1);
        if self.reads == self.failing {
            return Err(io::Error::from(ErrorKind::ConnectionReset));
        }
        let count = self.rest.len().min(buffer.len()).min(self.piece);
        let (now, later) = self.rest.split_at(count);
        buffer[..count].copy_from_slice(now);
        self.rest = later;
        Ok(count)
    }
}

/// A stream that keeps what was written. One of the writes may fail.
#[derive(Drop)]
pub(crate) struct Output {
    pub(crate) bytes: Vec<u8>,
    pub(crate) writes: u32,
    pub(crate) failing: u32,
}

impl Write for Output {
    fn write(&mut self, bytes: &[u8]) -> io::Result<usize> {
        self.writes = self.writes.saturating_add(1);
        if self.writes == self.failing {
            return Err(io::Error::from(ErrorKind::BrokenPipe));
        }
        self.bytes.extend_from_slice(bytes)?;
        Ok(bytes.len())
    }

    fn flush(&mut self) -> io::Result<()> {
        Ok(())
    }
}
