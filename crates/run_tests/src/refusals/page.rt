//! An output that is stored without allocating.
use std::io;
use std::io::{ErrorKind, Write};

/// The maximum number of bytes that are stored. The longest output of these tests has 727.
const MOST: usize = 1_024;

/// The bytes that were written.
#[derive(Drop)]
pub(crate) struct Page {
    bytes: [u8; MOST],
    length: usize,
}

impl Page {
    pub(crate) fn new() -> Page {
        Page {
            bytes: [0; MOST],
            length: 0,
        }
    }

    pub(crate) fn text(&self) -> &[u8] {
        self.bytes.get(..self.length).unwrap_or(&[])
    }
}

impl Write for Page {
    fn write(&mut self, bytes: &[u8]) -> io::Result<usize> {
        let end = self.length.saturating_add(bytes.len());
        let Some(place) = self.bytes.get_mut(self.length..end) else {
            return Err(io::Error::from(ErrorKind::StorageFull));
        };
        place.copy_from_slice(bytes);
        self.length = end;
        Ok(bytes.len())
    }

    fn flush(&mut self) -> io::Result<()> {
        Ok(())
    }
}
