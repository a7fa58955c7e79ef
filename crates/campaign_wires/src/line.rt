//! `SocketLine`: the connection of one place.
ghost use Rattle.std.specs.Prelude.{◌<◌, length};
ghost use Rattle.campaign_loop.specs.Wires.{IsWithin};

use crate::outbox::{Outbox, Written};
use campaign_loop::WireRead;
use mio::net::TcpStream;
use std::alloc::{AllocError, Global};
use std::io::{ErrorKind, Read};
use std::net::{Shutdown, SocketAddr};

// The maximum number of bytes that one read drops.
const DROPPED: usize = 1_024;

// The maximum number of reads that drop bytes in a turn.
const MAX_DROPS: u32 = 16;

// The state of a connection.
#[derive(Clone, Copy, Debug, PartialEq, Eq)]
pub(crate) enum LineState {
    // It waits for a descriptor.
    Waiting,
    // It is being opened.
    Opening,
    // It is open.
    Open,
    // It is closed once its messages are written.
    Closing,
    // Its end was written, and what still comes is dropped.
    Draining,
    // It has ended, or could not be opened.
    Ended,
}

// The connection of one place.
#[derive(Drop)]
pub(crate) struct SocketLine {
    pub(crate) state: LineState,
    // The IP addresses to try next, the last one first.
    pub(crate) addresses: Vec<SocketAddr>,
    // When it is late, in milliseconds.
    pub(crate) moment: u64,
    stream: Option<TcpStream>,
    // The messages.
    outbox: Outbox,
}

impl SocketLine {
    // Returns a connection that waits for a descriptor.
    pub(crate) fn new(alloc: Global, addresses: Vec<SocketAddr>) -> SocketLine {
        SocketLine {
            state: LineState::Waiting,
            addresses,
            moment: u64::MAX,
            stream: None,
            outbox: Outbox::new(alloc),
        }
    }

    // Takes a stream that is being opened.
    pub(crate) fn begin(&mut self, stream: TcpStream) {
        self.state = LineState::Opening;
        self.stream = Some(stream);
    }

    // Ends the connection, and closes its stream.
    pub(crate) fn end(&mut self) {
        self.state = LineState::Ended;
        self.stream = None;
    }

    // Returns whether its stream, which is being opened, is open now; an error if it can't be
    // opened.
    pub(crate) fn is_opened(&self) -> Result<bool, ()> {
        let Some(stream) = &self.stream else {
            return Err(());
        };
        match stream.take_error() {
            Ok(None) => Ok(stream.peer_addr().is_ok()),
            _ => Err(()),
        }
    }

    // Adds a message, which is written as soon as the stream takes it.
    pub(crate) fn send(&mut self, bytes: &[u8]) -> Result<(), AllocError> {
        self.outbox.add(bytes)?;
        if self.state == LineState::Open {
            self.write();
        }
        Ok(())
    }

    // Writes what the stream takes. If the write fails, the connection ends. Returns whether all
    // messages are written.
    pub(crate) fn write(&mut self) -> bool {
        let Some(stream) = &mut self.stream else {
            return false;
        };
        match self.outbox.write_to(stream) {
            Written::All => true,
            Written::Some | Written::Blocked => false,
            Written::Failed => {
                self.end();
                false
            }
        }
    }

    // Reads into a buffer that is not empty.
    pub(crate) fn read(&mut self, buffer: &mut [u8]) -> WireRead
        requires { 0 < length buffer.now }
        ensures { IsWithin result buffer.new }
    {
        match (self.state, &mut self.stream) {
            (LineState::Open, Some(stream)) => match stream.read(buffer) {
                Ok(count) if count > 0 => WireRead::Bytes(count),
                Err(error) if error.kind() == ErrorKind::WouldBlock => WireRead::Blocked,
                _ => WireRead::Ended,
            },
            (LineState::Ended, _) => WireRead::Ended,
            _ => WireRead::Blocked,
        }
    }

    // Goes on with closing: writes the messages that are left, then the end, and drops what has
    // come. The connection ends with the peer's end, or with an error.
    pub(crate) fn close(&mut self) {
        if self.state == LineState::Closing {
            if self.write() {
                self.finish();
            }
        }
        if self.state == LineState::Draining {
            self.drain();
        }
    }

    // Writes the end of the messages. From then on what comes is dropped.
    fn finish(&mut self) {
        match &self.stream {
            Some(stream) if stream.shutdown(Shutdown::Write).is_ok() => {
                self.state = LineState::Draining;
            }
            _ => self.end(),
        }
    }

    // Drops what has come. The connection ends with the peer's end.
    fn drain(&mut self) {
        let Some(stream) = &mut self.stream else {
            return;
        };
        let mut dropped = [0; DROPPED];
        'drops: for _ in 0..MAX_DROPS {
            match stream.read(&mut dropped) {
                Ok(count) if count > 0 => {}
                Err(error) if error.kind() == ErrorKind::WouldBlock => return,
                _ => break 'drops,
            }
        }
        self.end();
    }
}
