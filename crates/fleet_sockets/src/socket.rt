//! `Socket`: the TCP connection of a client.
ghost use Rattle.std.specs.Prelude.{None, if◌then◌else◌};

use fleet_links::{Received, Sent, Stream};
use mio::net::TcpStream;
use std::io::{ErrorKind, Read, Write};

/// A connection of a client, and two flags that change when it blocks and when it ends. That of a
/// slow meter blocks once after a write, so that a request that has just arrived is delayed too.
#[derive(Drop)]
pub struct Socket {
    stream: TcpStream,
    has_blocked: bool,
    has_ended: bool,
    // Whether its meter is slow.
    is_slow: bool,
    // Whether the last read took all bytes that had arrived.
    is_drained: bool,
    // Whether the next read blocks.
    is_resting: bool,
}

impl Socket {
    // Returns the socket of a connection that neither has blocked nor has ended.
    pub(crate) fn new(stream: TcpStream, is_slow: bool) -> Socket {
        Socket {
            stream,
            has_blocked: false,
            has_ended: false,
            is_slow,
            is_drained: false,
            is_resting: false,
        }
    }
}

impl Stream for Socket {
    ghost use Rattle.fleet_links.specs.Streams.{StreamState};

    ghost state = { λ s. record {
      arrived = None;
      written = None;
      blocks = if s.has_blocked then 1 else 0;
      ends = if s.has_ended then 1 else 0;
    } };

    fn read(&mut self, buffer: &mut [u8]) -> Received {
        if self.is_resting {
            self.is_resting = false;
            self.has_blocked = !self.has_blocked;
            return Received::Blocked;
        }
        match self.stream.read(buffer) {
            Ok(count) if count > 0 => {
                self.is_drained = count < buffer.len();
                Received::Bytes(count)
            }
            Err(error) if error.kind() == ErrorKind::WouldBlock => {
                self.has_blocked = !self.has_blocked;
                Received::Blocked
            }
            _ => {
                self.has_ended = !self.has_ended;
                Received::Ended
            }
        }
    }

    fn write(&mut self, bytes: &[u8]) -> Sent {
        match self.stream.write(bytes) {
            Ok(count) if count > 0 => {
                self.is_resting = self.is_slow && self.is_drained;
                Sent::Bytes(count)
            }
            Err(error) if error.kind() == ErrorKind::WouldBlock => {
                self.has_blocked = !self.has_blocked;
                Sent::Blocked
            }
            _ => {
                self.has_ended = !self.has_ended;
                Sent::Failed
            }
        }
    }
}
