//! Connections that return the bytes of a script.
ghost use Rattle.std.specs.Prelude.{◌≤◌, length, Some};
ghost use Rattle.head_end.specs.Connections.{Forecast, ended};

use crate::meters::{DONE, REJECTED};
use cosem_axdr::Octets;
use counted_io::StreamFault;
use head_end::{ConnectFault, Connection, Connector};

/// Returns its bytes in pieces of 7, and then ends. What is written is dropped.
#[derive(Drop)]
pub(crate) struct Script {
    bytes: &'static [u8],
}

impl Connection for Script {
    fn read(&mut self, buffer: &mut [u8]) -> Result<usize, StreamFault> {
        let count = self.bytes.len().min(buffer.len()).min(7);
        buffer[..count].copy_from_slice(&self.bytes[..count]);
        self.bytes = &self.bytes[count..];
        Ok(count)
    }

    fn write_all(&mut self, _bytes: &[u8]) -> Result<(), StreamFault> {
        Ok(())
    }
}

/// Two meters, m1 and m2.
#[derive(Drop)]
pub(crate) struct Meters;

impl Connector for Meters {
    type Connection = Script;

    fn connect(&self, address: &Octets) -> Result<Script, ConnectFault> {
        let bytes = bytes_of(address.as_slice()).ok_or(ConnectFault)?;
        Ok(Script { bytes })
    }
}

// Returns the bytes that the meter with this address sends, if there is such a meter.
fn bytes_of(address: &[u8]) -> Option<&'static [u8]> {
    if address == b"m1".as_slice() {
        Some(&DONE)
    } else if address == b"m2".as_slice() {
        Some(&REJECTED)
    } else {
        None
    }
}

/// A connection that lists its bytes to contracts, returns them at once, and then ends.
#[derive(Drop)]
pub(crate) struct Telling {
    bytes: &'static [u8],
    reads: u32,
    ghost small: { length bytes.now ≤ 1024 },
}

impl Connection for Telling {
    ghost forecast = { λ t. Some (record { reads = t.reads; bytes = t.bytes.now; stop = ended }) };

    fn read(&mut self, buffer: &mut [u8]) -> Result<usize, StreamFault> {
        let count = self.bytes.len().min(buffer.len());
        buffer[..count].copy_from_slice(&self.bytes[..count]);
        self.bytes = &self.bytes[count..];
        self.reads = self.reads.saturating_sub(1);
        Ok(count)
    }

    fn write_all(&mut self, _bytes: &[u8]) -> Result<(), StreamFault> {
        Ok(())
    }
}

/// A meter at each address, which sends the same bytes.
#[derive(Drop)]
pub(crate) struct Everywhere {
    bytes: &'static [u8],
    ghost small: { length bytes.now ≤ 1024 },
}

impl Everywhere {
    /// Returns meters that send these bytes, at most 1,024.
    pub(crate) fn new(bytes: &'static [u8]) -> Everywhere
        requires { length bytes.now ≤ 1024 }
    {
        Everywhere { bytes }
    }
}

impl Connector for Everywhere {
    type Connection = Telling;

    ghost tells = { λ meter address.
        Some (record { reads = 65536; bytes = meter.bytes.now; stop = ended }) };

    fn connect(&self, _address: &Octets) -> Result<Telling, ConnectFault> {
        Ok(Telling {
            bytes: self.bytes,
            reads: 65_536,
        })
    }
}
