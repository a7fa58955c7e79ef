//! The traits of a connection to a meter and of a connector that opens it; contracts may predict
//! what it reads.
ghost use Rattle.std.specs.Prelude.{◌≡◌, ℕ, List, Option, None, IfOk};
ghost use Rattle.std.specs.Io.{ReadsAtMost};
ghost use Rattle.head_end.specs.Connections.{Forecast, ReadTells, WriteTells, ConnectTells};
ghost use Rattle.head_end.specs.Logs.{Happening, ReadLogs, WriteLogs, IsNewLog};

use cosem_axdr::Octets;
use counted_io::StreamFault;
use thiserror::Error;

/// A connection to a meter, for reading and writing.
///
/// An implementation may predict the results of its reads (`forecast`). A failed write ends the
/// prediction, so reads and writes are in one trait.
pub trait Connection: Drop {
    // Ghost value: the predicted results of the next reads. The default claims nothing.
    ghost forecast: { Self → Option Forecast } = { λ _. None };

    // Ghost value: the reads and writes so far, in order. The default claims nothing.
    ghost log: { Self → Option (List Happening) } = { λ _. None };

    /// Reads into the buffer, and returns the number of bytes read: 0 at the end of the connection.
    fn read(&mut self, buffer: &mut [u8]) -> Result<usize, StreamFault>
        ensures bound { ReadsAtMost result buffer.new }
        ensures forecast { ReadTells (forecast self.old) result buffer.new (forecast self.new) }
        ensures log { ReadLogs (log self.old) result buffer.new (log self.new) };

    /// Writes all the bytes. If it fails, a prefix of them may have been written.
    fn write_all(&mut self, bytes: &[u8]) -> Result<(), StreamFault>
        ensures forecast { WriteTells (forecast self.old) result (forecast self.new) }
        ensures log { WriteLogs (log self.old) bytes.now result (log self.new) };

    /// Ends the connection in order, after its conversation, so that it is not reset: sends the end
    /// of its bytes, and discards the bytes that still arrive until the other side has ended too or
    /// the connection's time limit is reached. The log does not record this. The default does
    /// nothing.
    fn finish(&mut self)
        ensures log { log self.new ≡ log self.old }
    {}
}

/// Connects to meters, from several threads in parallel.
///
/// An implementation may predict, for each address, the results of the first 65,536 reads of each
/// connection to it (`tells`).
pub trait Connector: Sync {
    type Connection: Connection + Send;

    // Ghost value: the predicted reads of a connection to an address. The default claims nothing.
    ghost tells: { Self → List ℕ → Option Forecast } = { λ _ _. None };

    /// Opens a new connection to the meter at an address.
    fn connect(&self, address: &Octets) -> Result<Self::Connection, ConnectFault>
        ensures forecast { ConnectTells (tells self.now address.now)
            Self.Connection.forecast result }
        ensures log { IfOk result (λ connection. IsNewLog (Self.Connection.log connection)) };
}

/// The error of a failed connect.
#[derive(Clone, Copy, Debug, PartialEq, Eq, Error)]
#[error("no connection")]
pub struct ConnectFault;
