//! Connections over TCP, with time limits.
ghost use Rattle.std.specs.Prelude.{◌≡◌, IfSome};

use crate::connection::{ConnectFault, Connector};
use crate::limited::{LimitedConnection, LimitedStream};
use cosem_axdr::Octets;
use counted_io::{Counted, Reader, StreamFault, Writer};
use std::net::{Net, Shutdown, TcpStream, ToSocketAddrs};
use std::time::{Clock, Duration, Instant};

// The maximum number of bytes that one read discards.
const MAX_DISCARDED: usize = 1_024;

/// The time limits of a connector.
#[derive(Clone, Copy, Debug, PartialEq, Eq)]
pub struct TcpLimits {
    /// The limit of a connect, for each IP address of a name.
    pub connect: Duration,
    /// The limit of a whole connection, from then on.
    pub answer: Duration,
}

/// Connects over TCP. An address is an IP address or a host name, a colon and a port.
///
/// A meter that does not respond blocks its worker for at most the limit of a connect for each IP
/// address of its name, and the limit of the connection; a later response counts as a failure. The
/// look-up of a name has no limit of its own.
#[derive(Debug, Drop)]
pub struct TcpConnector<R> {
    rt: R,
    /// The time limits of each connection.
    pub limits: TcpLimits,
}

impl<R> TcpConnector<R> {
    /// Returns a connector with these limits.
    pub fn new(rt: R, limits: TcpLimits) -> TcpConnector<R>
        ensures { result.limits ≡ limits }
    {
        TcpConnector { rt, limits }
    }
}

impl<R: Net<Stream = TcpStream> + Clock + Clone + Send + Sync + Drop + 'static> Connector
    for TcpConnector<R> {
    type Connection = LimitedConnection<R, TcpStream>;

    fn connect(&self, address: &Octets) -> Result<LimitedConnection<R, TcpStream>, ConnectFault> {
        open(&self.rt, address, self.limits).ok_or(ConnectFault)
    }
}

// std refuses a limit of zero, so a read or a write after the time limit fails.
impl LimitedStream for TcpStream {
    fn read_within(&mut self, limit: Duration, buffer: &mut [u8]) -> Result<usize, StreamFault> {
        if self.set_read_timeout(Some(limit)).is_err() {
            return Err(StreamFault);
        }
        let mut stream = Counted::new(&*self);
        stream.read(buffer)
    }

    fn write_all_within(&mut self, limit: Duration, bytes: &[u8]) -> Result<(), StreamFault> {
        if self.set_write_timeout(Some(limit)).is_err() {
            return Err(StreamFault);
        }
        let mut stream = Counted::new(&*self);
        stream.write_all(bytes)
    }

    fn end_writing(&mut self) {
        let _ = self.shutdown(Shutdown::Write);
    }

    fn discard_within(&mut self, limit: Duration) -> Result<usize, StreamFault> {
        let mut buffer = [0; MAX_DISCARDED];
        self.read_within(limit, &mut buffer)
    }
}

// Opens a connection to one of the IP addresses of an address.
fn open<R: Net<Stream = TcpStream> + Clock + Clone + Drop>(
    rt: &R,
    address: &Octets,
    limits: TcpLimits,
) -> Option<LimitedConnection<R, TcpStream>>
    ensures { IfSome result (λ connection. connection.within ≡ limits.answer) }
{
    let text = str::from_utf8(address.as_slice()).ok()?;
    let own = rt.clone().ok()?;
    let stream = reach(rt, text, limits.connect)?;
    let opened = Instant::now(rt).ok()?;
    Some(LimitedConnection::new(own, stream, opened, limits.answer))
}

// Connects to the IP addresses of a text in turn, and returns the first stream that opens.
fn reach<R: Net<Stream = TcpStream>>(rt: &R, text: &str, within: Duration) -> Option<TcpStream> {
    for place in text.to_socket_addrs(rt).ok()? {
        if let Ok(stream) = TcpStream::connect_timeout(rt, &place, within) {
            return Some(stream);
        }
    }
    None
}
