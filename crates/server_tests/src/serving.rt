//! What no contract states: the end of each session is reported to its output, and that of the
//! listener to the caller. tests/serving.py and tests/hostile.py have clients over TCP that are
//! served in parallel, one too many, one whose stream can't be set up, and all of the meter's
//! sources.
ghost use Rattle.std.specs.Prelude.{◌≡◌};
ghost use Rattle.acse_ber.specs.Password.{IsPassword};

mod sources;

use crate::ports::{kept_count, new_lock};
use cosem_axdr::Octets;
use meter_server::{ListenFault, Listener, Observer, ServeFault, Served, SessionEnd, serve_all};
use shared_meter::Kept;
use sources::Silent;
use std::alloc::{AllocError, Global};
use std::io;
use std::io::{ErrorKind, Read, Write};
use std::sync::atomic::{AtomicU8, Ordering};
use std::sync::{Arc, Wait};
use std::test::Fail;
use std::thread::Threads;
use turn_lock::Port;

/// The result of serving, and the number of events that the meter kept, or `None` if its lock is
/// busy.
type ServingResult = (Result<Served, ServeFault>, Option<u16>);

fn serve_by<L: Listener, R: Threads + Wait + Copy + Send + 'static>(
    rt: &R,
    alloc: Global,
    listener: &mut L,
    port: Port<Kept>,
    password: &Octets,
    limit: u64,
) -> (Port<Kept>, Result<Served, ServeFault>)
    requires { IsPassword password.now }
    ensures { result.0.lock ≡ port.lock }
{
    match serve_all(
        rt, alloc, listener, Silent, Silent, Silent, port, password, limit,
    ) {
        Ok((port, served)) => (port, Ok(served)),
        Err((port, fault)) => (port, Err(fault)),
    }
}

/// Serves these clients with a new meter, whose management client has this password.
fn serve_new<L: Listener, R: Threads + Wait + Copy + Send + 'static>(
    rt: &R,
    alloc: Global,
    listener: &mut L,
    password: &Octets,
    limit: u64,
) -> Result<ServingResult, AllocError>
    requires { IsPassword password.now }
{
    let (shared, port) = new_lock(alloc, 1000)?;
    let (port, served) = serve_by(rt, alloc, listener, port, password, limit);
    Ok((served, kept_count(shared, port)))
}

/// Serves these clients with a new meter, whose management client has the password 12345678.
fn serve<L: Listener, R: Threads + Wait + Copy + Send + 'static>(
    rt: &R,
    alloc: Global,
    listener: &mut L,
    limit: u64,
) -> Result<ServingResult, AllocError> {
    let password = Octets::from_slice(alloc, b"12345678")?;
    let served = serve_new(rt, alloc, listener, &password, limit);
    drop(password);
    served
}

/// A frame of no payload, from port 16 to port 1.
static WHOLE_FRAME: [u8; 8] = [0, 1, 0, 16, 0, 1, 0, 0];

/// A frame whose header announces 5 bytes; only one arrives.
static CUT_FRAME: [u8; 9] = [0, 1, 0, 16, 0, 1, 0, 5, 0xC0];

/// A header of version 2.
static OTHER_VERSION: [u8; 8] = [0, 2, 0, 16, 0, 1, 0, 0];

/// A header that announces 1,025 bytes.
static TOO_LONG: [u8; 8] = [0, 1, 0, 16, 0, 1, 4, 1];

/// The number of clients.
const CLIENTS: usize = 5;

/// Returns what a client sends, and whether its connection then fails; if not, it is closed.
fn sent_by(client: usize) -> Option<(&'static [u8], bool)> {
    match client {
        0 => Some((&WHOLE_FRAME, false)),
        1 => Some((&CUT_FRAME, false)),
        2 => Some((&OTHER_VERSION, false)),
        3 => Some((&TOO_LONG, false)),
        4 => Some((&WHOLE_FRAME, true)),
        _ => None,
    }
}

/// Returns a number for each end: 1 to 4, or 10 more than that of a fault. 0 means no end.
fn number_of(end: &Result<SessionEnd, ServeFault>) -> u8 {
    match end {
        Ok(SessionEnd::Closed) => 1,
        Ok(SessionEnd::Cut) => 2,
        Ok(SessionEnd::BadVersion) => 3,
        Ok(SessionEnd::TooLong) => 4,
        Err(fault) => 10 + *fault as u8,
    }
}

/// The numbers of the ends that outputs received, by client.
#[derive(Drop)]
struct Ends {
    numbers: [AtomicU8; CLIENTS],
}

impl Ends {
    fn new() -> Ends {
        Ends {
            numbers: [
                AtomicU8::new(0),
                AtomicU8::new(0),
                AtomicU8::new(0),
                AtomicU8::new(0),
                AtomicU8::new(0),
            ],
        }
    }

    /// Returns the numbers, by client.
    fn all(&self) -> [u8; CLIENTS] {
        [
            self.numbers[0].load(Ordering::SeqCst),
            self.numbers[1].load(Ordering::SeqCst),
            self.numbers[2].load(Ordering::SeqCst),
            self.numbers[3].load(Ordering::SeqCst),
            self.numbers[4].load(Ordering::SeqCst),
        ]
    }
}

/// Stores the end of the session of one client, and drops what is written to it.
#[derive(Drop)]
struct Recorded {
    ends: Arc<Ends, Global>,
    client: usize,
}

impl Write for Recorded {
    fn write(&mut self, bytes: &[u8]) -> io::Result<usize> {
        Ok(bytes.len())
    }

    fn flush(&mut self) -> io::Result<()> {
        Ok(())
    }
}

impl Observer for Recorded {
    fn on_session_end(&self, end: &Result<SessionEnd, ServeFault>) {
        if let Some(number) = self.ends.numbers.get(self.client) {
            number.store(number_of(end), Ordering::SeqCst);
        }
    }
}

/// What one client sends.
#[derive(Drop)]
struct Sending {
    left: &'static [u8],
    fails: bool,
}

impl Read for Sending {
    fn read(&mut self, buffer: &mut [u8]) -> io::Result<usize> {
        if self.left.is_empty() && self.fails {
            return Err(io::Error::from(ErrorKind::ConnectionReset));
        }
        let count = self.left.len().min(buffer.len());
        buffer[..count].copy_from_slice(&self.left[..count]);
        self.left = &self.left[count..];
        Ok(count)
    }
}

/// Accepts each client once, in order.
#[derive(Drop)]
struct Queue {
    ends: Arc<Ends, Global>,
    next: usize,
}

impl Listener for Queue {
    type Input = Sending;

    type Output = Recorded;

    fn accept(&mut self) -> Result<Option<(Sending, Recorded)>, ListenFault> {
        let (left, fails) = sent_by(self.next).ok_or(ListenFault)?;
        let ends = Arc::try_clone(&self.ends).map_err(|_| ListenFault)?;
        let recorded = Recorded {
            ends,
            client: self.next,
        };
        self.next = self.next.saturating_add(1);
        Ok(Some((Sending { left, fails }, recorded)))
    }
}

/// Serves the five clients, and further ones up to a limit. Returns the result with the number of
/// events that the meter kept, and the numbers of the ends.
fn serve_five<R: Threads + Wait + Copy + Send + 'static>(
    rt: &R,
    alloc: Global,
    limit: u64,
) -> Result<(ServingResult, [u8; CLIENTS]), Fail> {
    let ends = Arc::new(alloc, Ends::new())?;
    let mut queue = Queue {
        ends: Arc::try_clone(&ends)?,
        next: 0,
    };
    let came = serve(rt, alloc, &mut queue, limit);
    let numbers = ends.all();
    drop(queue);
    drop(ends);
    Ok((came?, numbers))
}

// Closed, cut, another version, too long, and the fault of a read.
const NUMBERS: [u8; CLIENTS] = [1, 2, 3, 4, 11];

#[test]
fn an_observer_receives_the_end_of_its_session(rt: HostRuntime) -> Result<(), Fail> {
    let five = Served {
        served: 5,
        turned_away: 0,
    };
    let (served, numbers) = serve_five(&rt, rt.alloc(), 5)?;
    assert!(rt; served == (Ok(five), Some(0)) && numbers == NUMBERS);
    Ok(())
}

#[test]
fn ends_where_the_listener_fails(rt: HostRuntime) -> Result<(), Fail> {
    let (served, numbers) = serve_five(&rt, rt.alloc(), 6)?;
    assert!(rt; served == (Err(ServeFault::Listen), Some(0)) && numbers == NUMBERS);
    Ok(())
}
