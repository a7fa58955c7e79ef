//! A server that runs out of memory accepts no client, or serves one of them as it does with enough
//! memory.
ghost use Rattle.std.specs.Prelude.{◌≡◌};
ghost use Rattle.acse_ber.specs.Password.{IsPassword};

use super::RefusedAndStood;
use super::ports::kept_count;
use crate::meters::new_lock;
use cosem_axdr::Octets;
use lane_sampler::Block;
use meter_server::{
    BlockSource, ButtonSource, Kept, ListenFault, Listener, MomentSource, Observer, Port,
    ServeFault, Served, serve_all,
};
use std::alloc::{AllocError, Global};
use std::io;
use std::io::Write;
use std::process::Abort;
use std::sync::atomic::{AtomicBool, AtomicUsize, Ordering};
use std::sync::{Arc, Wait};
use std::test::Fail;
use std::thread::Threads;

/// The public client's AARQ.
static ASKED: [u8; 39] = [
    0x00, 0x01, 0x00, 0x10, 0x00, 0x01, 0x00, 0x1F, 0x60, 0x1D, 0xA1, 0x09, 0x06, 0x07, 0x60, 0x85,
    0x74, 0x05, 0x08, 0x01, 0x01, 0xBE, 0x10, 0x04, 0x0E, 0x01, 0x00, 0x00, 0x00, 0x06, 0x5F, 0x1F,
    0x04, 0x00, 0x00, 0x7E, 0x1F, 0x04, 0xB0,
];

/// The AARE that answers the public client's AARQ.
static ANSWER: [u8; 51] = [
    0x00, 0x01, 0x00, 0x01, 0x00, 0x10, 0x00, 0x2B, 0x61, 0x29, 0xA1, 0x09, 0x06, 0x07, 0x60, 0x85,
    0x74, 0x05, 0x08, 0x01, 0x01, 0xA2, 0x03, 0x02, 0x01, 0x00, 0xA3, 0x05, 0xA1, 0x03, 0x02, 0x01,
    0x00, 0xBE, 0x10, 0x04, 0x0E, 0x08, 0x00, 0x06, 0x5F, 0x1F, 0x04, 0x00, 0x00, 0x1E, 0x19, 0x04,
    0x00, 0x00, 0x07,
];

/// The bytes that two clients received. Neither waits for the other.
#[derive(Drop)]
struct Clients {
    accepted: AtomicUsize,
    answered: AtomicUsize,
    went_wrong: AtomicBool,
}

impl Clients {
    fn new() -> Clients {
        Clients {
            accepted: AtomicUsize::new(0),
            answered: AtomicUsize::new(0),
            went_wrong: AtomicBool::new(false),
        }
    }

    /// Returns the number of clients that were accepted, and of those that received the whole
    /// response. Returns `None` if one received anything else.
    fn counts(&self) -> Option<(usize, usize)> {
        if self.went_wrong.load(Ordering::SeqCst) {
            return None;
        }
        Some((
            self.accepted.load(Ordering::SeqCst),
            self.answered.load(Ordering::SeqCst),
        ))
    }
}

/// The response that a client expects.
#[derive(Drop)]
struct AnswerChecker {
    clients: Arc<Clients, Global>,
    at: usize,
}

impl Write for AnswerChecker {
    fn write(&mut self, bytes: &[u8]) -> io::Result<usize> {
        let end = self.at.saturating_add(bytes.len());
        if ANSWER.get(self.at..end) != Some(bytes) {
            self.clients.went_wrong.store(true, Ordering::SeqCst);
        }
        if end == ANSWER.len() {
            self.clients.answered.fetch_add(1, Ordering::SeqCst);
        }
        self.at = end;
        Ok(bytes.len())
    }

    fn flush(&mut self) -> io::Result<()> {
        Ok(())
    }
}

impl Observer for AnswerChecker {}

/// Accepts clients that ask for an association and close their connections.
#[derive(Drop)]
struct ClientListener {
    clients: Arc<Clients, Global>,
}

impl Listener for ClientListener {
    type Input = &'static [u8];

    type Output = AnswerChecker;

    fn accept(&mut self) -> Result<Option<(&'static [u8], AnswerChecker)>, ListenFault> {
        let clients = Arc::try_clone(&self.clients).map_err(|_| ListenFault)?;
        self.clients.accepted.fetch_add(1, Ordering::SeqCst);
        Ok(Some((&ASKED, AnswerChecker { clients, at: 0 })))
    }
}

/// A meter without samples and clock, whose button is not pressed.
#[derive(Drop)]
struct Still;

impl BlockSource for Still {
    fn next_block(&mut self) -> Option<Block> {
        None
    }
}

impl MomentSource for Still {
    fn next_moment(&mut self) -> Option<u32> {
        None
    }
}

impl ButtonSource for Still {
    fn pressed(&mut self) -> bool {
        false
    }
}

/// Serves two clients.
fn serve<R: Threads + Wait + Copy + Send + 'static>(
    rt: &R,
    alloc: Global,
    listener: &mut ClientListener,
    port: Port<Kept>,
    password: &Octets,
) -> (Port<Kept>, Result<Served, ServeFault>)
    requires { IsPassword password.now }
    ensures { result.0.lock ≡ port.lock }
{
    match serve_all(rt, alloc, listener, Still, Still, Still, port, password, 2) {
        Ok((port, served)) => (port, Ok(served)),
        Err((port, fault)) => (port, Err(fault)),
    }
}

/// The result of serving two clients of a new meter, and the number of events that the meter kept.
type ServingResult = (Result<Served, ServeFault>, Option<u16>);

/// Serves two clients of a new meter.
fn serve_new<R: Threads + Wait + Abort + Copy + Send + 'static>(
    rt: &R,
    alloc: Global,
    listener: &mut ClientListener,
    password: &Octets,
) -> Result<ServingResult, AllocError>
    requires { IsPassword password.now }
{
    let (shared, port) = new_lock(rt, alloc, 2)?;
    let (port, served) = serve(rt, alloc, listener, port, password);
    Ok((served, kept_count(shared, port)))
}

/// Serves these clients, and returns the result.
fn open<R: Threads + Wait + Abort + Copy + Send + 'static>(
    rt: &R,
    alloc: Global,
    clients: &Arc<Clients, Global>,
    password: &Octets,
) -> Result<ServingResult, AllocError>
    requires { IsPassword password.now }
{
    let mut listener = ClientListener {
        clients: Arc::try_clone(clients)?,
    };
    let served = serve_new(rt, alloc, &mut listener, password);
    drop(listener);
    served
}

/// Returns whether no client was accepted and the fault is out of memory, or one was served as with
/// enough memory.
fn is_served_or_refused(
    served: &Result<Served, ServeFault>,
    counts: Option<(usize, usize)>,
) -> bool {
    match counts {
        None => false,
        Some((0, _)) => *served == Err(ServeFault::Memory),
        Some((_, answered)) => {
            answered > 0 && (*served == Err(ServeFault::Memory) || *served == Ok(BOTH))
        }
    }
}

/// The counts if both clients were served.
const BOTH: Served = Served {
    served: 2,
    turned_away: 0,
};

#[test]
fn serve_all_opens_two_sessions(rt: HostRuntime) -> Result<(), Fail> {
    let alloc = rt.alloc();
    let password = Octets::from_slice(alloc, b"12345678")?;
    let clients = Arc::new(alloc, Clients::new()).map_err(|_| AllocError)?;
    let came = open(&rt, alloc, &clients, &password);
    let counts = clients.counts();
    drop(clients);
    drop(password);
    let (served, events) = came?;
    assert!(rt; events == Some(0));
    if (served, counts) == (Ok(BOTH), Some((2, 2))) {
        return Ok(());
    }
    assert!(rt; is_served_or_refused(&served, counts));
    Err(RefusedAndStood)?
}
