//! `FleetSockets`: the listening socket and the connections of a fleet, over epoll, when they were
//! last active, the faults of their meters, and the console on standard input.
ghost use Rattle.std.specs.Prelude.{◌≡◌, ◌++◌, ℕ, List, None, IfOk};
ghost use Rattle.fleet_sockets.specs.Bound.{IsBound};

use crate::activity::ActivityTimes;
use crate::socket::Socket;
use fleet_console::{ConsoleInput, FleetConsole};
use fleet_faults::{Delays, FaultPlan, FaultyStream, InjectedFault};
use fleet_meters::Fleet;
use meter_fleet::{Network, NetworkFault, NextClient};
use mio::net::{TcpListener, TcpStream};
use mio::unix::SourceFd;
use mio::{Events, Interest, Poll, Token};
use std::alloc::Global;
use std::fs::{File, Files};
use std::io;
use std::io::{ErrorKind, Stdin, Stdout};
use std::net::{Net, SocketAddr};
use std::time::{Clock, Duration, Instant};

// The name of the listener in its events. No connection has this key.
const LISTENER: Token = Token(usize::MAX);

// The name of standard input in its events. No connection has this key.
const INPUT: Token = Token(usize::MAX - 1);

// The descriptor of standard input.
const STANDARD_INPUT: i32 = 0;

// The maximum number of events that are taken at once.
const MAX_EVENTS: usize = 1_024;

// The time between two searches for idle connections, in milliseconds.
const SEARCH_INTERVAL: u64 = 1_000;

// The time by which the events of slow connections are delayed, in milliseconds.
const DELAY: u64 = 2_000;

// The time between two searches for delayed events that must be reported, in milliseconds.
const DUE_INTERVAL: u64 = 50;

// The time after which clients are tried again that could not be accepted, in milliseconds.
const RETRY_INTERVAL: u64 = 100;

// The console on standard input.
#[derive(Drop)]
struct InputConsole<R> {
    console: FleetConsole<Stdin, Stdout, R>,
    // Whether epoll reports when it has bytes; otherwise a read of it never blocks, as of a file.
    is_polled: bool,
    // Whether the console can go on: epoll has reported bytes that were not read, or the console is
    // busy.
    is_ready: bool,
}

/// The limits of time of each connection, in seconds; 0 means none.
#[derive(Clone, Copy)]
pub struct TimeLimits {
    /// The longest time in which epoll reports nothing of it: no bytes of the client, and no new
    /// space for bytes to it.
    pub inactivity: u32,
    /// The longest time since it was accepted.
    pub session: u32,
}

/// The listening socket, the connections and the console of a fleet.
#[derive(Drop)]
pub struct FleetSockets<R: Clock + Files<File = File> + Eprint + Copy> {
    rt: R,
    poll: Poll,
    events: Events,
    listener: TcpListener,
    // Whether clients may be waiting that could not be accepted, for example because no descriptor
    // is left. Epoll does not report them again.
    has_backlog: bool,
    began: Instant,
    // When the connections were last active, in milliseconds since the start.
    times: ActivityTimes,
    // The time after which a connection is idle, in milliseconds; 0 means never.
    limit: u64,
    // When the connections were accepted, in milliseconds since the start.
    starts: ActivityTimes,
    // The longest time of a connection, in milliseconds; 0 means any.
    longest: u64,
    next_search: u64,
    // Which meters have which fault, and whether some are slow.
    plan: FaultPlan,
    has_slow: bool,
    // Which connections are slow, and their delayed events.
    delays: Delays,
    next_due: u64,
    // The console, until standard input has ended.
    input: Option<InputConsole<R>>,
}

impl<R: Clock + Files<File = File> + Eprint + Copy> FleetSockets<R> {
    /// Listens on an address. The limits are those of each connection; the plan says which meters
    /// have which fault. Errors: those of the operating system for epoll, the socket, the address
    /// and the clock, and `OutOfMemory`.
    pub fn bind(
        rt: R,
        net: &impl Net,
        alloc: Global,
        address: SocketAddr,
        limits: TimeLimits,
        plan: FaultPlan,
        console: FleetConsole<Stdin, Stdout, R>,
    ) -> io::Result<FleetSockets<R>>
        ensures { IfOk result (IsBound limits plan) }
    {
        let poll = Poll::new(net)?;
        let events = Events::with_capacity(alloc, MAX_EVENTS)?;
        let mut listener = TcpListener::bind(net, address)?;
        poll.registry()
            .register(&mut listener, LISTENER, Interest::READABLE)?;
        let polled = poll
            .registry()
            .register(&mut SourceFd(&STANDARD_INPUT), INPUT, Interest::READABLE);
        let has_slow = plan.shares.share(InjectedFault::Slow) > 0;
        Ok(FleetSockets {
            rt,
            poll,
            events,
            listener,
            has_backlog: false,
            began: Instant::now(&rt)?,
            times: ActivityTimes::new(alloc),
            limit: u64::from(limits.inactivity) * 1_000,
            starts: ActivityTimes::new(alloc),
            longest: u64::from(limits.session) * 1_000,
            next_search: 0,
            plan,
            has_slow,
            delays: Delays::new(alloc),
            next_due: 0,
            input: Some(InputConsole {
                console,
                is_polled: polled.is_ok(),
                is_ready: false,
            }),
        })
    }

    /// Returns the address that it listens on. Errors: those of the operating system.
    pub fn local_addr(&self) -> io::Result<SocketAddr> {
        self.listener.local_addr()
    }

    // Returns whether connections have a limit of time.
    fn has_limit(&self) -> bool {
        self.limit > 0 || self.longest > 0
    }

    // Returns the number of milliseconds since the start; 0 without a limit and slow meters.
    fn now(&self) -> Result<u64, NetworkFault> {
        if !self.has_limit() && !self.has_slow {
            return Ok(0);
        }
        match self.began.elapsed(&self.rt) {
            Ok(time) => Ok(u64::try_from(time.as_millis()).unwrap_or(u64::MAX)),
            Err(_) => Err(NetworkFault::Failed),
        }
    }

    // Notes that a connection is accepted now.
    fn note_start(&mut self, key: usize) -> Result<(), NetworkFault> {
        let now = self.now()?;
        if self.limit > 0 && self.times.touch(key, now).is_err() {
            return Err(NetworkFault::Memory);
        }
        if self.longest > 0 && self.starts.touch(key, now).is_err() {
            return Err(NetworkFault::Memory);
        }
        Ok(())
    }

    // Returns whether the console can go on at once.
    fn has_input(&self) -> bool {
        match &self.input {
            Some(input) => input.is_ready || !input.is_polled,
            None => false,
        }
    }

    // Returns how long to wait for an event.
    fn timeout(&self, may_wait: bool) -> Option<Duration> {
        if !may_wait || self.has_input() {
            Some(Duration::ZERO)
        } else if self.has_slow {
            Some(Duration::from_millis(DUE_INTERVAL))
        } else if self.has_backlog {
            Some(Duration::from_millis(RETRY_INTERVAL))
        } else if self.has_limit() {
            Some(Duration::from_millis(SEARCH_INTERVAL))
        } else {
            None
        }
    }

    // Takes the keys of the events, but delays those of slow connections. Returns whether clients
    // are waiting.
    #[tactic(auto, using(crate::proofs::Keys::grown))]
    fn take_events(&mut self, now: u64, ready: &mut Vec<usize>) -> Result<bool, NetworkFault>
        ensures { IfOk result (λ _. (keys : List ℕ) × (ready.new.items ≡ ready.old.items ++ keys)) }
    {
        let mut has_clients = false;
        'events: for event in self.events.iter() {
            if event.token() == LISTENER {
                has_clients = true;
            } else if event.token() == INPUT {
                if let Some(input) = &mut self.input {
                    input.is_ready = true;
                }
            } else {
                let key = event.token().0;
                let due = now.saturating_add(DELAY);
                match self.delays.report(key, due, ready) {
                    Ok(()) => {}
                    Err(_) => return Err(NetworkFault::Memory),
                }
                if self.limit > 0 && self.times.touch(key, now).is_err() {
                    return Err(NetworkFault::Memory);
                }
            }
        }
        Ok(has_clients)
    }

    // Appends the keys of the slow connections whose events must be reported, if it is time for a
    // search.
    fn find_due(&mut self, now: u64, ready: &mut Vec<usize>) -> Result<(), NetworkFault>
        ensures { IfOk result (λ _. (keys : List ℕ) × (ready.new.items ≡ ready.old.items ++ keys)) }
    {
        if !self.has_slow || now < self.next_due {
            return Ok(());
        }
        self.next_due = now.saturating_add(DUE_INTERVAL);
        match self.delays.take_due(now, ready) {
            Ok(()) => Ok(()),
            Err(_) => Err(NetworkFault::Memory),
        }
    }

    // Appends the keys of the connections that are ready: those of the events, and those of the
    // slow connections whose delay is over. Returns whether clients are waiting.
    #[tactic(auto, using(crate::proofs::Keys::joined))]
    fn take_ready(&mut self, now: u64, ready: &mut Vec<usize>) -> Result<bool, NetworkFault>
        ensures { IfOk result (λ _. (keys : List ℕ) × (ready.new.items ≡ ready.old.items ++ keys)) }
    {
        match self.take_events(now, ready) {
            Ok(has_clients) => match self.find_due(now, ready) {
                Ok(()) => Ok(has_clients),
                Err(fault) => Err(fault),
            },
            Err(fault) => Err(fault),
        }
    }

    // Appends the keys of the connections that are idle, and of those that have lasted too long, if
    // it is time for a search.
    fn find_idle(&mut self, now: u64, idle: &mut Vec<usize>) -> Result<(), NetworkFault>
        ensures { IfOk result (λ _. (keys : List ℕ) × (idle.new.items ≡ idle.old.items ++ keys)) }
    {
        if !self.has_limit() || now < self.next_search {
            return Ok(());
        }
        self.next_search = now.saturating_add(SEARCH_INTERVAL);
        if self.limit > 0 && self.times.take_idle(self.limit, now, idle).is_err() {
            return Err(NetworkFault::Memory);
        }
        if self.longest > 0 && self.starts.take_idle(self.longest, now, idle).is_err() {
            return Err(NetworkFault::Memory);
        }
        Ok(())
    }

    // Notes that clients could not be accepted, and must be tried again. The first error of several
    // is reported.
    fn keep_waiting(&mut self, error: &io::Error) {
        if !self.has_backlog {
            let _ = eprintln!(self.rt; "no client can be accepted, trying again: {error}");
        }
        self.has_backlog = true;
    }

    // Notes that clients are accepted, and reports it if they could not be before.
    fn end_waiting(&mut self) {
        if self.has_backlog {
            let _ = eprintln!(self.rt; "clients are accepted again");
        }
        self.has_backlog = false;
    }

    // Registers a connection under a key. Returns its stream, which has the fault of the meter at
    // the address that the client named, and that address.
    fn register(
        &mut self,
        mut stream: TcpStream,
        key: usize,
    ) -> io::Result<(FaultyStream<Socket>, u32)> {
        if self.note_start(key).is_err() {
            return Err(ErrorKind::OutOfMemory.into());
        }
        stream.set_nodelay(true)?;
        let address = match stream.local_addr()? {
            SocketAddr::V4(address) => address.ip().to_bits(),
            SocketAddr::V6(_) => return Err(ErrorKind::AddrNotAvailable.into()),
        };
        let fault = self.plan.fault_at(address.to_be_bytes());
        let is_slow = fault == Some(InjectedFault::Slow);
        if self.has_slow && self.delays.set(key, is_slow).is_err() {
            return Err(ErrorKind::OutOfMemory.into());
        }
        let both = Interest::READABLE | Interest::WRITABLE;
        self.poll
            .registry()
            .register(&mut stream, Token(key), both)?;
        Ok((
            FaultyStream::new(Socket::new(stream, is_slow), fault),
            address,
        ))
    }
}

impl<R: Clock + Files<File = File> + Eprint + Copy> Network for FleetSockets<R> {
    type Stream = FaultyStream<Socket>;

    ghost log = { λ _. None };

    fn wait(
        &mut self,
        may_wait: bool,
        ready: &mut Vec<usize>,
        idle: &mut Vec<usize>,
    ) -> Result<bool, NetworkFault> {
        let timeout = self.timeout(may_wait);
        if self.poll.poll(&mut self.events, timeout).is_err() {
            return Err(NetworkFault::Failed);
        }
        let now = self.now()?;
        let has_clients = self.take_ready(now, ready)?;
        self.find_idle(now, idle)?;
        Ok(has_clients || self.has_backlog)
    }

    fn operate(&mut self, alloc: Global, fleet: &mut Fleet<FaultyStream<Socket>>) {
        let registry = self.poll.registry();
        let source = &mut SourceFd(&STANDARD_INPUT);
        match &mut self.input {
            Some(input) if input.is_ready || !input.is_polled => {
                let next = input.console.run(alloc, fleet);
                input.is_ready = next == ConsoleInput::Busy;
                if next == ConsoleInput::Ended {
                    let _ = registry.deregister(source);
                    self.input = None;
                } else if input.is_polled && !input.is_ready {
                    let _ = registry.reregister(source, INPUT, Interest::READABLE);
                }
            }
            _ => {}
        }
    }

    fn accept(&mut self, key: usize) -> NextClient<FaultyStream<Socket>> {
        match self.listener.accept() {
            Ok((stream, _)) => {
                self.end_waiting();
                match self.register(stream, key) {
                    Ok((socket, address)) => {
                        let named = address.to_be_bytes();
                        NextClient::Client(socket, named)
                    }
                    Err(_) => NextClient::Closed,
                }
            }
            Err(error) => match error.kind() {
                ErrorKind::ConnectionAborted | ErrorKind::Interrupted => NextClient::Closed,
                ErrorKind::WouldBlock => {
                    self.end_waiting();
                    NextClient::None
                }
                _ => {
                    self.keep_waiting(&error);
                    NextClient::None
                }
            },
        }
    }
}
