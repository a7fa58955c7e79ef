//! `CampaignSockets`: the sockets of a campaign's connections.
use crate::errors::is_shortage;
use crate::hosts::Hosts;
use crate::line::{LineState, SocketLine};
use crate::timers::{Timer, Timers};
use campaign_loop::{Waited, WireFault, WireRead, Wires};
use cosem_axdr::Octets;
use mio::net::TcpStream;
use mio::{Events, Interest, Poll, Token};
use std::alloc::{AllocError, Global};
use std::collections::VecDeque;
use std::io;
use std::net::{Net, SocketAddr};
use std::sync::Wait;
use std::time::{Clock, Duration, Instant};

// The maximum number of connections that are being opened.
const WINDOW: usize = 512;

// The maximum number of events that are taken at once.
const MAX_EVENTS: usize = 1_024;

// The maximum number of IP addresses of a host name.
const MAX_ADDRESSES: u32 = 33;

// The time for which a connection that was closed is drained, in milliseconds.
const DRAINING: u64 = 5_000;

/// The limits of time of each connection, in milliseconds.
#[derive(Clone, Copy, Debug, PartialEq, Eq)]
pub struct ConnectionLimits {
    /// The limit of its opening, for each IP address of a host name.
    pub connect: u64,
    /// The limit of the whole connection, from then on.
    pub answer: u64,
}

/// The sockets of a campaign's connections, each named by the place of its job.
#[derive(Drop)]
pub struct CampaignSockets<R> {
    rt: R,
    alloc: Global,
    limits: ConnectionLimits,
    poll: Poll,
    events: Events,
    began: Instant,
    // The present moment, in milliseconds since then.
    now: u64,
    hosts: Hosts,
    // The connections by their places.
    lines: Vec<Option<Box<SocketLine>>>,
    // The number of connections that have not been removed, and of those that are being opened.
    count: usize,
    opening: usize,
    // Which places had an open connection.
    reached: Vec<bool>,
    // Whether a connection was removed since the places that wait were tried.
    has_freed: bool,
    // Whether a place could not be reported, out of memory.
    has_failed: bool,
    // The places that wait for a descriptor.
    waiting: VecDeque<u32>,
    // The places of the events that are being processed.
    places: Vec<u32>,
    // The places to be reported: those whose connections can go on, or have ended unasked.
    due: Vec<u32>,
    // When connections are late that are being opened, are open, are being closed.
    openings: Timers,
    answers: Timers,
    drainings: Timers,
}

// Returns the connection of a place.
fn line_at(lines: &mut Vec<Option<Box<SocketLine>>>, at: u32) -> Option<&mut SocketLine> {
    match lines.get_mut(at as usize) {
        Some(Some(line)) => Some(line),
        _ => None,
    }
}

// Returns the state of the connection of a place: `Ended` if there is none.
fn state_at(lines: &[Option<Box<SocketLine>>], at: u32) -> LineState {
    match lines.get(at as usize) {
        Some(Some(line)) => line.state,
        _ => LineState::Ended,
    }
}

// Returns the earlier one of two moments.
fn earlier(one: Option<u64>, other: Option<u64>) -> Option<u64> {
    match (one, other) {
        (Some(one), Some(other)) => Some(one.min(other)),
        (Some(one), None) => Some(one),
        (None, other) => other,
    }
}

impl<R: Net + Clock + Copy + Drop> CampaignSockets<R> {
    /// Prepares the connections of the places below `places`, of which at most `limit` are open at
    /// a time. Errors: those of the operating system for epoll and the clock, and `OutOfMemory`.
    pub fn new(
        rt: R,
        alloc: Global,
        limits: ConnectionLimits,
        places: usize,
        limit: usize,
    ) -> io::Result<CampaignSockets<R>> {
        let mut lines = Vec::new(alloc);
        lines.resize_with(places, || None)?;
        let mut reached = Vec::new(alloc);
        reached.resize(places, false)?;
        Ok(CampaignSockets {
            rt,
            alloc,
            limits,
            poll: Poll::new(&rt)?,
            events: Events::with_capacity(alloc, MAX_EVENTS)?,
            began: Instant::now(&rt)?,
            now: 0,
            hosts: Hosts::new(alloc),
            lines,
            count: 0,
            opening: 0,
            reached,
            has_freed: false,
            has_failed: false,
            waiting: VecDeque::new(alloc),
            places: Vec::with_capacity(alloc, MAX_EVENTS)?,
            due: Vec::with_capacity(alloc, limit.saturating_mul(2))?,
            openings: Timers::new(alloc),
            answers: Timers::new(alloc),
            drainings: Timers::new(alloc),
        })
    }

    /// Looks up the host name of an address, which may take as long as the system takes. Out of
    /// memory, the name counts as unknown. Errors: `AllocError`.
    pub fn look_up(&mut self, address: &Octets) -> Result<(), AllocError> {
        self.hosts.add(&self.rt, self.alloc, address.as_slice())
    }

    /// Waits until every connection that was closed is drained, at most five seconds.
    pub fn finish<W: Wait>(&mut self, wait: &W) -> Result<(), WireFault> {
        let mut late = Vec::new(self.alloc);
        'turns: for _ in wait.forever() {
            if self.count == 0 {
                break 'turns;
            }
            self.wait(true, &mut late)?;
            late.clear();
        }
        Ok(())
    }

    // Notes that the connection of a place is open.
    fn note_reached(&mut self, at: u32) {
        if let Some(reached) = self.reached.get_mut(at as usize) {
            *reached = true;
        }
    }

    // Notes that a place is to be reported.
    fn report(&mut self, at: u32) {
        if self.due.push(at).is_err() {
            self.has_failed = true;
        }
    }

    // Removes the connection of a place, and closes its stream.
    fn remove(&mut self, at: u32) {
        if let Some(place) = self.lines.get_mut(at as usize) {
            if let Some(line) = place.take() {
                if line.state == LineState::Opening {
                    self.opening = self.opening.saturating_sub(1);
                }
                self.count = self.count.saturating_sub(1);
                self.has_freed = true;
                drop(line);
            }
        }
    }

    // Begins to connect to an IP address, and returns the stream.
    fn stream(&self, at: u32, address: SocketAddr) -> io::Result<TcpStream> {
        let mut stream = TcpStream::connect(&self.rt, address)?;
        stream.set_nodelay(true)?;
        let both = Interest::READABLE | Interest::WRITABLE;
        self.poll
            .registry()
            .register(&mut stream, Token(at as usize), both)?;
        Ok(stream)
    }

    // Takes the next IP address of a place.
    fn next_address(&mut self, at: u32) -> Option<SocketAddr> {
        match line_at(&mut self.lines, at) {
            Some(line) => line.addresses.pop(),
            None => None,
        }
    }

    // Takes a stream of a place that is being opened.
    fn begin(&mut self, at: u32, stream: TcpStream) {
        let moment = self.now.saturating_add(self.limits.connect);
        if self.openings.set(Timer { at, moment }).is_err() {
            drop(stream);
            self.end(at);
            return;
        }
        match line_at(&mut self.lines, at) {
            Some(line) => {
                line.begin(stream);
                line.moment = moment;
                self.opening = self.opening.saturating_add(1);
            }
            None => drop(stream),
        }
    }

    // Ends the connection of a place unasked.
    fn end(&mut self, at: u32) {
        if let Some(line) = line_at(&mut self.lines, at) {
            line.end();
        }
        self.report(at);
    }

    // Lets a place wait for a descriptor, with the IP address to try then.
    fn keep_waiting(&mut self, at: u32, address: SocketAddr) {
        let is_kept = match line_at(&mut self.lines, at) {
            Some(line) => {
                line.state = LineState::Waiting;
                line.addresses.push(address).is_ok()
            }
            None => false,
        };
        if !is_kept || self.waiting.push_back(at).is_err() {
            self.end(at);
        }
    }

    // Begins to connect to the next IP address of a place. Returns false if it waits for a
    // descriptor. Without a further address the connection ends.
    fn connect(&mut self, at: u32) -> bool {
        for _ in 0..MAX_ADDRESSES {
            let Some(address) = self.next_address(at) else {
                break;
            };
            match self.stream(at, address) {
                Ok(stream) => {
                    self.begin(at, stream);
                    return true;
                }
                Err(error) if is_shortage(&error) && self.count > 1 => {
                    self.keep_waiting(at, address);
                    return false;
                }
                Err(_) => {}
            }
        }
        self.end(at);
        true
    }

    // Tries the places that wait for a descriptor, if one may be free.
    fn connect_waiting(&mut self) {
        if !self.has_freed {
            return;
        }
        self.has_freed = false;
        for _ in 0..self.waiting.len() {
            match self.waiting.pop_front() {
                Some(at) if state_at(self.lines.as_slice(), at) == LineState::Waiting => {
                    if !self.connect(at) {
                        return;
                    }
                }
                _ => {}
            }
        }
    }

    // Ends the try of an IP address, and begins the next one.
    fn try_next(&mut self, at: u32) {
        self.opening = self.opening.saturating_sub(1);
        if let Some(line) = line_at(&mut self.lines, at) {
            line.end();
        }
        self.connect(at);
    }

    // Processes what epoll reported of a connection that is being opened.
    fn on_opening(&mut self, at: u32) {
        let opened = match line_at(&mut self.lines, at) {
            Some(line) => line.is_opened(),
            None => Ok(false),
        };
        match opened {
            Ok(true) => self.on_opened(at),
            Ok(false) => {}
            Err(()) => self.try_next(at),
        }
    }

    // Writes the messages of a connection that was opened just now.
    fn on_opened(&mut self, at: u32) {
        self.opening = self.opening.saturating_sub(1);
        self.note_reached(at);
        let moment = self.now.saturating_add(self.limits.answer);
        let is_set = self.answers.set(Timer { at, moment }).is_ok();
        match line_at(&mut self.lines, at) {
            Some(line) if is_set => {
                line.state = LineState::Open;
                line.moment = moment;
                self.on_open(at);
            }
            _ => self.end(at),
        }
    }

    // Goes on with a connection that is being closed.
    fn on_closing(&mut self, at: u32) {
        let is_over = match line_at(&mut self.lines, at) {
            Some(line) => {
                line.close();
                line.state == LineState::Ended
            }
            None => false,
        };
        if is_over {
            self.remove(at);
        }
    }

    // Processes what epoll reported of an open connection.
    fn on_open(&mut self, at: u32) {
        if let Some(line) = line_at(&mut self.lines, at) {
            line.write();
        }
        self.report(at);
    }

    // Processes what epoll reported of a connection.
    fn on_event(&mut self, at: u32) {
        match state_at(self.lines.as_slice(), at) {
            LineState::Opening => self.on_opening(at),
            LineState::Open => self.on_open(at),
            LineState::Closing | LineState::Draining => self.on_closing(at),
            LineState::Waiting | LineState::Ended => {}
        }
    }

    // Takes the places of the events, of which there is room for all.
    fn take_events(&mut self) -> Result<(), AllocError> {
        self.places.clear();
        'events: for event in self.events.iter() {
            if let Ok(at) = u32::try_from(event.token().0) {
                self.places.push(at)?;
            }
        }
        Ok(())
    }

    // Returns the place of an event.
    fn place(&self, index: usize) -> Option<u32> {
        self.places.get(index).copied()
    }

    // Processes the events.
    fn process_events(&mut self) -> Result<(), AllocError> {
        self.take_events()?;
        'places: for index in 0..self.places.len() {
            if let Some(at) = self.place(index) {
                self.on_event(at);
            }
        }
        Ok(())
    }

    // Appends the places to be reported. If out of memory, they are reported by the next call.
    fn report_due(&mut self, ready: &mut Vec<u32>) {
        if ready.extend_from_slice(self.due.as_slice()).is_ok() {
            self.due.clear();
        }
    }

    // Takes a timer that is due, if there is one.
    fn take_due(&mut self) -> Option<Timer> {
        if let Some(timer) = self.openings.take_due(self.now) {
            return Some(timer);
        }
        if let Some(timer) = self.answers.take_due(self.now) {
            return Some(timer);
        }
        self.drainings.take_due(self.now)
    }

    // Ends what a connection does, if this timer is its last one.
    fn on_due(&mut self, timer: Timer) {
        match line_at(&mut self.lines, timer.at) {
            Some(line) if line.moment == timer.moment => {}
            _ => return,
        }
        match state_at(self.lines.as_slice(), timer.at) {
            LineState::Opening => self.try_next(timer.at),
            LineState::Open => self.end(timer.at),
            LineState::Closing | LineState::Draining => self.remove(timer.at),
            LineState::Waiting | LineState::Ended => {}
        }
    }

    // Ends what is late.
    fn end_late(&mut self) {
        let most = self.openings.len().saturating_add(self.answers.len());
        'timers: for _ in 0..most.saturating_add(self.drainings.len()) {
            match self.take_due() {
                Some(timer) => self.on_due(timer),
                None => return,
            }
        }
    }

    // Reads the clock.
    fn read_clock(&mut self) -> Result<(), WireFault> {
        match self.began.elapsed(&self.rt) {
            Ok(time) => {
                self.now = u64::try_from(time.as_millis()).unwrap_or(u64::MAX);
                Ok(())
            }
            Err(_) => Err(WireFault),
        }
    }

    // Returns how long to wait for an event.
    fn timeout(&self, may_wait: bool) -> Option<Duration> {
        if !may_wait || !self.due.is_empty() {
            return Some(Duration::ZERO);
        }
        let first = earlier(self.openings.first(), self.answers.first());
        match earlier(first, self.drainings.first()) {
            Some(moment) => {
                let left = moment.saturating_sub(self.now).saturating_add(1);
                Some(Duration::from_millis(left))
            }
            None => None,
        }
    }

    // Adds the connection of a place, which then waits for a descriptor.
    fn add(&mut self, at: u32, address: &Octets) -> Result<(), AllocError> {
        let addresses = self.hosts.addresses(self.alloc, address.as_slice())?;
        let line = Box::new(self.alloc, SocketLine::new(self.alloc, addresses))?;
        match self.lines.get_mut(at as usize) {
            Some(place) => {
                *place = Some(line);
                self.count = self.count.saturating_add(1);
                Ok(())
            }
            None => {
                drop(line);
                Ok(())
            }
        }
    }
}

impl<R: Net + Clock + Copy + Drop> Wires for CampaignSockets<R> {
    fn has_room(&self) -> bool {
        self.opening < WINDOW && self.waiting.is_empty()
    }

    fn open(&mut self, at: u32, address: &Octets) {
        match self.add(at, address) {
            Ok(()) => {
                self.connect(at);
            }
            Err(_) => self.report(at),
        }
    }

    fn wait(&mut self, may_wait: bool, ready: &mut Vec<u32>) -> Result<Waited, WireFault> {
        self.read_clock()?;
        self.connect_waiting();
        let timeout = self.timeout(may_wait);
        if self.poll.poll(&mut self.events, timeout).is_err() {
            return Err(WireFault);
        }
        self.read_clock()?;
        if self.process_events().is_err() {
            return Err(WireFault);
        }
        self.end_late();
        self.report_due(ready);
        if self.has_failed {
            Err(WireFault)
        } else {
            Ok(Waited::GoOn)
        }
    }

    fn read(&mut self, at: u32, buffer: &mut [u8]) -> WireRead {
        match line_at(&mut self.lines, at) {
            Some(line) => line.read(buffer),
            None => WireRead::Ended,
        }
    }

    fn send(&mut self, at: u32, text: Octets) {
        // (a connection that ends by its write is reported too: epoll reports nothing more of it)
        let is_open = match line_at(&mut self.lines, at) {
            Some(line) => line.send(text.as_slice()).is_ok() && line.state != LineState::Ended,
            None => true,
        };
        if !is_open {
            self.end(at);
        }
    }

    fn was_open(&self, at: u32) -> bool {
        self.reached.get(at as usize).copied().unwrap_or(false)
    }

    fn close(&mut self, at: u32) {
        let moment = self.now.saturating_add(self.limits.answer.min(DRAINING));
        match state_at(self.lines.as_slice(), at) {
            LineState::Open if self.drainings.set(Timer { at, moment }).is_ok() => {
                if let Some(line) = line_at(&mut self.lines, at) {
                    line.state = LineState::Closing;
                    line.moment = moment;
                }
                self.on_closing(at);
            }
            _ => self.remove(at),
        }
    }
}
