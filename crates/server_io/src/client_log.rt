//! The lines of the log about clients.
use acse_ber::PUBLIC_CLIENT;
use meter_server::{ServeFault, SessionEnd};
use session_log::{AnswerCount, AnswerKind, Log, LogTime, read_answer, reason_of};
use std::alloc::Global;
use std::net::SocketAddr;
use std::sync::atomic::{AtomicBool, Ordering};
use std::time::Clock;
use std::{fmt, io};
use wrapper_frame::{Deframer, Frame};

// The client that a line of the log is about: the number of its connection, counted from 1, and its
// address.
#[derive(Clone, Copy)]
pub(crate) struct LoggedClient {
    pub(crate) number: u64,
    pub(crate) address: SocketAddr,
}

// What a line of the log reports of a client.
#[derive(Drop)]
enum ClientNews<'a> {
    // The client connected.
    Connected,
    // The association is open, of the `public` or of the `management` client.
    Associated(&'static str),
    // The association was refused, with this diagnostic.
    NotAssociated(u8),
    // The session ended in this way, after this number of answers to requests.
    Ended(&'a Result<SessionEnd, ServeFault>, AnswerCount),
    // All sessions were taken, or no port or thread was available.
    TurnedAway,
    // The stream could not be set up, because of this error.
    NotSetUp(&'a io::Error),
}

impl fmt::Display for ClientNews<'_> {
    fn fmt<W: fmt::Write>(&self, f: &mut fmt::Formatter<W>) -> fmt::Result {
        match self {
            ClientNews::Connected => f.write_str("connected"),
            ClientNews::Associated(client) => write!(f, "associated as the {client} client"),
            ClientNews::NotAssociated(diagnostic) => {
                let reason = reason_of(*diagnostic);
                write!(f, "association refused: {reason} (diagnostic {diagnostic})")
            }
            ClientNews::Ended(end, count) => {
                match end {
                    Ok(end) => write!(f, "session ended: {end}")?,
                    Err(fault) => write!(f, "session ended: {fault}")?,
                }
                write!(
                    f,
                    "; {} requests, {} refused",
                    count.requests, count.refused
                )
            }
            ClientNews::TurnedAway => f.write_str("turned away"),
            ClientNews::NotSetUp(error) => {
                write!(f, "turned away: its stream could not be set up: {error}")
            }
        }
    }
}

// Appends a line to a log, if there is one: the time, the client, and what is reported of it.
fn write_line<R: Clock>(rt: &R, log: &Option<Log>, client: LoggedClient, news: &ClientNews<'_>) {
    let Some(log) = log else {
        return;
    };
    let now = LogTime::now(rt);
    let LoggedClient { number, address } = client;
    let _ = eprintln!(log; "{now} client {number}, {address}: {news}");
}

// Reports one client in the log, if there is one: a line when it connects, one for each answer to
// an association request, and one when its session ends or it is turned away.
pub(crate) struct ClientLog<R: Clock + Copy> {
    rt: R,
    alloc: Global,
    client: LoggedClient,
    log: Option<Log>,
    has_ended: AtomicBool,
    // The bytes sent to the client that are not a whole frame yet.
    sent: Deframer,
    count: AnswerCount,
}

impl<R: Clock + Copy> ClientLog<R> {
    // Reports that a client connected, and returns its log.
    pub(crate) fn new(
        rt: R,
        alloc: Global,
        client: LoggedClient,
        log: Option<Log>,
    ) -> ClientLog<R> {
        write_line(&rt, &log, client, &ClientNews::Connected);
        ClientLog {
            rt,
            alloc,
            client,
            log,
            has_ended: AtomicBool::new(false),
            sent: Deframer::new(alloc),
            count: AnswerCount::new(),
        }
    }

    // Counts an answer, and reports one to an association request.
    fn read_frame(&mut self, frame: &Frame) {
        let Ok(answer) = read_answer(self.alloc, frame.payload.as_slice()) else {
            return;
        };
        self.count = self.count.with(answer);
        let news = match answer {
            AnswerKind::Opened if frame.dst == PUBLIC_CLIENT => ClientNews::Associated("public"),
            AnswerKind::Opened => ClientNews::Associated("management"),
            AnswerKind::NotOpened(diagnostic) => ClientNews::NotAssociated(diagnostic),
            AnswerKind::Served | AnswerKind::Refused | AnswerKind::Other => return,
        };
        write_line(&self.rt, &self.log, self.client, &news);
    }

    // Reads the answers in bytes that were sent to the client. Once it runs out of memory, it may
    // count too few.
    pub(crate) fn read_sent(&mut self, bytes: &[u8]) {
        if self.log.is_none() || self.sent.feed(bytes).is_err() {
            return;
        }
        for _ in 0..=bytes.len() {
            match self.sent.take(self.alloc) {
                Ok(Some(frame)) => self.read_frame(&frame),
                _ => return,
            }
        }
    }

    // Reports how the client's session ended, and how many of its requests were answered.
    pub(crate) fn end(&self, end: &Result<SessionEnd, ServeFault>) {
        self.has_ended.store(true, Ordering::SeqCst);
        let news = ClientNews::Ended(end, self.count);
        write_line(&self.rt, &self.log, self.client, &news);
    }

    // Reports that the client is turned away because its stream could not be set up.
    pub(crate) fn turn_away(self, error: &io::Error) {
        self.has_ended.store(true, Ordering::SeqCst);
        let news = ClientNews::NotSetUp(error);
        write_line(&self.rt, &self.log, self.client, &news);
        drop(self);
    }
}

/// Reports the client as turned away if its log is dropped before a session ended.
impl<R: Clock + Copy> Drop for ClientLog<R> {
    fn drop(self) {
        let ClientLog {
            rt,
            client,
            log,
            has_ended,
            sent,
            alloc: _,
            count: _,
        } = self;
        drop(sent);
        if !has_ended.load(Ordering::SeqCst) {
            write_line(&rt, &log, client, &ClientNews::TurnedAway);
        }
        drop(log);
    }
}
