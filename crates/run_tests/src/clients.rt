//! Clients in memory, and a listener that accepts them in order and then fails.
ghost use Rattle.std.specs.Prelude.{◌≡◌, ◌+◌, ◌^◌, ◌<◌, IsTrue, Some, false};
ghost use Rattle.std.specs.VecDeque.{deque_len};

use meter_server::{ListenFault, Listener, Observer, ServeFault, SessionEnd};
use std::alloc::{AllocError, Global};
use std::collections::VecDeque;
use std::io;
use std::io::{Cursor, Write};
use std::sync::Arc;
use std::sync::atomic::{AtomicU64, Ordering};

/// The bytes that clients were sent, and how their sessions ended, as counts.
#[derive(Drop)]
pub(crate) struct Line {
    right: AtomicU64,
    wrong: AtomicU64,
    closed: AtomicU64,
}

impl Line {
    pub(crate) fn new() -> Line {
        Line {
            right: AtomicU64::new(0),
            wrong: AtomicU64::new(0),
            closed: AtomicU64::new(0),
        }
    }

    /// Returns the number of bytes that were sent as expected, the number of all other bytes sent,
    /// and the number of sessions whose input ended between two frames.
    pub(crate) fn counts(&self) -> (u64, u64, u64) {
        (
            self.right.load(Ordering::SeqCst),
            self.wrong.load(Ordering::SeqCst),
            self.closed.load(Ordering::SeqCst),
        )
    }
}

/// A client's output stream, which compares each byte with the expected one.
#[derive(Drop)]
pub(crate) struct AnswerChecker {
    line: Arc<Line, Global>,
    expected: Vec<u8>,
    at: usize,
}

impl Write for AnswerChecker {
    fn write(&mut self, bytes: &[u8]) -> io::Result<usize> {
        for byte in bytes {
            let is_right = self.expected.as_slice().get(self.at) == Some(byte);
            let count = if is_right {
                &self.line.right
            } else {
                &self.line.wrong
            };
            count.fetch_add(1, Ordering::SeqCst);
            self.at = self.at.saturating_add(1);
        }
        Ok(bytes.len())
    }

    fn flush(&mut self) -> io::Result<()> {
        Ok(())
    }
}

/// Counts the sessions whose input ended between two frames.
impl Observer for AnswerChecker {
    fn on_session_end(&self, end: &Result<SessionEnd, ServeFault>) {
        if *end == Ok(SessionEnd::Closed) {
            self.line.closed.fetch_add(1, Ordering::SeqCst);
        }
    }
}

/// A client: what it sends, and what it is expected to receive.
pub(crate) type Client = (Cursor<Vec<u8>>, AnswerChecker);

/// Returns a client that sends the first text and expects the second one.
pub(crate) fn client(
    line: &Arc<Line, Global>,
    asked: Vec<u8>,
    expected: Vec<u8>,
) -> Result<Client, AllocError> {
    let answered = AnswerChecker {
        line: Arc::try_clone(line)?,
        expected,
        at: 0,
    };
    Ok((Cursor::new(asked), answered))
}

/// A listener that accepts the clients of a list, in order, and then fails.
#[derive(Drop)]
pub(crate) struct ClientListener {
    clients: VecDeque<Client>,
    pub(crate) accepted: u64,
    pub(crate) has_failed: bool,
    ghost fits: { accepted + deque_len clients < 2 ^ 64 },
}

impl ClientListener {
    pub(crate) fn new(clients: VecDeque<Client>) -> ClientListener
        ensures { (result.accepted ≡ 0) × (result.has_failed ≡ false) }
    {
        ClientListener {
            clients,
            accepted: 0,
            has_failed: false,
        }
    }
}

impl Listener for ClientListener {
    type Input = Cursor<Vec<u8>>;

    type Output = AnswerChecker;

    ghost has_failed = { λ listener. IsTrue listener.has_failed };

    ghost accepted = { λ listener. Some listener.accepted };

    fn accept(&mut self) -> Result<Option<Client>, ListenFault> {
        match self.clients.pop_front() {
            Some(client) => {
                self.accepted += 1;
                Ok(Some(client))
            }
            None => {
                self.has_failed = true;
                Err(ListenFault)
            }
        }
    }
}
