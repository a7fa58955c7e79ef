//! The connections that come in at a listening socket.
ghost use Rattle.std.specs.Prelude.{◌≡◌, false};

use crate::accepting::{AcceptError, meaning_of};
use meter_server::ListenFault;
use session_log::{Log, LogTime};
use std::alloc::Global;
use std::net::{SocketAddr, TcpListener, TcpStream};
use std::sync::Arc;
use std::sync::atomic::{AtomicBool, Ordering};
use std::time::{Clock, Duration};
use std::{io, thread};

// The pause before another attempt to accept a client or to wake the listener, in milliseconds.
pub(crate) const ATTEMPT_PAUSE: u64 = 100;

/// Whether the server has ended the listening: its standard input has ended, or its journal has
/// failed. Then no further client is accepted.
pub type Stopped = Arc<AtomicBool, Global>;

// The connections of a listening socket. After an error that passes, it tries again.
#[derive(Drop)]
pub(crate) struct Arrivals<R> {
    rt: R,
    log: Log,
    listener: TcpListener,
    stopped: Stopped,
    // Whether clients have had to wait since the last one was accepted, because of an error.
    is_waiting: bool,
    pub(crate) has_failed: bool,
}

impl<R: Clock + Copy> Arrivals<R> {
    // Returns the connections of this listener, which has not failed.
    pub(crate) fn new(rt: R, log: Log, listener: TcpListener, stopped: Stopped) -> Arrivals<R>
        ensures { result.has_failed ≡ false }
    {
        Arrivals {
            rt,
            log,
            listener,
            stopped,
            is_waiting: false,
            has_failed: false,
        }
    }

    // Waits after an error that passes. The first one since a client was accepted is reported.
    fn wait_after(&mut self, error: &io::Error) {
        if !self.is_waiting {
            let now = LogTime::now(&self.rt);
            let _ = eprintln!(self.log; "{now} no client can be accepted, trying again: {error}");
        }
        self.is_waiting = true;
        thread::sleep(&self.rt, Duration::from_millis(ATTEMPT_PAUSE));
    }

    // Reports that a client was accepted, if clients have had to wait.
    fn end_waiting(&mut self) {
        if self.is_waiting {
            let now = LogTime::now(&self.rt);
            let _ = eprintln!(self.log; "{now} clients are accepted again");
        }
        self.is_waiting = false;
    }

    // Fails by a final error, which is reported.
    fn fail(&mut self, error: &io::Error) {
        let now = LogTime::now(&self.rt);
        let _ = eprintln!(self.log;
            "{now} listening failed, no further client is accepted: {error}"
        );
        self.has_failed = true;
    }

    // Waits for the next client, and returns its stream and its address. Returns an error if the
    // server ended the listening, or after a final error.
    pub(crate) fn next(&mut self) -> Result<(TcpStream, SocketAddr), ListenFault> {
        for _ in 0..u64::MAX {
            let accepted = self.listener.accept();
            if self.stopped.load(Ordering::SeqCst) {
                return Err(ListenFault);
            }
            match accepted {
                Ok(client) => {
                    self.end_waiting();
                    return Ok(client);
                }
                Err(error) => match meaning_of(&error) {
                    AcceptError::Transient => {}
                    AcceptError::Passing => self.wait_after(&error),
                    AcceptError::Final => {
                        self.fail(&error);
                        return Err(ListenFault);
                    }
                },
            }
        }
        self.has_failed = true;
        Err(ListenFault)
    }
}
