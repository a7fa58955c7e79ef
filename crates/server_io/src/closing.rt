//! The end of a server: it stops accepting connections.
use crate::arrivals::{ATTEMPT_PAUSE, Stopped};
use meter_console::{ConsoleEnd, ConsoleObserver};
use std::net::{Net, SocketAddr, TcpStream};
use std::sync::atomic::Ordering;
use std::thread;
use std::time::{Clock, Duration};

// The maximum number of attempts to wake the blocked `accept` by connecting to it.
const MAX_WAKE_ATTEMPTS: u32 = 100;

/// Ends the listening, when the console ends or the journal fails, if this is enabled.
#[derive(Drop)]
pub struct Closing<R> {
    /// The runtime: the network and the clock.
    pub rt: R,
    /// Whether the listening was ended.
    pub stopped: Stopped,
    /// The address at which the listener waits for a client, or `None` if it continues to listen.
    pub address: Option<SocketAddr>,
}

// Wakes a listener that waits for a client at this address, by connecting to it.
fn wake<R: Net + Clock>(rt: &R, address: SocketAddr) {
    for _ in 0..MAX_WAKE_ATTEMPTS {
        if TcpStream::connect(rt, address).is_ok() {
            return;
        }
        thread::sleep(rt, Duration::from_millis(ATTEMPT_PAUSE));
    }
}

impl<R: Net + Clock> Closing<R> {
    /// Ends the listening, if this is enabled: no further client is accepted.
    pub fn close(&self) {
        if let Some(address) = self.address {
            self.stopped.store(true, Ordering::SeqCst);
            wake(&self.rt, address);
        }
    }
}

impl<R: Net + Clock> ConsoleObserver for Closing<R> {
    fn on_console_end(&self, _end: ConsoleEnd) {
        self.close();
    }
}
