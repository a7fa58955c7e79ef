//! The sockets to which clients connect.
ghost use Rattle.std.specs.Prelude.{◌≡◌, ◌<◌, ◌+◌, false, IfOk, Some};
ghost use Rattle.meter_server.specs.Listening.{setup_failures_in};
ghost use Rattle.server_io.specs.Clients.{accepted_of, has_failed, is_logged, limits_of};
ghost use Rattle.server_io.specs.Clients.{setup_failures_of};

use crate::arrivals::{Arrivals, Stopped};
use crate::client_log::{ClientLog, LoggedClient};
use crate::deadline_stream::DeadlineStream;
use crate::limits::StreamLimits;
use meter_server::{ListenFault, Listener};
use session_log::Log;
use std::alloc::{AllocError, Global};
use std::net::{SocketAddr, TcpListener, TcpStream};
use std::time::Clock;

/// A listening socket for clients.
///
/// An error of the operating system ends the listening only if it is final. After one that passes,
/// such as a lack of descriptors, it tries again every 100 ms until a client is accepted. The log
/// has a line for the first of these errors, for the next client that is accepted, and for a final
/// error.
#[derive(Drop)]
pub struct Sockets<R> {
    rt: R,
    alloc: Global,
    // The log of the clients.
    log: Log,
    arrivals: Arrivals<R>,
    limits: StreamLimits,
    is_verbose: bool,
    // The number of clients that have connected and whose stream was set up.
    set_up: u64,
    // The number of clients that have connected and whose stream could not be set up.
    setup_failures: u64,
}

impl<R: Clock + Copy> Sockets<R> {
    /// Returns the clients of this listener. A read or write fails if it, or the session, takes
    /// longer than `limits`. If `is_verbose`, each client is reported in the log. Errors:
    /// `AllocError`.
    pub fn new(
        rt: R,
        log: Log,
        alloc: Global,
        listener: TcpListener,
        limits: StreamLimits,
        stopped: Stopped,
        is_verbose: bool,
    ) -> Result<Sockets<R>, AllocError>
        ensures unfailed { IfOk result (λ made. has_failed made ≡ false) }
        ensures limits { IfOk result (λ made. limits_of made ≡ limits) }
        ensures verbose { IfOk result (λ made. is_logged made ≡ is_verbose) }
        ensures accepted { IfOk result (λ made. accepted_of made ≡ 0) }
        ensures setup_failures { IfOk result (λ made. setup_failures_of made ≡ 0) }
    {
        let second = log.share()?;
        Ok(Sockets {
            rt,
            alloc,
            log,
            arrivals: Arrivals::new(rt, second, listener, stopped),
            limits,
            is_verbose,
            set_up: 0,
            setup_failures: 0,
        })
    }

    // Returns a handle of the log for a client, or `None` if clients are not reported, or memory is
    // out.
    fn client_log(&self) -> Option<Log> {
        if self.is_verbose {
            self.log.share().ok()
        } else {
            None
        }
    }

    /// Returns whether the listener failed by a final error. It has not failed if the server ended
    /// the listening.
    pub fn has_failed(&self) -> bool
        ensures { result ≡ has_failed self.now }
    {
        self.arrivals.has_failed
    }

    // Returns the input and the output of a client that connected, and counts it. Returns `None` if
    // its stream could not be set up; the client is closed and reported as turned away.
    fn client(
        &mut self,
        stream: TcpStream,
        address: SocketAddr,
    ) -> Option<(DeadlineStream<R>, DeadlineStream<R>)>
        requires set_up { self.old.set_up < u64.MAX }
        requires setup_failures { self.old.setup_failures < u64.MAX }
        ensures accepted { accepted_of self.new ≡ accepted_of self.old + 1 }
        ensures setup_failures { setup_failures_of self.new
            ≡ setup_failures_of self.old + setup_failures_in result }
    {
        let client = LoggedClient {
            number: self
                .set_up
                .saturating_add(self.setup_failures)
                .saturating_add(1),
            address,
        };
        let log = ClientLog::new(self.rt, self.alloc, client, self.client_log());
        match DeadlineStream::split_stream(self.rt, stream, self.limits) {
            Ok((input, output)) => {
                self.set_up += 1;
                Some((input, output.with_log(log)))
            }
            Err(error) => {
                log.turn_away(&error);
                self.setup_failures += 1;
                None
            }
        }
    }
}

impl<R: Clock + Copy + Drop + Send + 'static> Listener for Sockets<R> {
    type Input = DeadlineStream<R>;

    type Output = DeadlineStream<R>;

    ghost accepted = { λ s. Some (accepted_of s) };

    ghost setup_failures = { λ s. Some (setup_failures_of s) };

    fn accept(&mut self) -> Result<Option<(DeadlineStream<R>, DeadlineStream<R>)>, ListenFault> {
        if self.set_up == u64::MAX || self.setup_failures == u64::MAX {
            self.arrivals.has_failed = true; // (no further client can be counted)
            return Err(ListenFault);
        }
        let (stream, address) = self.arrivals.next()?;
        Ok(self.client(stream, address))
    }
}
