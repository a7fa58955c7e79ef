//! A client's stream, with deadlines.
use crate::client_log::ClientLog;
use crate::limits::StreamLimits;
use meter_server::{Observer, ServeFault, SessionEnd};
use std::io;
use std::io::{ErrorKind, Read, Write};
use std::net::TcpStream;
use std::time::{Clock, Duration, Instant};

/// One direction of a client's stream, with deadlines. A call fails if it or the session takes too
/// long. The direction to the client has the client's log.
#[derive(Drop)]
pub struct DeadlineStream<R: Clock + Copy> {
    rt: R,
    stream: TcpStream,
    opened: Instant,
    limits: StreamLimits,
    log: Option<ClientLog<R>>,
}

impl<R: Clock + Copy> DeadlineStream<R> {
    // Returns the input and the output of a stream whose session begins now.
    pub(crate) fn split_stream(
        rt: R,
        stream: TcpStream,
        limits: StreamLimits,
    ) -> io::Result<(Self, Self)> {
        stream.set_nodelay(true)?;
        stream.set_read_timeout(limits.call)?;
        stream.set_write_timeout(limits.call)?;
        let opened = Instant::now(&rt)?;
        let other = stream.try_clone()?;
        let output = DeadlineStream {
            rt,
            stream: other,
            opened,
            limits,
            log: None,
        };
        let input = DeadlineStream {
            rt,
            stream,
            opened,
            limits,
            log: None,
        };
        Ok((input, output))
    }

    // Returns the stream with this log, which reports the end of its session.
    pub(crate) fn with_log(mut self, log: ClientLog<R>) -> Self {
        self.log = Some(log);
        self
    }

    // Reports what was sent to the client.
    fn report_sent(&mut self, bytes: &[u8]) {
        if let Some(log) = &mut self.log {
            log.read_sent(bytes);
        }
    }

    // Returns the time left for the next call. Fails with `TimedOut` once the session's time is
    // over.
    fn left(&self) -> io::Result<Option<Duration>> {
        if self.limits.session.is_none() {
            return Ok(self.limits.call);
        }
        let lasted = self.opened.elapsed(&self.rt)?;
        if self.limits.is_over(lasted) {
            return Err(io::Error::from(ErrorKind::TimedOut));
        }
        Ok(self.limits.left_after(lasted))
    }
}

impl<R: Clock + Copy> Read for DeadlineStream<R> {
    fn read(&mut self, buffer: &mut [u8]) -> io::Result<usize> {
        let left = self.left()?;
        if left != self.limits.call {
            self.stream.set_read_timeout(left)?;
        }
        self.stream.read(buffer)
    }
}

impl<R: Clock + Copy> Write for DeadlineStream<R> {
    fn write(&mut self, bytes: &[u8]) -> io::Result<usize> {
        let left = self.left()?;
        if left != self.limits.call {
            self.stream.set_write_timeout(left)?;
        }
        let count = self.stream.write(bytes)?;
        self.report_sent(&bytes[..count.min(bytes.len())]);
        Ok(count)
    }

    fn flush(&mut self) -> io::Result<()> {
        self.stream.flush()
    }
}

impl<R: Clock + Copy> Observer for DeadlineStream<R> {
    fn on_session_end(&self, end: &Result<SessionEnd, ServeFault>) {
        if let Some(log) = &self.log {
            log.end(end);
        }
    }
}
