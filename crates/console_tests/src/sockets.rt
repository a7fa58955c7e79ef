//! Tests of what contracts do not cover: how long a client's stream waits, and how the listening
//! ends.
use meter_server::Listener;
use server_io::{Sockets, StreamLimits};
use session_log::start_log;
use std::io::Read;
use std::net::{SocketAddr, TcpListener, TcpStream};
use std::sync::Arc;
use std::sync::atomic::AtomicBool;
use std::test::Fail;
use std::thread::Threads;
use std::time::{Duration, Instant};

// No limits.
const NO_LIMITS: StreamLimits = StreamLimits {
    call: None,
    session: None,
};

// Returns sockets on a free port of the loopback interface, and their address.
fn listen_to<R: Threads>(
    rt: HostRuntime,
    threads: &R,
    limits: StreamLimits,
    is_stopped: bool,
) -> Result<(Sockets<HostRuntime>, SocketAddr), Fail> {
    let listener = TcpListener::bind(&rt, "127.0.0.1:0")?;
    let address = listener.local_addr()?;
    let stopped = Arc::new(rt.alloc(), AtomicBool::new(is_stopped))?;
    let log = start_log(&rt, threads, rt.alloc(), rt.stderr())?;
    let sockets = Sockets::new(rt, log, rt.alloc(), listener, limits, stopped, false)?;
    Ok((sockets, address))
}

// Returns the time from before a silent client connects until the first read from it fails, and
// whether a second read fails.
fn failed_reads<R: Threads>(
    rt: HostRuntime,
    threads: &R,
    limits: StreamLimits,
) -> Result<(Duration, bool), Fail> {
    let (mut sockets, address) = listen_to(rt, threads, limits, false)?;
    let began = Instant::now(&rt)?;
    let client = TcpStream::connect(&rt, address)?;
    let accepted = sockets.accept().map_err(|_| "no client")?;
    let (mut input, output) = accepted.ok_or("no stream")?;
    let mut buffer = [0; 8];
    let first = input.read(&mut buffer);
    let lasted = began.elapsed(&rt)?;
    let second = input.read(&mut buffer);
    drop(client);
    drop(output);
    if first.is_ok() {
        return Err(Fail::from("a read of a silent client succeeds"));
    }
    Ok((lasted, second.is_err()))
}

// Returns whether a limit of 200 ms may last this long: up to 10 ms less, as clocks have steps, and
// much longer on a busy machine.
fn is_right(lasted: Duration) -> bool {
    lasted >= Duration::from_millis(190) && lasted < Duration::from_secs(10)
}

#[test]
fn a_read_takes_as_long_as_a_call_may(rt: HostRuntime) -> Result<(), Fail> {
    let limits = StreamLimits {
        call: Some(Duration::from_millis(200)),
        session: Some(Duration::from_secs(20)),
    };
    let (lasted, fails_again) = failed_reads(rt, &rt, limits)?;
    assert!(rt; is_right(lasted), "{lasted:?}");
    assert!(rt; fails_again);
    Ok(())
}

#[test]
fn a_session_has_an_end(rt: HostRuntime) -> Result<(), Fail> {
    let limits = StreamLimits {
        call: Some(Duration::from_secs(20)),
        session: Some(Duration::from_millis(200)),
    };
    let (lasted, fails_again) = failed_reads(rt, &rt, limits)?;
    assert!(rt; is_right(lasted), "{lasted:?}");
    assert!(rt; fails_again);
    Ok(())
}

#[test]
fn no_client_is_accepted_after_the_end_of_the_input(rt: HostRuntime) -> Result<(), Fail> {
    let (mut sockets, address) = listen_to(rt, &rt, NO_LIMITS, true)?;
    let client = TcpStream::connect(&rt, address)?;
    assert!(rt; sockets.accept().is_err());
    assert!(rt; !sockets.has_failed());
    drop(client);
    Ok(())
}

#[test]
fn a_listener_that_fails_has_failed(rt: HostRuntime) -> Result<(), Fail> {
    let listener = TcpListener::bind(&rt, "127.0.0.1:0")?;
    // (without a client, the next call fails instead of waiting)
    listener.set_nonblocking(true)?;
    let stopped = Arc::new(rt.alloc(), AtomicBool::new(false))?;
    let log = start_log(&rt, &rt, rt.alloc(), rt.stderr())?;
    let mut sockets = Sockets::new(rt, log, rt.alloc(), listener, NO_LIMITS, stopped, false)?;
    assert!(rt; sockets.accept().is_err());
    assert!(rt; sockets.has_failed());
    Ok(())
}
