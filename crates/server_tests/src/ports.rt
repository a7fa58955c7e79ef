//! What no contract states: sessions through several ports reach one meter.
ghost use Rattle.std.specs.Prelude.{◌≡◌, ◌<◌, ◌≤◌, [], IfOk};
ghost use Rattle.acse_ber.specs.Password.{IsPassword};

use cosem_axdr::Octets;
use counted_io::Counted;
use meter_server::{
    Kept, Port, PortMeter, Recorder, ServeFault, SessionEnd, Shared, serve_port, serve_session,
};
use std::alloc::{AllocError, Global};
use std::sync::Wait;
use std::test::Fail;
use turn_lock::Turned;

/// The frames of the management client: its AARQ with the password 12345678, a SET of control_mode
/// to 2, and a GET of it.
static WRITE_AND_READ: [u8; 108] = [
    0x00, 0x01, 0x00, 0x01, 0x00, 0x01, 0x00, 0x38, 0x60, 0x36, 0xA1, 0x09, 0x06, 0x07, 0x60, 0x85,
    0x74, 0x05, 0x08, 0x01, 0x01, 0x8A, 0x02, 0x07, 0x80, 0x8B, 0x07, 0x60, 0x85, 0x74, 0x05, 0x08,
    0x02, 0x01, 0xAC, 0x0A, 0x80, 0x08, 0x31, 0x32, 0x33, 0x34, 0x35, 0x36, 0x37, 0x38, 0xBE, 0x10,
    0x04, 0x0E, 0x01, 0x00, 0x00, 0x00, 0x06, 0x5F, 0x1F, 0x04, 0x00, 0x00, 0x1C, 0x19, 0x04, 0x00,
    0x00, 0x01, 0x00, 0x01, 0x00, 0x01, 0x00, 0x0F, 0xC1, 0x01, 0xC1, 0x00, 0x46, 0x00, 0x00, 0x60,
    0x03, 0x0A, 0xFF, 0x04, 0x00, 0x16, 0x02, 0x00, 0x01, 0x00, 0x01, 0x00, 0x01, 0x00, 0x0D, 0xC0,
    0x01, 0xC1, 0x00, 0x46, 0x00, 0x00, 0x60, 0x03, 0x0A, 0xFF, 0x04, 0x00,
];

/// The responses to these frames.
static WRITTEN_AND_READ: [u8; 77] = [
    0x00, 0x01, 0x00, 0x01, 0x00, 0x01, 0x00, 0x2B, 0x61, 0x29, 0xA1, 0x09, 0x06, 0x07, 0x60, 0x85,
    0x74, 0x05, 0x08, 0x01, 0x01, 0xA2, 0x03, 0x02, 0x01, 0x00, 0xA3, 0x05, 0xA1, 0x03, 0x02, 0x01,
    0x00, 0xBE, 0x10, 0x04, 0x0E, 0x08, 0x00, 0x06, 0x5F, 0x1F, 0x04, 0x00, 0x00, 0x1C, 0x19, 0x04,
    0x00, 0x00, 0x07, 0x00, 0x01, 0x00, 0x01, 0x00, 0x01, 0x00, 0x04, 0xC5, 0x01, 0xC1, 0x00, 0x00,
    0x01, 0x00, 0x01, 0x00, 0x01, 0x00, 0x06, 0xC4, 0x01, 0xC1, 0x00, 0x16, 0x02,
];

/// The AARQ of the management client, and a GET of control_mode.
static READ: [u8; 85] = [
    0x00, 0x01, 0x00, 0x01, 0x00, 0x01, 0x00, 0x38, 0x60, 0x36, 0xA1, 0x09, 0x06, 0x07, 0x60, 0x85,
    0x74, 0x05, 0x08, 0x01, 0x01, 0x8A, 0x02, 0x07, 0x80, 0x8B, 0x07, 0x60, 0x85, 0x74, 0x05, 0x08,
    0x02, 0x01, 0xAC, 0x0A, 0x80, 0x08, 0x31, 0x32, 0x33, 0x34, 0x35, 0x36, 0x37, 0x38, 0xBE, 0x10,
    0x04, 0x0E, 0x01, 0x00, 0x00, 0x00, 0x06, 0x5F, 0x1F, 0x04, 0x00, 0x00, 0x1C, 0x19, 0x04, 0x00,
    0x00, 0x01, 0x00, 0x01, 0x00, 0x01, 0x00, 0x0D, 0xC0, 0x01, 0xC1, 0x00, 0x46, 0x00, 0x00, 0x60,
    0x03, 0x0A, 0xFF, 0x04, 0x00,
];

/// The responses to these frames, if the mode is 2.
static READ_AS_2: [u8; 65] = [
    0x00, 0x01, 0x00, 0x01, 0x00, 0x01, 0x00, 0x2B, 0x61, 0x29, 0xA1, 0x09, 0x06, 0x07, 0x60, 0x85,
    0x74, 0x05, 0x08, 0x01, 0x01, 0xA2, 0x03, 0x02, 0x01, 0x00, 0xA3, 0x05, 0xA1, 0x03, 0x02, 0x01,
    0x00, 0xBE, 0x10, 0x04, 0x0E, 0x08, 0x00, 0x06, 0x5F, 0x1F, 0x04, 0x00, 0x00, 0x1C, 0x19, 0x04,
    0x00, 0x00, 0x07, 0x00, 0x01, 0x00, 0x01, 0x00, 0x01, 0x00, 0x06, 0xC4, 0x01, 0xC1, 0x00, 0x16,
    0x02,
];

// The number of bytes of the AARQ and the SET, and of their responses.
const WRITE: (usize, usize) = (87, 63);

/// What a client sends, and the responses.
type Texts<'a> = (&'a [u8], &'a [u8]);

/// Returns a lock over a value, and its first port.
pub(crate) fn lock_over<T: Turned>(
    alloc: Global,
    value: T,
    bound: u64,
) -> Result<(Shared<T>, Port<T>), AllocError>
    requires bound { (0 < bound) × (bound ≤ 1000) }
    requires empty { T.stands value [] }
    ensures { IfOk result (λ r. r.1.lock ≡ r.0) }
{
    match Shared::new(alloc, value, bound) {
        Ok(made) => Ok(made),
        Err((error, value)) => {
            drop(value);
            Err(error)
        }
    }
}

/// Returns a new meter, which keeps 256 events.
pub(crate) fn new_recorder(alloc: Global) -> Result<Recorder, AllocError>
    ensures { IfOk result (λ recorder. recorder.events ≡ []) }
{
    let device = Octets::from_slice(alloc, b"RELAY1")?;
    let recorder = Recorder::new(alloc, &device, 256);
    drop(device);
    recorder
}

/// Returns a lock over a new meter, and its first port.
pub(crate) fn new_lock(alloc: Global, bound: u64) -> Result<(Shared<Kept>, Port<Kept>), AllocError>
    requires { (0 < bound) × (bound ≤ 1000) }
    ensures { IfOk result (λ r. r.1.lock ≡ r.0) }
{
    match new_recorder(alloc) {
        Ok(recorder) => lock_over(alloc, Kept::new(recorder), bound),
        Err(error) => Err(error),
    }
}

/// Closes a lock and returns the number of events that its meter kept, or `None` if the lock is
/// busy.
pub(crate) fn kept_count(shared: Shared<Kept>, port: Port<Kept>) -> Option<u16>
    requires { port.lock ≡ shared }
{
    match shared.close(port) {
        Ok(kept) => {
            let count = kept.recorder().count();
            drop(kept);
            Some(count)
        }
        Err((_, shared, port)) => {
            drop(shared);
            drop(port);
            None
        }
    }
}

/// Returns whether a session of the management client through a port answers the first text with
/// the second, and ends so.
fn has_answer<W: Wait>(
    rt: &W,
    alloc: Global,
    port: Port<Kept>,
    texts: Texts<'_>,
    password: &Octets,
    end: Result<SessionEnd, ServeFault>,
) -> (Port<Kept>, bool)
    requires { IsPassword password.now }
    ensures { result.0.lock ≡ port.lock }
{
    let mut reader = Counted::new(texts.0);
    let mut writer = Counted::new(Vec::new(alloc));
    let (port, result) = serve_port(rt, alloc, &mut reader, &mut writer, port, password);
    drop(reader);
    let output = writer.into_inner();
    let is_so = result == end && output.as_slice() == texts.1;
    drop(output);
    (port, is_so)
}

/// Returns whether a session that `serve_session` serves over a port as a meter answers the first
/// text with the second, and is closed by its client. Drops the port.
fn is_served_over<W: Wait>(
    rt: &W,
    alloc: Global,
    port: Port<Kept>,
    texts: Texts<'_>,
    password: &Octets,
) -> bool
    requires { IsPassword password.now }
{
    let mut reader = Counted::new(texts.0);
    let mut writer = Counted::new(Vec::new(alloc));
    let mut meter = PortMeter::new(rt, port);
    let result = serve_session(alloc, &mut reader, &mut writer, &mut meter, password);
    drop(meter.into_port());
    drop(reader);
    let output = writer.into_inner();
    let is_so = result == Ok(SessionEnd::Closed) && output.as_slice() == texts.1;
    drop(output);
    is_so
}

/// Returns the results of two sessions, each through its own port, a write of the mode and a read
/// of it by another client, and the number of events that their meter kept.
fn write_and_read<R: Wait>(
    rt: &R,
    alloc: Global,
    password: &Octets,
) -> Result<(bool, bool, Option<u16>), AllocError>
    requires { IsPassword password.now }
{
    let (shared, mut one) = new_lock(alloc, 9)?;
    match one.split() {
        Ok(two) => {
            let end = Ok(SessionEnd::Closed);
            let texts = (&WRITE_AND_READ[..WRITE.0], &WRITTEN_AND_READ[..WRITE.1]);
            let (mut one, is_written) = has_answer(rt, alloc, one, texts, password, end);
            let texts = (READ.as_slice(), READ_AS_2.as_slice());
            let (two, is_read) = has_answer(rt, alloc, two, texts, password, end);
            one.join(two);
            Ok((is_written, is_read, kept_count(shared, one)))
        }
        Err(error) => {
            drop(shared);
            drop(one);
            Err(error)
        }
    }
}

#[test]
fn two_sessions_reach_one_meter(rt: HostRuntime) -> Result<(), Fail> {
    let password = Octets::from_slice(rt.alloc(), b"12345678")?;
    let came = write_and_read(&rt, rt.alloc(), &password);
    drop(password);
    assert!(rt; came? == (true, true, Some(2)));
    Ok(())
}

/// Returns whether a session over the port of a new meter answers a write of the mode and a read of
/// it.
fn serve_over_a_port<R: Wait>(rt: &R, alloc: Global, password: &Octets) -> Result<bool, AllocError>
    requires { IsPassword password.now }
{
    let (shared, port) = new_lock(alloc, 9)?;
    let texts = (WRITE_AND_READ.as_slice(), WRITTEN_AND_READ.as_slice());
    let is_served = is_served_over(rt, alloc, port, texts, password);
    drop(shared);
    Ok(is_served)
}

#[test]
fn a_session_is_served_over_a_port_as_a_meter(rt: HostRuntime) -> Result<(), Fail> {
    let password = Octets::from_slice(rt.alloc(), b"12345678")?;
    let served = serve_over_a_port(&rt, rt.alloc(), &password);
    drop(password);
    assert!(rt; served?);
    Ok(())
}

/// Returns whether a session with a meter that takes one call, which writes the mode and then reads
/// it, stops after the response to the write, and the number of events that the meter kept.
fn write_alone<R: Wait>(
    rt: &R,
    alloc: Global,
    password: &Octets,
) -> Result<(bool, Option<u16>), AllocError>
    requires { IsPassword password.now }
{
    let (shared, port) = new_lock(alloc, 1)?;
    let texts = (WRITE_AND_READ.as_slice(), &WRITTEN_AND_READ[..WRITE.1]);
    let end = Err(ServeFault::Exhausted);
    let (port, has_stopped) = has_answer(rt, alloc, port, texts, password, end);
    Ok((has_stopped, kept_count(shared, port)))
}

#[test]
fn a_session_stops_where_every_turn_was_drawn(rt: HostRuntime) -> Result<(), Fail> {
    let password = Octets::from_slice(rt.alloc(), b"12345678")?;
    let came = write_alone(&rt, rt.alloc(), &password);
    drop(password);
    assert!(rt; came? == (true, Some(1)));
    Ok(())
}
