//! Serves one client from its first byte to its last: reads, calls of the meter and writes, in
//! order.
ghost use Rattle.std.specs.Prelude.{◌≡◌, ℕ, List, [], ◌++◌, false, Some, IfSome, IfNone, IfOk, IfErr, OnOk};
ghost use Rattle.acse_ber.specs.Password.{IsPassword};
ghost use Rattle.session_io.specs.Serving.{DoesAll, ServesSession, Stops, as_bytes, remaining_plan, work_for};
ghost use Rattle.session_io.specs.Sides.{input_of, outlets_of};
ghost use Rattle.session_io.specs.Order.{Happening, IsAt, Orders, StopsInOrder, IsInOrder};
ghost use Rattle.relay_events.specs.declared.reply.Reply.{Reply};
ghost use Rattle.session_io.specs.Settling.{Settles, IsSettled, MayContinue, IsWrongHeader};
ghost use Rattle.session_core.specs.Ends.{EndsWithInput};
ghost use Rattle.session_core.specs.Progress.{Owes};
ghost use Rattle.session_core.specs.Remaining.{still_asks, still_sends, still_ends, is_asking, is_finished};

use crate::fault::ServeFault;
use crate::form::{AsBytes, Form};
use crate::meter::Meter;
use crate::watch::{SessionWatch, UnwatchedSession};
use cosem_axdr::Octets;
use counted_io::{Reader, Writer};
use session_core::{Next, Session, SessionEnd};
use std::alloc::Global;

// The maximum number of bytes of one read.
const MAX_READ: usize = 1_024;

// The maximum number of reads in a session.
const MAX_READ_CALLS: u32 = 4_294_967_295;

// Asks the meter and writes the answers until the session needs more input or is over. Returns the
// session's end if it is over.
fn settle<F: Form, V: SessionWatch, W: Writer, M: Meter>(
    alloc: Global,
    session: &mut Session,
    watch: &mut V,
    writer: &mut W,
    meter: &mut M,
) -> Result<Option<SessionEnd>, ServeFault>
    requires writable { W.can_write writer.now }
    requires not_asking { is_asking session.now ≡ false }
    ensures ok { IfOk result
        (λ end. Settles M.steps F.written_as session.old
        (outlets_of W.contents W.failures writer.old meter.old) [] end session.new
        (outlets_of W.contents W.failures writer.new meter.new)) }
    ensures writable { OnOk result (W.can_write writer.new) }
    ensures failures_unchanged { OnOk result (W.failures writer.new ≡ W.failures writer.old) }
    ensures err { IfErr result
        (λ fault. Stops M.steps F.written_as (work_for (remaining_plan session.old) [])
        (outlets_of W.contents W.failures writer.old meter.old) fault
        (outlets_of W.contents W.failures writer.new meter.new)) }
    ensures order { (password : List ℕ) (texts_of : List ℕ → List Reply → List (List ℕ))
        (happened : List Happening)
        → IsAt F.written_as password texts_of (still_sends session.old) happened
        → Orders F.written_as password texts_of (still_sends session.new) happened
        (V.passed watch.old) result (V.passed watch.new) }
{
    'due: loop {
        match session.next_short() {
            Some((level, request)) => {
                let reply = watch.call(meter, alloc, request.event(level))?;
                let answered = session.answer_short(alloc, &reply);
                drop(reply);
                match answered {
                    Ok(frame) => F::write(alloc, watch, writer, frame.as_slice())?,
                    Err(_) => return Err(ServeFault::Memory),
                }
            }
            None => match session.next(alloc)? {
                Next::Ask(event) => {
                    let reply = watch.call(meter, alloc, event)?;
                    match session.answer(alloc, reply) {
                        Ok(()) => {}
                        Err(_) => return Err(ServeFault::Memory),
                    }
                }
                Next::Send(frame) => F::write(alloc, watch, writer, frame.as_slice())?,
                Next::Wait => return Ok(None),
                Next::End(end) => return Ok(Some(end)),
            },
        }
    }
}

// Feeds the session bytes, and performs everything that they require. Returns how the session
// ended, or `None` if it continues.
fn take_in<V: SessionWatch, W: Writer, M: Meter>(
    alloc: Global,
    session: &mut Session,
    bytes: &[u8],
    watch: &mut V,
    writer: &mut W,
    meter: &mut M,
) -> Result<Option<SessionEnd>, ServeFault>
    requires writable { W.can_write writer.now }
    requires not_asking { is_asking session.now ≡ false }
    ensures ok { IfOk result
        (λ end. Settles M.steps as_bytes session.old
        (outlets_of W.contents W.failures writer.old meter.old) bytes.now end session.new
        (outlets_of W.contents W.failures writer.new meter.new)) }
    ensures writable { OnOk result (W.can_write writer.new) }
    ensures failures_unchanged { OnOk result (W.failures writer.new ≡ W.failures writer.old) }
    ensures err { IfErr result
        (λ fault. Stops M.steps as_bytes (work_for (remaining_plan session.old) bytes.now)
        (outlets_of W.contents W.failures writer.old meter.old) fault
        (outlets_of W.contents W.failures writer.new meter.new)) }
    ensures order { (password : List ℕ) (texts_of : List ℕ → List Reply → List (List ℕ))
        (happened : List Happening)
        → IsAt as_bytes password texts_of (λ more. still_sends session.old (bytes.now ++ more))
        happened → Orders as_bytes password texts_of (still_sends session.new) happened
        (V.passed watch.old) result (V.passed watch.new) }
{
    session.feed(bytes)?;
    if session.is_idle() {
        return Ok(None);
    }
    settle::<AsBytes, V, W, M>(alloc, session, watch, writer, meter)
}

// Ends the input, performs everything that the session still requires, and returns how it ended.
pub(crate) fn end_input<F: Form, V: SessionWatch, W: Writer, M: Meter>(
    alloc: Global,
    session: &mut Session,
    watch: &mut V,
    writer: &mut W,
    meter: &mut M,
) -> Result<SessionEnd, ServeFault>
    requires writable { W.can_write writer.now }
    requires not_asking { is_asking session.now ≡ false }
    ensures ok { OnOk result
        (DoesAll M.steps F.written_as (work_for (remaining_plan session.old) [])
        (outlets_of W.contents W.failures writer.old meter.old)
        (outlets_of W.contents W.failures writer.new meter.new)) }
    ensures end { IfOk result (λ end. end ≡ still_ends session.old []) }
    ensures err { IfErr result
        (λ fault. Stops M.steps F.written_as (work_for (remaining_plan session.old) [])
        (outlets_of W.contents W.failures writer.old meter.old) fault
        (outlets_of W.contents W.failures writer.new meter.new)) }
    ensures order { (password : List ℕ) (texts_of : List ℕ → List Reply → List (List ℕ))
        (happened : List Happening)
        → IsAt F.written_as password texts_of (still_sends session.old) happened
        → StopsInOrder F.written_as password happened (V.passed watch.old) (V.passed watch.new) }
{
    session.finish();
    match settle::<F, V, W, M>(alloc, session, watch, writer, meter)? {
        Some(end) => Ok(end),
        None => unreachable!(),
    }
}

// Returns the end of a session that ended at an invalid header. A session ends in the two other
// ways only after its input has ended.
fn wrong_header(end: Option<SessionEnd>) -> Option<SessionEnd>
    ensures header { IfSome result (λ wrong. (end ≡ Some wrong) × IsWrongHeader wrong) }
    ensures none { IfNone result (MayContinue end) }
{
    match end {
        Some(SessionEnd::BadVersion) => Some(SessionEnd::BadVersion),
        Some(SessionEnd::TooLong) => Some(SessionEnd::TooLong),
        Some(SessionEnd::Closed | SessionEnd::Cut) => None,
        None => None,
    }
}

// Serves a session that was fed no bytes yet.
fn serve<V: SessionWatch, R: Reader, W: Writer, M: Meter>(
    alloc: Global,
    session: &mut Session,
    watch: &mut V,
    reader: &mut R,
    writer: &mut W,
    meter: &mut M,
) -> Result<SessionEnd, ServeFault>
    requires readable { R.can_read reader.now }
    requires writable { W.can_write writer.now }
    requires settled { IsSettled session.now }
    requires ends { EndsWithInput (still_ends session.now []) }
    requires not_asking { is_asking session.now ≡ false }
    ensures served { (password : List ℕ) → Owes password session.old
        → ServesSession M.steps password
        (record {
          input = input_of R.remaining R.reads R.failures reader.old;
          outlets = outlets_of W.contents W.failures writer.old meter.old;
        })
        result
        (record {
          input = input_of R.remaining R.reads R.failures reader.new;
          outlets = outlets_of W.contents W.failures writer.new meter.new;
        }) }
    ensures order { (password : List ℕ) → Owes password session.old
        → IsInOrder as_bytes password (V.passed watch.old) (V.passed watch.new)
        (R.remaining reader.old) (R.remaining reader.new) }
{
    let mut buffer = [0; MAX_READ];
    'reads: for _ in 0..MAX_READ_CALLS {
        let count = match watch.read(reader, &mut buffer) {
            Ok(count) => count,
            Err(_) => return Err(ServeFault::Read),
        };
        if count == 0 {
            return end_input::<AsBytes, V, W, M>(alloc, session, watch, writer, meter);
        }
        let end = take_in(alloc, session, &buffer[..count], watch, writer, meter)?;
        match wrong_header(end) {
            Some(end) => return Ok(end),
            None => {}
        }
    }
    Err(ServeFault::Read)
}

/// Serves one session as `serve_session` does, and passes each read, write and call through
/// `watch`.
///
/// If the watch's list is known, it states the order in time: before each read and each call, all
/// answers to what was read and replied so far were written, and nothing follows a failure.
pub fn watch_session<V: SessionWatch, R: Reader, W: Writer, M: Meter>(
    alloc: Global,
    watch: &mut V,
    reader: &mut R,
    writer: &mut W,
    meter: &mut M,
    password: &Octets,
) -> Result<SessionEnd, ServeFault>
    requires readable { R.can_read reader.now }
    requires writable { W.can_write writer.now }
    requires password { IsPassword password.now }
    ensures served { ServesSession M.steps password.now
        (record {
          input = input_of R.remaining R.reads R.failures reader.old;
          outlets = outlets_of W.contents W.failures writer.old meter.old;
        })
        result
        (record {
          input = input_of R.remaining R.reads R.failures reader.new;
          outlets = outlets_of W.contents W.failures writer.new meter.new;
        }) }
    ensures order { IsInOrder as_bytes password.now (V.passed watch.old) (V.passed watch.new)
        (R.remaining reader.old) (R.remaining reader.new) }
{
    let mut session = Session::new(alloc, password)?;
    let end = serve(alloc, &mut session, watch, reader, writer, meter);
    drop(session);
    end
}

/// Serves one session: reads what the client sends, asks the meter and writes the answers, up to
/// the end of the input or an invalid header. `password` is the management client's, 1 to 32 bytes.
///
/// However the bytes arrive, the meter is asked exactly the events of the session, and exactly the
/// answers to its replies are written, each before the next read or call. A read asks for at most
/// 1,024 bytes, and no read follows the one that completes an invalid header.
///
/// Errors: `Read` if the reader failed, or after 4,294,967,295 reads; `Write` if the writer failed;
/// `Memory` if out of memory; `Exhausted` if the meter accepts no more events; `Journal` if its
/// journal has failed. After an error nothing more is written.
pub fn serve_session<R: Reader, W: Writer, M: Meter>(
    alloc: Global,
    reader: &mut R,
    writer: &mut W,
    meter: &mut M,
    password: &Octets,
) -> Result<SessionEnd, ServeFault>
    requires readable { R.can_read reader.now }
    requires writable { W.can_write writer.now }
    requires password { IsPassword password.now }
    ensures { ServesSession M.steps password.now
        (record {
          input = input_of R.remaining R.reads R.failures reader.old;
          outlets = outlets_of W.contents W.failures writer.old meter.old;
        })
        result
        (record {
          input = input_of R.remaining R.reads R.failures reader.new;
          outlets = outlets_of W.contents W.failures writer.new meter.new;
        }) }
{
    let mut watch = UnwatchedSession;
    watch_session(alloc, &mut watch, reader, writer, meter, password)
}
