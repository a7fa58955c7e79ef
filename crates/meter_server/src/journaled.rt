//! A session on a meter whose journal has to be on the disk before each reply.
ghost use Rattle.std.specs.Prelude.{◌≡◌, List, IfOk, IfSome};
ghost use Rattle.acse_ber.specs.Password.{IsPassword};
ghost use Rattle.session_io.specs.Meters.{RepliesTo};
ghost use Rattle.meter_server.specs.Journaled.{AreWritten, JournalSteps};
ghost use Rattle.meter_server.specs.JournaledSessions.{AnswersCalls};
ghost use Rattle.shared_meter.specs.Handed.{MeterPort};
ghost use Rattle.meter_server.specs.Sessions.{AsksThrough};
ghost use Rattle.session_io.specs.Serving.{ServesSession};
ghost use Rattle.session_io.specs.Sides.{input_of, outlets_of};
ghost use Rattle.relay_events.specs.Kinds.{Fits};
ghost use Rattle.relay_events.specs.declared.event.Event.{Event};
ghost use Rattle.relay_events.specs.declared.reply.Reply.{Reply};
ghost use Rattle.shared_meter.specs.Settling.{AreDurable};
ghost use Rattle.turn_lock.specs.Shown.{IsSame};

use cosem_axdr::Octets;
use counted_io::{Reader, Writer};
use relay_events::{Event, Reply};
use session_core::SessionEnd;
use session_io::{Meter, ServeFault, serve_session};
use shared_meter::{Durability, Finding, Kept, Question, settle};
use std::alloc::Global;
use std::marker::Model;
use std::sync::Wait;
use turn_lock::{CallFault, Port};

/// A port of a shared meter that waits for its journal, as a [`Meter`]: each event is a call of the
/// port, and its reply is returned once the lines of all calls that the port has seen are on the
/// disk. A read waits as well, so that no reply shows what a crash could undo.
///
/// Once the journal has failed, an event that may change the meter is refused: it is passed on only
/// after the port looked and the journal had not failed. A read is answered if all lines that the
/// port has seen are on the disk. Contracts refer to the port.
pub struct JournaledPort<'a, W: Wait, D: Durability> {
    rt: &'a W,
    journal: &'a D,
    port: Port<Kept>,
    // The number of lines of the port's history that were seen to be on the disk.
    settled: Option<u64>,
}

impl<'a, W: Wait, D: Durability> Model for JournaledPort<'a, W, D> {
    ghost use Rattle.std.specs.Coded.{codes};
    ghost use Rattle.std.specs.Prelude.{IfSome};
    ghost use Rattle.shared_meter.specs.Handed.{MeterPort};
    ghost use Rattle.shared_meter.specs.Settling.{AreDurable};
    ghost use Rattle.relay_events.specs.contracts.event.Event as event_row;
    ghost use Rattle.relay_events.specs.contracts.reply.Reply as reply_row;
    ghost use Rattle.relay_core.specs.contracts.opening.Opening as opening_row;

    ghost Value = { MeterPort };

    ghost coded = { Prim.hlevel (
      codes,
      event_row.the_row.coded,
      reply_row.the_row.coded,
      opening_row.the_row.coded,
    ) };

    ghost view = { λ meter. meter.port };

    ghost invariant = { λ meter. D.fits meter.port.lock
        × IfSome meter.settled (AreDurable D.is_durable meter.port.known.seen) };
}

impl<'a, W: Wait, D: Durability> JournaledPort<'a, W, D> {
    /// Returns the meter of this port. Its calls wait for their turns by `rt`, and for the disk by
    /// `journal`.
    pub fn new(rt: &'a W, journal: &'a D, port: Port<Kept>) -> JournaledPort<'a, W, D>
        requires { D.fits port.lock }
        ensures { result ≡ port }
    {
        JournaledPort {
            rt,
            journal,
            port,
            settled: None,
        }
    }

    /// Returns the port, with all calls that it has seen.
    pub fn into_port(self) -> Port<Kept>
        ensures { result ≡ self.entry }
    {
        let JournaledPort {
            rt: _,
            journal: _,
            port,
            settled: _,
        } = self;
        port
    }
}

// Calls the port, and returns the reply once the lines of all calls that the port has seen are on
// the disk. If the journal has failed, an event that may change the meter is not passed on. If it
// fails after the call, the reply is dropped. `settled` is the number of lines that were seen to be
// on the disk.
fn ask<W: Wait, D: Durability>(
    rt: &W,
    alloc: Global,
    port: &mut Port<Kept>,
    journal: &D,
    settled: &mut Option<u64>,
    event: Event,
) -> Result<Reply, CallFault>
    requires fits { D.fits port.old.lock }
    requires settled { IfSome settled.old (AreDurable D.is_durable port.old.known.seen) }
    ensures step { JournalSteps D.is_durable D.has_ended D.was_running port.old event result
        port.new }
    ensures fits { IfOk result (Fits event) }
    ensures settled { IfSome settled.new (AreDurable D.is_durable port.new.known.seen) }
{
    if !event.is_read() && journal.has_failed(port) {
        drop(event);
        return Err(CallFault::Journal);
    }
    let known = settled.take();
    let (reply, found) = port.call_and_inspect(rt, alloc, event, Question::Count)?;
    let Finding::Count(lines) = found else {
        drop(reply);
        return Err(CallFault::Journal);
    };
    if settle(rt, port, journal, known, lines) {
        *settled = Some(lines);
        return Ok(reply);
    }
    drop(reply);
    Err(CallFault::Journal)
}

impl<'a, W: Wait, D: Durability> Meter for JournaledPort<'a, W, D> {
    ghost steps = { JournalSteps D.is_durable D.has_ended D.was_running };

    fn call(&mut self, alloc: Global, event: Event) -> Result<Reply, CallFault> {
        ask(
            self.rt,
            alloc,
            &mut self.port,
            self.journal,
            &mut self.settled,
            event,
        )
    }
}

/// Proves that each reply that a [`JournaledPort`] returned has the history up to it on the disk:
/// the history that the port then knows begins with one that has the calls up to this reply, and
/// whose lines are all on the disk.
pub fn answers_are_durable<D: Durability>()
    ensures { (p : MeterPort) (events : List Event) (replies : List Reply) (q : MeterPort)
        → RepliesTo (JournalSteps D.is_durable D.has_ended D.was_running) p events replies q
        → AreWritten D.is_durable p events replies q }
{}

/// Serves one session as [`serve_port`](crate::serve_port) does, and waits for the journal before
/// each answer: an answer is written only after the lines of all calls that the port has seen are
/// on the disk. Returns the port in every case.
///
/// Of the port's calls in the session, all but at most the last one were answered, and the history
/// that it then knows begins with one that has the answered calls and is on the disk.
///
/// Returns the errors of [`serve_session`], of which `Journal` is returned if the journal has
/// failed: then no answer to the last event is written. It was passed on if it is a read or the
/// journal failed later, and otherwise it was not.
pub fn serve_journaled<R: Reader, O: Writer, W: Wait, D: Durability>(
    rt: &W,
    alloc: Global,
    reader: &mut R,
    writer: &mut O,
    port: Port<Kept>,
    password: &Octets,
    journal: &D,
) -> (Port<Kept>, Result<SessionEnd, ServeFault>)
    requires readable { R.can_read reader.now }
    requires writable { O.can_write writer.now }
    requires password { IsPassword password.now }
    requires fits { D.fits port.lock }
    ensures served { ServesSession (JournalSteps D.is_durable D.has_ended D.was_running)
        password.now
        (record {
          input = input_of R.remaining R.reads R.failures reader.old;
          outlets = outlets_of O.contents O.failures writer.old port;
        })
        result.1
        (record {
          input = input_of R.remaining R.reads R.failures reader.new;
          outlets = outlets_of O.contents O.failures writer.new result.0;
        }) }
    ensures same { IsSame port result.0 }
    ensures asks { AsksThrough password.now port result.0 }
    ensures answers { AnswersCalls D.is_durable port result.0 }
{
    let mut meter = JournaledPort::new(rt, journal, port);
    let result = serve_session(alloc, reader, writer, &mut meter, password);
    (meter.into_port(), result)
}
