//! A session on a meter that it shares with others.
ghost use Rattle.std.specs.Prelude.{◌≡◌, List};
ghost use Rattle.acse_ber.specs.Password.{IsPassword};
ghost use Rattle.session_io.specs.Meters.{RepliesTo};
ghost use Rattle.meter_server.specs.Ports.{PortSteps, Enters};
ghost use Rattle.shared_meter.specs.Handed.{MeterPort};
ghost use Rattle.meter_server.specs.Sessions.{AsksThrough};
ghost use Rattle.session_io.specs.Serving.{ServesSession};
ghost use Rattle.session_io.specs.Sides.{input_of, outlets_of};
ghost use Rattle.relay_events.specs.declared.event.Event.{Event};
ghost use Rattle.relay_events.specs.declared.reply.Reply.{Reply};
ghost use Rattle.turn_lock.specs.Shown.{IsSame};

use cosem_axdr::Octets;
use counted_io::{Reader, Writer};
use relay_events::{Event, Reply};
use session_core::SessionEnd;
use session_io::{Meter, ServeFault, serve_session};
use shared_meter::Kept;
use std::alloc::Global;
use std::marker::Model;
use std::sync::Wait;
use turn_lock::{CallFault, Port};

/// A port of a shared meter, as a [`Meter`]: each event is a call of the port, and waits for its
/// turn. Contracts refer to the port.
pub struct PortMeter<'a, W: Wait> {
    rt: &'a W,
    port: Port<Kept>,
}

impl<'a, W: Wait> Model for PortMeter<'a, W> {
    ghost use Rattle.std.specs.Coded.{codes};
    ghost use Rattle.shared_meter.specs.Handed.{MeterPort};
    ghost use Rattle.relay_events.specs.contracts.event.Event as event_row;
    ghost use Rattle.relay_events.specs.contracts.reply.Reply as reply_row;
    ghost use Rattle.relay_core.specs.contracts.opening.Opening as opening_row;

    ghost Value = { MeterPort };

    ghost coded = { Prim.hlevel (
      codes,
      event_row.the_row.coded,
      reply_row.the_row.coded,
      opening_row.the_row.coded,
    ) };

    ghost view = { λ meter. meter.port };
}

impl<'a, W: Wait> PortMeter<'a, W> {
    /// Returns the meter of this port. Its calls wait for their turns with `rt`.
    pub fn new(rt: &'a W, port: Port<Kept>) -> PortMeter<'a, W>
        ensures { result ≡ port }
    {
        PortMeter { rt, port }
    }

    /// Returns the port, with all calls that it has seen.
    pub fn into_port(self) -> Port<Kept>
        ensures { result ≡ self.entry }
    {
        let PortMeter { rt: _, port } = self;
        port
    }
}

impl<'a, W: Wait> Meter for PortMeter<'a, W> {
    ghost steps = { PortSteps };

    fn call(&mut self, alloc: Global, event: Event) -> Result<Reply, CallFault> {
        self.port.call(self.rt, alloc, event)
    }
}

/// Proves that consecutive events that a port passed on are in the history that the port then
/// knows, with their replies and in this order; the history has no other new calls with the port's
/// number.
pub fn calls_are_entered()
    ensures { (p : MeterPort) (events : List Event) (replies : List Reply) (q : MeterPort)
        → RepliesTo PortSteps p events replies q → Enters p events replies q }
{}

/// Proves that a session that [`serve_session`] served over a [`PortMeter`] leaves the same port,
/// with the same lock and the same number. In the history that the port then knows, its new calls
/// are the events of the session.
pub fn session_keeps_its_port<R: Reader, O: Writer>()
    ensures { (password : _) (reader : _) (writer : _) (p : MeterPort) (end : _) (read : _)
        (written : _) (q : MeterPort)
        → ServesSession PortSteps password
        (record {
          input = input_of R.remaining R.reads R.failures reader;
          outlets = outlets_of O.contents O.failures writer p;
        })
        end
        (record {
          input = input_of R.remaining R.reads R.failures read;
          outlets = outlets_of O.contents O.failures written q;
        })
        → IsSame p q × AsksThrough password p q }
{}

/// Serves one session as [`serve_session`] does, through a port: each event of the session is a
/// call of the port, and waits for its turn. Between two events the session holds no turn. The
/// management client has this password, 1 to 32 bytes. Returns the port in every case.
pub fn serve_port<R: Reader, O: Writer, W: Wait>(
    rt: &W,
    alloc: Global,
    reader: &mut R,
    writer: &mut O,
    port: Port<Kept>,
    password: &Octets,
) -> (Port<Kept>, Result<SessionEnd, ServeFault>)
    requires readable { R.can_read reader.now }
    requires writable { O.can_write writer.now }
    requires password { IsPassword password.now }
    ensures served { ServesSession PortSteps password.now
        (record {
          input = input_of R.remaining R.reads R.failures reader.old;
          outlets = outlets_of O.contents O.failures writer.old port;
        })
        result.1
        (record {
          input = input_of R.remaining R.reads R.failures reader.new;
          outlets = outlets_of O.contents O.failures writer.new result.0;
        }) }
    ensures same { IsSame port result.0 }
    ensures asks { AsksThrough password.now port result.0 }
{
    let mut meter = PortMeter::new(rt, port);
    let result = serve_session(alloc, reader, writer, &mut meter, password);
    (meter.into_port(), result)
}
