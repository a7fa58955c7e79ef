//! Sources of clients, and the reporting of the ends of sessions.
ghost use Rattle.std.specs.Prelude.{◌≡◌, ◌≢◌, ⊤, ℕ, Option, None, Some, is_some};
ghost use Rattle.std.specs.Prelude.{IfSome, IfNone, IfOk, OnOk, OnErr};
ghost use Rattle.acse_ber.specs.Password.{IsPassword};
ghost use Rattle.meter_server.specs.JournaledSessions.{client_steps, client_terms};
ghost use Rattle.meter_server.specs.Listening.{setup_failures_in};
ghost use Rattle.port_threads.specs.Listening.{IfReady, RisesBy, setup_failures_of};
ghost use Rattle.session_io.specs.Serving.{ServesSession};
ghost use Rattle.session_io.specs.Sides.{input_of, outlets_of};

use crate::journaled::serve_journaled;
use crate::ports::serve_port;
use cosem_axdr::Octets;
use counted_io::{Counted, Reader, Writer};
use port_threads::{Arrival, ListenFault, PortConnection};
use session_core::SessionEnd;
use session_io::ServeFault;
use shared_meter::{Durability, Kept};
use std::alloc::{AllocError, Global};
use std::io::{Read, Write};
use std::net::TcpStream;
use std::sync::Wait;
use turn_lock::Port;

/// An output that is notified of the end of its session. The notification does not affect the
/// session.
pub trait Observer {
    /// Is called with the end of the session or its fault. The default does nothing.
    fn on_session_end(&self, _end: &Result<SessionEnd, ServeFault>) {}
}

/// A plain socket reports nothing.
impl Observer for TcpStream {}

/// A source of clients.
pub trait Listener {
    /// The stream of bytes from a client.
    type Input: Read + Drop + Send + 'static;

    /// The stream of bytes to a client, which is notified of the end of its session.
    type Output: Write + Observer + Drop + Send + 'static;

    /// Ghost predicate: the listener has failed. The default claims nothing.
    ghost has_failed: { Self → Type 0 } = { λ _. ⊤ };

    /// Ghost value: the number of clients accepted so far, if the listener counts them. The default
    /// claims nothing.
    ghost accepted: { Self → Option ℕ } = { λ _. None };

    /// Ghost value: the number of clients accepted so far whose stream could not be set up, if the
    /// listener counts them. The default claims nothing.
    ghost setup_failures: { Self → Option ℕ } = { λ _. None };

    /// Waits for the next client and returns its input and its output. Returns `None` if a client
    /// connected but its stream could not be set up; it was closed without a byte sent. After an
    /// error no further client is accepted.
    fn accept(&mut self) -> Result<Option<(Self::Input, Self::Output)>, ListenFault>
        ensures failed { OnErr result (has_failed self.new) }
        ensures accepted { OnOk result (RisesBy (accepted self.old) 1 (accepted self.new)) }
        ensures accepted_err { OnErr result (RisesBy (accepted self.old) 0 (accepted self.new)) }
        ensures setup_failures { IfOk result (λ client. RisesBy (setup_failures self.old)
            (setup_failures_in client) (setup_failures self.new)) }
        ensures setup_failures_err { OnErr result
            (RisesBy (setup_failures self.old) 0 (setup_failures self.new)) };

    /// Is called if serving ends before it accepts a client, because no memory or no thread was
    /// available: the sources of the meter's own events may end too. The default does nothing.
    fn on_early_end(&mut self) {}
}

// Serves one session through a port: with a journal, each answer waits for it.
fn serve_client<R: Reader, O: Writer, W: Wait, D: Durability>(
    rt: &W,
    alloc: Global,
    reader: &mut R,
    writer: &mut O,
    port: Port<Kept>,
    password: &Octets,
    journal: &Option<D>,
) -> (Port<Kept>, Result<SessionEnd, ServeFault>)
    requires readable { R.can_read reader.now }
    requires writable { O.can_write writer.now }
    requires password { IsPassword password.now }
    requires fits { D.fits port.lock }
    ensures served { ServesSession
        (client_steps D.is_durable D.has_ended D.was_running journal.now) password.now
        (record {
          input = input_of R.remaining R.reads R.failures reader.old;
          outlets = outlets_of O.contents O.failures writer.old port;
        })
        result.1
        (record {
          input = input_of R.remaining R.reads R.failures reader.new;
          outlets = outlets_of O.contents O.failures writer.new result.0;
        }) }
{
    match journal {
        Some(journal) => serve_journaled(rt, alloc, reader, writer, port, password, journal),
        None => serve_port(rt, alloc, reader, writer, port, password),
    }
}

// An accepted client, and a handle of the meter's journal, if the meter has one.
#[derive(Drop)]
pub(crate) struct AcceptedClient<I, O, D> {
    input: I,
    output: O,
    password: Octets,
    journal: Option<D>,
    ghost sized: { IsPassword password },
}

impl<I: Read + Drop + Send, O: Write + Observer + Drop + Send, D: Durability + Send> PortConnection<
    Port<Kept>,
> for AcceptedClient<I, O, D> {
    ghost use Rattle.std.specs.Prelude.{drop};
    ghost use Rattle.meter_server.specs.JournaledSessions.{client_terms, steps_by};
    ghost use Rattle.meter_server.specs.Sessions.{ServesClient};

    ghost terms = { λ client. client_terms client.journal client.password };

    ghost fits = { λ port. D.fits port.lock };

    ghost hands_back = { λ terms. ServesClient I.remaining O.contents
        (steps_by D.is_durable D.has_ended D.was_running terms) (drop 1 terms) };

    fn serve<W: Wait>(self, rt: &W, alloc: Global, port: Port<Kept>) -> Port<Kept> {
        let AcceptedClient {
            input,
            output,
            password,
            journal,
        } = self;
        let mut reader = Counted::new(input);
        let mut writer = Counted::new(output);
        let (port, end) = serve_client(
            rt,
            alloc,
            &mut reader,
            &mut writer,
            port,
            &password,
            &journal,
        );
        writer.into_inner().on_session_end(&end);
        port
    }
}

// Returns another handle of the journal, if there is one.
fn share_journal<D: Durability>(journal: &Option<D>) -> Result<Option<D>, AllocError>
    ensures { IfOk result (λ shared. is_some shared ≡ is_some journal.now) }
{
    match journal {
        Some(journal) => Ok(Some(journal.share()?)),
        None => Ok(None),
    }
}

// Returns the client of these streams with a copy of the password and another handle of the
// journal, `OutOfMemory` if one of these cannot be allocated, or `SetupFailed` if there are no
// streams.
fn prepare_client<I: Drop, O: Drop, D: Durability>(
    alloc: Global,
    streams: Option<(I, O)>,
    password: &Octets,
    journal: &Option<D>,
) -> Arrival<AcceptedClient<I, O, D>>
    requires { IsPassword password.now }
    ensures terms { IfReady (λ client. client_terms client.journal client.password
        ≡ client_terms journal.now password.now) result }
    ensures ready { IfSome streams (λ _. result ≢ Arrival.SetupFailed) }
    ensures none { IfNone streams (result ≡ Arrival.SetupFailed) }
    ensures counted { setup_failures_of result ≡ setup_failures_in streams }
{
    let Some((input, output)) = streams else {
        return Arrival::SetupFailed;
    };
    let Ok(journal) = share_journal(journal) else {
        return Arrival::OutOfMemory;
    };
    match password.try_clone(alloc) {
        Ok(password) => Arrival::Ready(AcceptedClient {
            input,
            output,
            password,
            journal,
        }),
        Err(_) => Arrival::OutOfMemory,
    }
}

// The clients of a listener, with the password of the management client and the meter's journal, if
// it has one.
#[derive(Drop)]
pub(crate) struct Clients<'a, 'b, L, D> {
    pub(crate) listener: &'a mut L,
    pub(crate) password: &'b Octets,
    pub(crate) journal: &'b Option<D>,
    ghost sized: { IsPassword password.now },
}

impl<'a, 'b, L: Listener, D: Durability + Send + 'static> port_threads::ConnectionSource<Port<Kept>>
    for Clients<'a, 'b, L, D> {
    type Connection = AcceptedClient<L::Input, L::Output, D>;

    ghost has_failed = { λ clients. L.has_failed clients.listener.now };

    ghost terms = { λ clients. client_terms clients.journal.now clients.password.now };

    ghost accepted = { λ clients. L.accepted clients.listener.now };

    ghost setup_failures = { λ clients. L.setup_failures clients.listener.now };

    ghost borrowed = { λ clients. Some clients.listener.ghost_name };

    fn accept(&mut self, alloc: Global) -> Result<Arrival<Self::Connection>, ListenFault> {
        let streams = self.listener.accept()?;
        Ok(prepare_client(alloc, streams, self.password, self.journal))
    }
}
