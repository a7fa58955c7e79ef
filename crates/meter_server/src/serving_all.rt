//! The whole server: sessions of clients, blocks of samples, moments and presses on one meter, each
//! session and source in a thread of its own.
ghost use Rattle.std.specs.Prelude.{◌≡◌, ⊤, IfOk};
ghost use Rattle.acse_ber.specs.Password.{IsPassword};
ghost use Rattle.shared_meter.specs.Calls.{IsLegal as IsLegalRun};
ghost use Rattle.meter_server.specs.JournaledSessions.{client_steps};
ghost use Rattle.meter_server.specs.Ports.{PortSteps};
ghost use Rattle.meter_server.specs.ServingAll.{Accounts, EndsWith, IsServed, IsSpent, counts_of};
ghost use Rattle.meter_server.specs.ServingAll.{worker_fault, first_of};
ghost use Rattle.meter_server.specs.Sessions.{ServesClient};
ghost use Rattle.meter_server.specs.WithSources.{Forecasts, ServesAll, ServesWith, first_then};
ghost use Rattle.meter_server.specs.WithSources.{outcome, port_after};
ghost use Rattle.port_threads.specs.Ports.{PortContinues, AreJoined, AreServed};
ghost use Rattle.turn_lock.specs.Calls.{IsLegal};
ghost use Rattle.turn_lock.specs.Shown.{IsSame};

use crate::listening::{Clients, Listener};
use crate::workers::SourceWorker;
use cosem_axdr::Octets;
use port_threads::{Worker, WorkerThread, join_worker, serve_connections, start_worker};
use session_io::ServeFault;
use shared_meter::{
    BlockEvents, BlockSource, ButtonSource, Durability, EventSource, Kept, MomentEvents,
    MomentSource, NoJournal, PressEvents,
};
use std::alloc::Global;
use std::sync::Wait;
use std::thread::Threads;
use turn_lock::{CallFault, Port};

/// The numbers of connections by their result. Each saturates at `u64::MAX`.
#[derive(Clone, Copy, Debug, PartialEq, Eq)]
pub struct Served {
    /// The number of connections that were given to a session.
    pub served: u64,
    /// The number of connections that were closed without a byte sent.
    pub turned_away: u64,
}

/// The terms on which clients are served.
#[derive(Drop)]
pub struct ClientTerms<'a, D> {
    /// The password of the management client, 1 to 32 bytes.
    pub password: &'a Octets,
    /// The number of connections to accept; 0 means no limit.
    pub limit: u64,
    /// The meter's journal, which has to be on the disk before each answer; `None` if it has none.
    /// It must be the journal of a meter that notes its lines (`Kept::with_journal`): with one that
    /// does not, each session ends at its first event.
    pub journal: Option<D>,
}

/// The sources of the meter's own events: blocks of power samples, moments of the clock, presses of
/// the button.
#[derive(Drop)]
pub struct Sources<B, M, U> {
    pub blocks: B,
    pub moments: M,
    pub buttons: U,
}

/// The sources of the meter's own events, as one value.
pub trait OwnSources: Drop {
    /// The source of blocks of power samples.
    type Blocks: BlockSource + Send + 'static;

    /// The source of moments of the clock.
    type Moments: MomentSource + Send + 'static;

    /// The source of presses of the button.
    type Presses: ButtonSource + Send + 'static;

    /// What the sources have yet to return, each if it declares it.
    ghost forecasts: { Self → Forecasts };

    /// Returns the sources.
    fn into_sources(self) -> Sources<Self::Blocks, Self::Moments, Self::Presses>
        ensures { forecasts self ≡ record {
          blocks = Self.Blocks.forecast result.blocks;
          moments = Self.Moments.forecast result.moments;
          presses = Self.Presses.forecast result.buttons;
        } };
}

impl<B, M, U> OwnSources for Sources<B, M, U>
where
    B: BlockSource + Send + 'static,
    M: MomentSource + Send + 'static,
    U: ButtonSource + Send + 'static,
{
    type Blocks = B;

    type Moments = M;

    type Presses = U;

    ghost forecasts = { λ sources. record {
      blocks = B.forecast sources.blocks;
      moments = M.forecast sources.moments;
      presses = U.forecast sources.buttons;
    } };

    fn into_sources(self) -> Sources<B, M, U> {
        self
    }
}

// Returns the first fault in this order: out of memory, the fault of the worker, the fault of the
// clients.
fn first_fault(
    served: Result<Served, ServeFault>,
    end: Option<Result<(), CallFault>>,
) -> Result<Served, ServeFault>
    ensures { result ≡ first_of served (worker_fault end) }
{
    match (served, end) {
        (Err(ServeFault::Memory), _) => Err(ServeFault::Memory),
        (_, None) => Err(ServeFault::Memory),
        (_, Some(Err(fault))) => Err(ServeFault::from(fault)),
        (served, Some(Ok(()))) => served,
    }
}

// Serves the clients of a listener.
fn serve_clients<
    L: Listener,
    D: Durability + Send + 'static,
    R: Threads + Wait + Copy + Send + 'static,
>(
    rt: &R,
    alloc: Global,
    listener: &mut L,
    port: &mut Port<Kept>,
    terms: &ClientTerms<'_, D>,
) -> Result<Served, ServeFault>
    requires password { IsPassword terms.now.password.now }
    requires fits { D.fits port.old.lock }
    ensures port_continues { PortContinues port.old port.new }
    ensures joined { AreJoined port.old.known.splits port.new }
    ensures sessions { AreServed
        (ServesClient L.Input.remaining L.Output.contents
        (client_steps D.is_durable D.has_ended D.was_running terms.now.journal)
        terms.now.password.now)
        port.old.known.splits port.new }
    ensures served { IfOk result (IsServed port.old.known.splits port.new.known.splits) }
    ensures accounts { Accounts terms.now.limit
        (counts_of L.accepted L.setup_failures listener.old)
        (counts_of L.accepted L.setup_failures listener.new) ⊥ (L.has_failed listener.new) result }
{
    let mut clients = Clients {
        listener,
        password: terms.password,
        journal: &terms.journal,
    };
    let Ok(accepted) = serve_connections(rt, alloc, &mut clients, port, terms.limit) else {
        clients.listener.on_early_end();
        return Err(ServeFault::Memory);
    };
    if accepted.has_starved {
        return Err(ServeFault::Memory);
    }
    if accepted.has_failed {
        return Err(ServeFault::Listen);
    }
    Ok(Served {
        served: accepted.served,
        turned_away: accepted.turned_away,
    })
}

// Joins in the port of a worker, after the clients that were served in parallel, and returns the
// first fault of both.
fn join_both<K: Worker<Port<Kept>, End = Result<(), CallFault>>, R: Threads>(
    rt: &R,
    running: WorkerThread<Kept, K, Result<(), CallFault>>,
    port: &mut Port<Kept>,
    served: Result<Served, ServeFault>,
) -> Result<Served, ServeFault>
    requires lock { running.promise.port.value.lock ≡ port.old.lock }
    requires hands_back { (w : _) (p : _) (q : _) (end : _) → K.did w p q end → IsSame p q }
    ensures { let task = running.promise
        in EndsWith (K.did task.worker.value) task.port.value served result port.old port.new }
{
    let end = join_worker(rt, running, port);
    first_fault(served, end)
}

// Serves the clients and passes on the events of a source, in parallel.
fn serve_with_one<
    L: Listener,
    S: EventSource + Send + 'static,
    D: Durability + Send + 'static,
    R: Threads + Wait + Copy + Send + 'static,
>(
    rt: &R,
    alloc: Global,
    listener: &mut L,
    source: S,
    port: &mut Port<Kept>,
    terms: &ClientTerms<'_, D>,
) -> Result<Served, ServeFault>
    requires password { IsPassword terms.now.password.now }
    requires fits { D.fits port.old.lock }
    ensures serves { ServesWith
        (ServesClient L.Input.remaining L.Output.contents
        (client_steps D.is_durable D.has_ended D.was_running terms.now.journal)
        terms.now.password.now)
        1 (first_then (S.can_follow source) (λ _ _. ⊤))
        port.old port.new result }
    ensures accounts { Accounts terms.now.limit
        (counts_of L.accepted L.setup_failures listener.old)
        (counts_of L.accepted L.setup_failures listener.new) (IsSpent port.new)
        (L.has_failed listener.new) result }
{
    let Some(running) = start_worker(rt, alloc, SourceWorker { source }, port) else {
        listener.on_early_end();
        return Err(ServeFault::Memory);
    };
    let served = serve_clients(rt, alloc, listener, port, terms);
    join_both(rt, running, port, served)
}

// Serves the clients and passes on the events of two sources, in parallel.
fn serve_with_two<
    L: Listener,
    S: EventSource + Send + 'static,
    T: EventSource + Send + 'static,
    D: Durability + Send + 'static,
    R: Threads + Wait + Copy + Send + 'static,
>(
    rt: &R,
    alloc: Global,
    listener: &mut L,
    sources: (S, T),
    port: &mut Port<Kept>,
    terms: &ClientTerms<'_, D>,
) -> Result<Served, ServeFault>
    requires password { IsPassword terms.now.password.now }
    requires fits { D.fits port.old.lock }
    ensures serves { ServesWith
        (ServesClient L.Input.remaining L.Output.contents
        (client_steps D.is_durable D.has_ended D.was_running terms.now.journal)
        terms.now.password.now)
        2 (first_then (S.can_follow sources.0)
        (first_then (T.can_follow sources.1) (λ _ _. ⊤)))
        port.old port.new result }
    ensures accounts { Accounts terms.now.limit
        (counts_of L.accepted L.setup_failures listener.old)
        (counts_of L.accepted L.setup_failures listener.new) (IsSpent port.new)
        (L.has_failed listener.new) result }
{
    let (source, other) = sources;
    let Some(running) = start_worker(rt, alloc, SourceWorker { source }, port) else {
        drop(other);
        listener.on_early_end();
        return Err(ServeFault::Memory);
    };
    let served = serve_with_one(rt, alloc, listener, other, port, terms);
    join_both(rt, running, port, served)
}

// Serves the clients and passes on the events of three sources, in parallel.
fn serve_with_three<
    L: Listener,
    S: EventSource + Send + 'static,
    T: EventSource + Send + 'static,
    U: EventSource + Send + 'static,
    D: Durability + Send + 'static,
    R: Threads + Wait + Copy + Send + 'static,
>(
    rt: &R,
    alloc: Global,
    listener: &mut L,
    sources: (S, (T, U)),
    port: &mut Port<Kept>,
    terms: &ClientTerms<'_, D>,
) -> Result<Served, ServeFault>
    requires password { IsPassword terms.now.password.now }
    requires fits { D.fits port.old.lock }
    ensures serves { ServesWith
        (ServesClient L.Input.remaining L.Output.contents
        (client_steps D.is_durable D.has_ended D.was_running terms.now.journal)
        terms.now.password.now)
        3 (first_then (S.can_follow sources.0)
        (first_then (T.can_follow sources.1.0)
        (first_then (U.can_follow sources.1.1) (λ _ _. ⊤))))
        port.old port.new result }
    ensures accounts { Accounts terms.now.limit
        (counts_of L.accepted L.setup_failures listener.old)
        (counts_of L.accepted L.setup_failures listener.new) (IsSpent port.new)
        (L.has_failed listener.new) result }
{
    let (source, others) = sources;
    let Some(running) = start_worker(rt, alloc, SourceWorker { source }, port) else {
        drop(others);
        listener.on_early_end();
        return Err(ServeFault::Memory);
    };
    let served = serve_with_two(rt, alloc, listener, others, port, terms);
    join_both(rt, running, port, served)
}

/// Serves clients on these terms, and passes the events of a meter's own sources to it, as
/// [`serve_all`] says, with its results and its errors. If the meter has a journal, each session
/// has a handle of it, and writes an answer only after the lines of all calls that its port has
/// seen are on the disk: each call of its port is a `JournalSteps`. Sources do not wait for the
/// journal.
///
/// A connection for which no handle of the journal is available is closed without a byte sent,
/// counted as turned away, and leads to the fault `Memory`. A failure of the journal ends each
/// session that waits for it or would change the meter, and is not a fault of the server.
pub fn serve<
    L: Listener,
    S: OwnSources,
    D: Durability + Send + 'static,
    R: Threads + Wait + Copy + Send + 'static,
>(
    rt: &R,
    alloc: Global,
    listener: &mut L,
    sources: S,
    port: Port<Kept>,
    terms: &ClientTerms<'_, D>,
) -> (Port<Kept>, Result<Served, ServeFault>)
    requires password { IsPassword terms.now.password.now }
    requires fits { D.fits port.lock }
    ensures lawful { IsLegal IsLegalRun result.0.known }
    ensures serves { ServesAll
        (ServesClient L.Input.remaining L.Output.contents
        (client_steps D.is_durable D.has_ended D.was_running terms.now.journal)
        terms.now.password.now)
        (S.forecasts sources) port result.0 result.1 }
    ensures accounts { Accounts terms.now.limit
        (counts_of L.accepted L.setup_failures listener.old)
        (counts_of L.accepted L.setup_failures listener.new) (IsSpent result.0)
        (L.has_failed listener.new) result.1 }
{
    let mut port = port;
    let Sources {
        blocks,
        moments,
        buttons,
    } = sources.into_sources();
    let blocks = BlockEvents::new(blocks);
    let moments = MomentEvents { source: moments };
    let presses = PressEvents { source: buttons };
    let events = (blocks, (moments, presses));
    let served = serve_with_three(rt, alloc, listener, events, &mut port, terms);
    // (no effect: the contract needs this law)
    port.history_is_legal();
    (port, served)
}

/// Serves clients, and passes blocks of samples, moments and presses to one meter: in a thread for
/// each of at most eight open sessions and one for each of the three sources, each with a port of
/// its own. The management client has this password, 1 to 32 bytes.
///
/// Returns once every source is at its end, every session has ended, and `limit` connections
/// arrived (0 means no limit) or the listener failed. A connection is closed without a byte sent
/// and counted as turned away if eight sessions are open, if no port, thread or memory is available
/// for it, or if its stream could not be set up.
///
/// Returns the port in every case: it has seen a legal history that begins with what it had seen
/// before, and every port that was split off is joined in. After `Ok` all events that a source
/// declared were passed on, in order: the blocks by the first of these ports, with reads of the
/// thresholds between them, the moments by the second and the presses by the third. In every case
/// each further port made the calls of one session, which read a client's bytes and wrote the
/// answers to it. After `Ok` the listener accepted as many clients as are counted, unless the count
/// reached `u64::MAX`; and if fewer than eight were served, those turned away are the ones whose
/// streams could not be set up.
///
/// Returns the first of these faults, and no other. `Memory`: the memory for eight sessions could
/// not be allocated, or no port, thread or copy of the password was available for a worker or a
/// connection. `Exhausted`: the meter accepts no more events of the sampler, the clock or the
/// button; the port has read that all turns of the lock were drawn. `Listen`: the listener failed;
/// all events that each source declared were passed on. A session's own fault ends only that
/// session.
pub fn serve_all<
    L: Listener,
    B: BlockSource + Send + 'static,
    M: MomentSource + Send + 'static,
    U: ButtonSource + Send + 'static,
    R: Threads + Wait + Copy + Send + 'static,
>(
    rt: &R,
    alloc: Global,
    listener: &mut L,
    blocks: B,
    moments: M,
    buttons: U,
    port: Port<Kept>,
    password: &Octets,
    limit: u64,
) -> Result<(Port<Kept>, Served), (Port<Kept>, ServeFault)>
    requires { IsPassword password.now }
    ensures lawful { IsLegal IsLegalRun (port_after result).known }
    ensures serves { ServesAll
        (ServesClient L.Input.remaining L.Output.contents PortSteps password.now)
        (record {
          blocks = B.forecast blocks;
          moments = M.forecast moments;
          presses = U.forecast buttons;
        })
        port (port_after result) (outcome result) }
    ensures accounts { Accounts limit
        (counts_of L.accepted L.setup_failures listener.old)
        (counts_of L.accepted L.setup_failures listener.new) (IsSpent (port_after result))
        (L.has_failed listener.new) (outcome result) }
{
    let sources = Sources {
        blocks,
        moments,
        buttons,
    };
    let terms: ClientTerms<'_, NoJournal> = ClientTerms {
        password,
        limit,
        journal: None,
    };
    let (port, served) = serve(rt, alloc, listener, sources, port, &terms);
    match served {
        Ok(served) => Ok((port, served)),
        Err(fault) => Err((port, fault)),
    }
}
