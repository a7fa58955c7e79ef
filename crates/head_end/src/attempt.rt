//! One attempt to reach a meter.
ghost use Rattle.std.specs.Prelude.{◌≡◌, if◌then◌else◌, IfOk};
ghost use Rattle.head_end.specs.Connections.{ConnectTells};
ghost use Rattle.head_end.specs.Logs.{IsNewLog};
ghost use Rattle.head_end.specs.Attempts.{State, unused, refused, connected, is_connected, state_of, connect_state, close_state};

use crate::connection::{ConnectFault, Connection, Connector};
use cosem_axdr::Octets;
use std::marker::Model;
use std::snapshot::Snapshot;

/// The state of an attempt. Contracts refer to it as a `State` of `specs/Attempts.antt`.
#[derive(Drop)]
pub struct AttemptStage<K: Connection> {
    address: Option<Snapshot<Octets>>,
    is_refused: bool,
    closed: Option<Snapshot<K>>,
}

impl<K: Connection> Model for AttemptStage<K> {
    ghost Value = { State };

    ghost view = { λ s. state_of K.log s.address s.is_refused s.closed };
}

impl<K: Connection> AttemptStage<K> {
    // Returns the stage of an unused attempt.
    fn new() -> AttemptStage<K>
        ensures { result ≡ unused }
    {
        AttemptStage {
            address: None,
            is_refused: false,
            closed: None,
        }
    }

    // Returns the stage of an attempt used for an address: the connect was refused, or the
    // connection is open.
    fn used(address: &Octets, is_refused: bool) -> AttemptStage<K>
        ensures { result ≡ (if is_refused then refused address.now else connected address.now) }
    {
        AttemptStage {
            address: Some(Snapshot::of(address)),
            is_refused,
            closed: None,
        }
    }
}

/// One attempt to reach a meter: at most one connection, whose log contracts can refer to once it
/// is closed.
///
/// Each job has an attempt of its own, so the contract of the function that runs the job states how
/// many connections it made, to which address, and which bytes were read and written.
#[derive(Drop)]
pub struct Attempt<'a, C: Connector> {
    connector: &'a C,
    /// The connector, for contracts only: it occupies no memory.
    pub source: Snapshot<C>,
    /// The state of the attempt.
    pub stage: AttemptStage<C::Connection>,
    ghost same: { source.value ≡ connector.now },
}

impl<'a, C: Connector> Attempt<'a, C> {
    /// Returns an unused attempt.
    pub fn new(connector: &'a C) -> Attempt<'a, C>
        ensures source { result.source.value ≡ connector.now }
        ensures unused { result.stage ≡ unused }
    {
        Attempt {
            connector,
            source: Snapshot::of(connector),
            stage: AttemptStage::new(),
        }
    }

    /// Connects to the meter at an address. The attempt counts as used afterwards, even if the
    /// connect fails.
    pub fn connect(&mut self, address: &Octets) -> Result<C::Connection, ConnectFault>
        requires { self.old.stage ≡ unused }
        ensures forecast { ConnectTells
            (C.tells self.old.source.value address.now) C.Connection.forecast result }
        ensures log { IfOk result (λ connection. IsNewLog (C.Connection.log connection)) }
        ensures used { self.new.stage ≡ connect_state address.now result }
        ensures source { self.new.source.value ≡ self.old.source.value }
    {
        match self.connector.connect(address) {
            Ok(connection) => {
                self.stage = AttemptStage::used(address, false);
                Ok(connection)
            }
            Err(fault) => {
                self.stage = AttemptStage::used(address, true);
                Err(fault)
            }
        }
    }

    /// Ends the connection of the attempt in order, and closes it.
    pub fn close(&mut self, connection: C::Connection)
        requires { is_connected self.old.stage }
        ensures closed { self.new.stage ≡ close_state (C.Connection.log connection) self.old.stage }
        ensures source { self.new.source.value ≡ self.old.source.value }
    {
        let mut connection = connection;
        connection.finish();
        self.stage.closed = Some(Snapshot::of(&connection));
        drop(connection);
    }
}
