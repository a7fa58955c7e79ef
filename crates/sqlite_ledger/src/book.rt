//! `SqliteBook`: a ledger's book over an SQLite connection.
ghost use Rattle.std.specs.Prelude.{◌≡◌, ◌≢◌, pos, IfOk, IfErr};
ghost use Rattle.sqlite.specs.State.{HasCleanDisk};
ghost use Rattle.sqlite.specs.Held.{state};
ghost use Rattle.sqlite_ledger.specs.Marks.{IsMarked, LeavesEntries, left_marked, left_kept};
ghost use Rattle.sqlite_ledger.specs.Outcomes.{IsSafe};
ghost use Rattle.sqlite_ledger.specs.Schema.{ledger_schema};

use crate::clock::{SecondClock, WallClock};
use crate::fault::{fault_of, is_taken};
use crate::grouping::insert_group;
use crate::marking::insert_begun;
use crate::outcome::insert_outcome;
use crate::schema::is_ledger_schema;
use campaign_ledger::{Book, LedgerFault, PlaceOutcome};
use client_core::Outcome;
use sqlite::{Alter, Connection};
use std::marker::Model;
use std::rt::HostRuntime;

/// A book over a connection to a database that has a ledger's tables. Contracts see the connection.
///
/// After a call failed, every later call returns `Failed`.
#[derive(Drop)]
pub struct SqliteBook<S: Alter + Drop> {
    conn: Connection<S>,
    clock: WallClock,
    has_failed: bool,
}

impl<S: Alter + Drop> Model for SqliteBook<S> {
    ghost use Rattle.std.specs.Prelude.{◌≡◌, false};
    ghost use Rattle.sqlite.specs.Held.{Held, held_code, state};
    ghost use Rattle.sqlite.specs.State.{HasCleanDisk};
    ghost use Rattle.sqlite_ledger.specs.Schema.{ledger_schema};

    ghost Value = { Held S };

    ghost coded = { held_code S.code };

    ghost view = { λ book. book.conn };

    ghost invariant = { λ book. book.has_failed ≡ false
        → HasCleanDisk (state S.Store book.conn) → book.conn.schema ≡ ledger_schema };
}

impl<S: Alter + Drop> SqliteBook<S> {
    /// Returns the book over a connection, or the connection if its schema is not a ledger's.
    pub fn new(rt: &HostRuntime, conn: Connection<S>) -> Result<SqliteBook<S>, Connection<S>>
        ensures ok { IfOk result (λ book. (book ≡ conn) × (book.schema ≡ ledger_schema)) }
        ensures err { IfErr result (λ same. (same ≡ conn) × (conn.schema ≢ ledger_schema)) }
    {
        if !is_ledger_schema(conn.schema()) {
            return Err(conn);
        }
        Ok(SqliteBook {
            conn,
            clock: WallClock::new(rt),
            has_failed: false,
        })
    }

    /// Returns the connection.
    pub fn into_connection(self) -> Connection<S>
        ensures { result ≡ self }
    {
        let SqliteBook { conn, .. } = self;
        conn
    }
}

impl<S: Alter + Drop> Book for SqliteBook<S> {
    ghost is_honest = { λ book. HasCleanDisk (state S.Store book) };

    ghost may_leave = { λ book entries. LeavesEntries (state S.Store book).may_leave entries };

    ghost is_marked = { λ book place. IsMarked (state S.Store book).may_leave (pos place) };

    ghost keeps = { λ book place outcome. IsSafe (state S.Store book).may_leave (pos place)
        outcome };

    ghost stays_marked = { λ book place entries down left. left_marked _ place entries down left };

    ghost stays_kept = { λ book place outcome entries down safe left.
        left_kept _ place outcome entries down safe left };

    fn mark(&mut self, place: u32) -> Result<bool, LedgerFault> {
        if self.has_failed {
            return Err(LedgerFault::Failed);
        }
        self.has_failed = true;
        let second = i64::from(self.clock.seconds());
        match insert_begun(&mut self.conn, place, second) {
            Ok(_) => {
                self.has_failed = false;
                Ok(true)
            }
            Err(error) if is_taken(error) => {
                self.has_failed = false;
                Ok(false)
            }
            Err(error) => Err(fault_of(error)),
        }
    }

    fn record(&mut self, place: u32, outcome: Outcome) -> Result<(), LedgerFault> {
        if self.has_failed {
            return Err(LedgerFault::Failed);
        }
        self.has_failed = true;
        let second = i64::from(self.clock.seconds());
        match insert_outcome(&mut self.conn, place, outcome, second) {
            Ok(_) => {
                self.has_failed = false;
                Ok(())
            }
            Err(error) => Err(fault_of(error)),
        }
    }

    fn commit(&mut self, marks: &[u32], outcomes: &[PlaceOutcome]) -> Result<(), LedgerFault> {
        if self.has_failed {
            return Err(LedgerFault::Failed);
        }
        self.has_failed = true;
        match insert_group(&mut self.conn, &mut self.clock, marks, outcomes) {
            Ok(()) => {
                self.has_failed = false;
                Ok(())
            }
            Err(error) => Err(fault_of(error)),
        }
    }
}
