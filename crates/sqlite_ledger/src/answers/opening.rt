//! `open_answers`: makes the table of the answers, or tests that it is there.
ghost use Rattle.std.specs.Prelude.{◌≡◌, ◌≢◌, [], Ok, Err, OnOk};
ghost use Rattle.sqlite_ledger.specs.declared.open_fault.LedgerOpenFault.TheVariants.{Answers};
ghost use Rattle.sqlite_ledger.specs.AnswersSchema.{answers_schema};

use crate::answers::schema::is_answers_schema;
use crate::at_rest::check_at_rest;
use crate::open_fault::LedgerOpenFault;
use crate::schema::is_empty;
use sqlite::{Alter, Connection, Error};

// The table of the answers; the README describes it.
const TABLE: &str = "\
CREATE TABLE answer (number INTEGER PRIMARY KEY, name TEXT NOT NULL, address TEXT NOT NULL, \
state INTEGER NOT NULL, asked_at INTEGER NOT NULL) STRICT";

// Makes the table if the database is empty.
fn create_if_empty<S: Alter>(conn: &mut Connection<S>) -> Result<(), Error>
    ensures answers_unchanged { conn.old.schema ≡ answers_schema → conn.new ≡ conn.old }
    ensures tables_unchanged { conn.old.schema.tables ≢ []
        → (result ≡ Ok tt) × (conn.new ≡ conn.old) }
{
    if !is_empty(conn.schema()) {
        return Ok(());
    }
    check_at_rest(conn)?;
    conn.execute_batch(TABLE)
}

/// Makes the table of the answers in an empty database, or tests that another one has it and
/// nothing else. A database with tables is unchanged.
///
/// Errors: `Answers` for a database with other tables, `File` and `Memory`.
pub fn open_answers<S: Alter>(conn: &mut Connection<S>) -> Result<(), LedgerOpenFault>
    ensures schema { OnOk result (conn.new.schema ≡ answers_schema) }
    ensures unchanged { conn.old.schema ≡ answers_schema → conn.new ≡ conn.old }
    ensures other_tables_unchanged { conn.old.schema.tables ≢ [] → conn.old.schema ≢ answers_schema
        → (result ≡ Err Answers) × (conn.new ≡ conn.old) }
{
    create_if_empty(conn)?;
    if is_answers_schema(conn.schema()) {
        Ok(())
    } else {
        Err(LedgerOpenFault::Answers)
    }
}
