//! `insert_begun`: writes the mark of a place.
ghost use Rattle.std.specs.Prelude.{◌≡◌, ℤ, pos, OnOk, IfErr, IsTrue};
ghost use Rattle.sqlite.specs.State.{HasCleanDisk};
ghost use Rattle.sqlite.specs.Held.{state};
ghost use Rattle.sqlite_ledger.specs.Schema.{ledger_schema};
ghost use Rattle.sqlite_ledger.specs.Marks.{IsMarked};
ghost use Rattle.sqlite_ledger.specs.Outcomes.{IsSafe};
ghost use Rattle.client_core.specs.declared.job.Outcome.{Outcome};
ghost use Rattle.sqlite_ledger.specs.Taken.{is_taken};

use crate::at_rest::check_at_rest;
use sqlite::{Alter, Connection, Error, params};

// Writes the mark of a place and the second of the mark. It fails if the mark is there.
pub(crate) const INSERT_BEGUN: &str = "INSERT INTO begun (place, at) VALUES (?1, ?2)";

// Writes the mark of a place, in a transaction of its own: its key is the right to send the command
// of the place. Returns the number of rows written. Fails if the mark is there.
pub(crate) fn insert_begun<S: Alter>(
    conn: &mut Connection<S>,
    place: u32,
    at: i64,
) -> Result<usize, Error>
    ensures clean { HasCleanDisk (state S.Store conn.new) → HasCleanDisk (state S.Store conn.old) }
    ensures durable { HasCleanDisk (state S.Store conn.new) → conn.old.schema ≡ ledger_schema
        → OnOk result (IsMarked (state S.Store conn.new).may_leave (pos place)) }
    ensures fresh { HasCleanDisk (state S.Store conn.new) → conn.old.schema ≡ ledger_schema
        → OnOk result (¬ IsMarked (state S.Store conn.old).may_leave (pos place)) }
    ensures remains_marked { HasCleanDisk (state S.Store conn.new) → conn.old.schema ≡ ledger_schema
        → (other : ℤ) → IsMarked (state S.Store conn.old).may_leave other
        → IsMarked (state S.Store conn.new).may_leave other }
    ensures remains_safe { HasCleanDisk (state S.Store conn.new) → conn.old.schema ≡ ledger_schema
        → (other : ℤ) (kept : Outcome) → IsSafe (state S.Store conn.old).may_leave other kept
        → IsSafe (state S.Store conn.new).may_leave other kept }
    ensures schema { HasCleanDisk (state S.Store conn.new) → conn.old.schema ≡ ledger_schema
        → OnOk result (conn.new.schema ≡ ledger_schema) }
    ensures taken { HasCleanDisk (state S.Store conn.new) → conn.old.schema ≡ ledger_schema
        → IfErr result (λ e. IsTrue (is_taken e) → conn.new.schema ≡ ledger_schema) }
    ensures was_marked { HasCleanDisk (state S.Store conn.new) → conn.old.schema ≡ ledger_schema
        → IfErr result (λ e. IsTrue (is_taken e)
        → IsMarked (state S.Store conn.old).may_leave (pos place)) }
{
    check_at_rest(conn)?;
    let insert = conn.prepare(INSERT_BEGUN)?;
    insert.execute(conn, params![place, at])
}
