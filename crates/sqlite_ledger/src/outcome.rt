//! The outcomes of a ledger's file: `insert_outcome` writes one, `read_outcome` reads one.
ghost use Rattle.std.specs.Prelude.{◌≡◌, ℤ, pos, Some, IfOk, IfSome, OnOk};
ghost use Rattle.sqlite.specs.State.{HasCleanDisk};
ghost use Rattle.sqlite.specs.Held.{state};
ghost use Rattle.sqlite.specs.declared.types.Value.{Value};
ghost use Rattle.sqlite_ledger.specs.Schema.{ledger_schema};
ghost use Rattle.sqlite_ledger.specs.Marks.{IsMarked};
ghost use Rattle.sqlite_ledger.specs.Outcomes.{kind_of, number_of, IsSafe};
ghost use Rattle.sqlite.specs.Values.{or_null};
ghost use Rattle.sqlite.specs.declared.types.Value.TheVariants.{Int, Text as Words};
ghost use Rattle.sqlite.specs.Order.{column};
ghost use Rattle.client_core.specs.declared.job.Outcome.{Outcome};

use crate::at_rest::check_at_rest;
use crate::open_fault::LedgerOpenFault;
use client_core::Outcome;
use sqlite::{Alter, Connection, Error, Row, params};

// Writes the outcome of a place: its kind, its number or NULL, and the second.
pub(crate) const INSERT_OUTCOME: &str =
    "INSERT INTO outcome (place, kind, number, at) VALUES (?1, ?2, ?3, ?4)";

// Returns the word for the outcome's kind.
pub(crate) fn kind_of(outcome: Outcome) -> &'static str
    ensures { result.now ≡ kind_of outcome }
{
    match outcome {
        Outcome::Done(_) => "done",
        Outcome::Refused(_) => "refused",
        Outcome::Rejected(_) => "rejected",
        Outcome::Unknown => "unknown",
    }
}

// Returns the number of the outcome, if it has one.
pub(crate) fn number_of(outcome: Outcome) -> Option<u32>
    ensures { or_null (λ n. Int (pos n)) result ≡ number_of outcome }
{
    match outcome {
        Outcome::Done(number) | Outcome::Refused(number) | Outcome::Rejected(number) => Some(
            u32::from(number),
        ),
        Outcome::Unknown => None,
    }
}

// Writes the outcome of a place, in a transaction of its own. An outcome that was written before
// remains. Returns the number of rows written.
pub(crate) fn insert_outcome<S: Alter>(
    conn: &mut Connection<S>,
    place: u32,
    outcome: Outcome,
    at: i64,
) -> Result<usize, Error>
    ensures clean { HasCleanDisk (state S.Store conn.new) → HasCleanDisk (state S.Store conn.old) }
    ensures recorded { HasCleanDisk (state S.Store conn.new) → conn.old.schema ≡ ledger_schema
        → OnOk result (IsSafe (state S.Store conn.new).may_leave (pos place) outcome) }
    ensures remains_marked { HasCleanDisk (state S.Store conn.new) → conn.old.schema ≡ ledger_schema
        → (other : ℤ) → IsMarked (state S.Store conn.old).may_leave other
        → IsMarked (state S.Store conn.new).may_leave other }
    ensures remains_safe { HasCleanDisk (state S.Store conn.new) → conn.old.schema ≡ ledger_schema
        → (other : ℤ) (kept : Outcome) → IsSafe (state S.Store conn.old).may_leave other kept
        → IsSafe (state S.Store conn.new).may_leave other kept }
    ensures schema { HasCleanDisk (state S.Store conn.new) → conn.old.schema ≡ ledger_schema
        → OnOk result (conn.new.schema ≡ ledger_schema) }
{
    check_at_rest(conn)?;
    let insert = conn.prepare(INSERT_OUTCOME)?;
    insert.execute(
        conn,
        params![place, kind_of(outcome), number_of(outcome), at],
    )
}

// Returns the outcome of this kind and this number, or `None` if there is none.
fn outcome_of(kind: &str, number: Option<u8>) -> Option<Outcome>
    ensures found { IfSome result (λ outcome. (kind.now ≡ kind_of outcome)
        × (or_null (λ n. Int (pos n)) number ≡ number_of outcome)) }
    ensures every_outcome { (outcome : Outcome) → kind.now ≡ kind_of outcome
        → or_null (λ n. Int (pos n)) number ≡ number_of outcome → result ≡ Some outcome }
{
    match (kind, number) {
        ("done", Some(state)) => Some(Outcome::Done(state)),
        ("refused", Some(code)) => Some(Outcome::Refused(code)),
        ("rejected", Some(diagnostic)) => Some(Outcome::Rejected(diagnostic)),
        ("unknown", None) => Some(Outcome::Unknown),
        _ => None,
    }
}

// Returns the number in a row of the table `outcome`. Fails with `NotALedger` if it is not 0 to 255
// or NULL.
fn read_number(row: &Row) -> Result<Option<u8>, LedgerOpenFault>
    ensures { IfOk result (λ number. column row.now 2 ≡ or_null (λ n. Int (pos n)) number) }
{
    let number: Option<i64> = row.get(2)?;
    match number.map(u8::try_from) {
        None => Ok(None),
        Some(Ok(number)) => Ok(Some(number)),
        Some(Err(_)) => Err(LedgerOpenFault::NotALedger),
    }
}

// Returns the outcome of a row of the table `outcome`, whose columns 1 and 2 are the kind and the
// number. Fails with `NotALedger` if they are those of no outcome.
pub(crate) fn read_outcome(row: &Row) -> Result<Outcome, LedgerOpenFault>
    ensures { IfOk result (λ outcome. (column row.now 1 ≡ Words (kind_of outcome))
        × (column row.now 2 ≡ number_of outcome)) }
{
    let kind: String = row.get(1)?;
    let number = read_number(row)?;
    match outcome_of(kind.as_str(), number) {
        Some(outcome) => Ok(outcome),
        None => Err(LedgerOpenFault::NotALedger),
    }
}
