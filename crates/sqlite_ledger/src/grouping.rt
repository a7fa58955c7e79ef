//! `insert_group`: writes marks and outcomes in one transaction.
ghost use Rattle.std.specs.Prelude.{◌≡◌, [], ◌∷◌, ℕ, ℤ, pos, true, IfOk, OnOk};
ghost use Rattle.sqlite.specs.State.{HasCleanDisk};
ghost use Rattle.sqlite.specs.Held.{state};
ghost use Rattle.client_core.specs.declared.job.Outcome.{Outcome};
ghost use Rattle.campaign_ledger.specs.Groups.{has, has_outcome};
ghost use Rattle.sqlite_ledger.specs.Groups.{AddsGroup, AreTimed, Begins, CommitsAll, IsInside};
ghost use Rattle.sqlite_ledger.specs.Groups.{LeavesNoMore, LeavesOrCommits};
ghost use Rattle.sqlite_ledger.specs.Marks.{IsMarked};
ghost use Rattle.sqlite_ledger.specs.Outcomes.{IsSafe};
ghost use Rattle.sqlite_ledger.specs.Schema.{ledger_schema};

use crate::at_rest::check_at_rest;
use crate::clock::SecondClock;
use crate::marking::INSERT_BEGUN;
use crate::outcome::{INSERT_OUTCOME, kind_of, number_of};
use campaign_ledger::PlaceOutcome;
use client_core::Outcome;
use sqlite::{Alter, Connection, Error, params};

// Begins a transaction.
const BEGIN: &str = "BEGIN";

// Commits the transaction.
const COMMIT: &str = "COMMIT";

// Begins a transaction.
fn begin<S: Alter>(conn: &mut Connection<S>) -> Result<usize, Error>
    ensures clean { HasCleanDisk (state S.Store conn.new) → HasCleanDisk (state S.Store conn.old) }
    ensures begins { HasCleanDisk (state S.Store conn.new) → conn.old.schema ≡ ledger_schema
        → OnOk result (Begins (state S.Store conn.old) (state S.Store conn.new)) }
    ensures crash { HasCleanDisk (state S.Store conn.new) → conn.old.schema ≡ ledger_schema
        → LeavesNoMore (state S.Store conn.old) (state S.Store conn.new) }
{
    conn.execute(BEGIN, &[])
}

// Writes the mark of a place inside the transaction. Fails if the mark is there.
fn insert_mark<S: Alter>(conn: &mut Connection<S>, place: u32, second: u32) -> Result<usize, Error>
    ensures clean { HasCleanDisk (state S.Store conn.new) → HasCleanDisk (state S.Store conn.old) }
    ensures added { HasCleanDisk (state S.Store conn.new) → IsInside (state S.Store conn.old)
        → OnOk result (AddsGroup (state S.Store conn.old) (state S.Store conn.new) second
        (place ∷ []) []) }
    ensures crash { HasCleanDisk (state S.Store conn.new) → IsInside (state S.Store conn.old)
        → LeavesNoMore (state S.Store conn.old) (state S.Store conn.new) }
{
    conn.execute(INSERT_BEGUN, params![place, second])
}

// Writes the outcome of a place inside the transaction. Fails if one is there.
fn insert_ended<S: Alter>(
    conn: &mut Connection<S>,
    place: u32,
    outcome: Outcome,
    second: u32,
) -> Result<usize, Error>
    ensures clean { HasCleanDisk (state S.Store conn.new) → HasCleanDisk (state S.Store conn.old) }
    ensures added { HasCleanDisk (state S.Store conn.new) → IsInside (state S.Store conn.old)
        → OnOk result (AddsGroup (state S.Store conn.old) (state S.Store conn.new) second []
        (record { place = place; outcome = outcome } ∷ [])) }
    ensures crash { HasCleanDisk (state S.Store conn.new) → IsInside (state S.Store conn.old)
        → LeavesNoMore (state S.Store conn.old) (state S.Store conn.new) }
{
    conn.execute(
        INSERT_OUTCOME,
        params![place, kind_of(outcome), number_of(outcome), second],
    )
}

// Writes the marks of places inside the transaction, up to the first that is there.
fn insert_marks<S: Alter>(
    conn: &mut Connection<S>,
    places: &[u32],
    second: u32,
) -> Result<(), Error>
    ensures clean { HasCleanDisk (state S.Store conn.new) → HasCleanDisk (state S.Store conn.old) }
    ensures added { HasCleanDisk (state S.Store conn.new) → IsInside (state S.Store conn.old)
        → OnOk result (AddsGroup (state S.Store conn.old) (state S.Store conn.new) second
        places.now []) }
    ensures crash { HasCleanDisk (state S.Store conn.new) → IsInside (state S.Store conn.old)
        → LeavesNoMore (state S.Store conn.old) (state S.Store conn.new) }
{
    'places: for place in places {
        insert_mark(conn, *place, second)?;
    }
    Ok(())
}

// Writes outcomes inside the transaction, up to the first whose place has one.
fn insert_outcomes<S: Alter>(
    conn: &mut Connection<S>,
    outcomes: &[PlaceOutcome],
    second: u32,
) -> Result<(), Error>
    ensures clean { HasCleanDisk (state S.Store conn.new) → HasCleanDisk (state S.Store conn.old) }
    ensures added { HasCleanDisk (state S.Store conn.new) → IsInside (state S.Store conn.old)
        → OnOk result (AddsGroup (state S.Store conn.old) (state S.Store conn.new) second []
        outcomes.now) }
    ensures crash { HasCleanDisk (state S.Store conn.new) → IsInside (state S.Store conn.old)
        → LeavesNoMore (state S.Store conn.old) (state S.Store conn.new) }
{
    'outcomes: for ended in outcomes {
        insert_ended(conn, ended.place, ended.outcome, second)?;
    }
    Ok(())
}

// Writes marks and outcomes inside the transaction, each with the second that the clock gives, up
// to the first row whose key is taken. Returns the second.
fn insert_rows<S: Alter, C: SecondClock>(
    conn: &mut Connection<S>,
    clock: &mut C,
    marks: &[u32],
    outcomes: &[PlaceOutcome],
) -> Result<u32, Error>
    ensures clean { HasCleanDisk (state S.Store conn.new) → HasCleanDisk (state S.Store conn.old) }
    ensures gave { IfOk result (C.gave clock.new) }
    ensures added { HasCleanDisk (state S.Store conn.new) → IsInside (state S.Store conn.old)
        → IfOk result (λ second. AddsGroup (state S.Store conn.old) (state S.Store conn.new) second
        marks.now outcomes.now) }
    ensures crash { HasCleanDisk (state S.Store conn.new) → IsInside (state S.Store conn.old)
        → LeavesNoMore (state S.Store conn.old) (state S.Store conn.new) }
{
    let second = clock.seconds();
    insert_marks(conn, marks, second)?;
    insert_outcomes(conn, outcomes, second)?;
    Ok(second)
}

// Commits the transaction.
fn commit<S: Alter>(conn: &mut Connection<S>) -> Result<usize, Error>
    ensures clean { HasCleanDisk (state S.Store conn.new) → HasCleanDisk (state S.Store conn.old) }
    ensures committed { HasCleanDisk (state S.Store conn.new) → IsInside (state S.Store conn.old)
        → OnOk result (CommitsAll (state S.Store conn.old) (state S.Store conn.new)) }
    ensures crash { HasCleanDisk (state S.Store conn.new) → IsInside (state S.Store conn.old)
        → LeavesOrCommits (state S.Store conn.old) (state S.Store conn.new) }
{
    conn.execute(COMMIT, &[])
}

// Writes the marks of places that have none, and outcomes of places that have none, in one
// transaction, each with the second that the clock gives.
//
// Fails if a place has a mark or an outcome, or is twice in a list. After an error the transaction
// may be open: nothing more can be written over the connection, and its close rolls it back. After
// an error or a crash the rows are all there or none of them.
pub(crate) fn insert_group<S: Alter, C: SecondClock>(
    conn: &mut Connection<S>,
    clock: &mut C,
    marks: &[u32],
    outcomes: &[PlaceOutcome],
) -> Result<(), Error>
    ensures clean { HasCleanDisk (state S.Store conn.new) → HasCleanDisk (state S.Store conn.old) }
    ensures fresh { HasCleanDisk (state S.Store conn.new) → conn.old.schema ≡ ledger_schema
        → OnOk result ((place : ℕ) → has place marks.now ≡ true
        → ¬ IsMarked (state S.Store conn.old).may_leave (pos place)) }
    ensures durable { HasCleanDisk (state S.Store conn.new) → conn.old.schema ≡ ledger_schema
        → OnOk result ((place : ℕ) → has place marks.now ≡ true
        → IsMarked (state S.Store conn.new).may_leave (pos place)) }
    ensures recorded { HasCleanDisk (state S.Store conn.new) → conn.old.schema ≡ ledger_schema
        → OnOk result ((place : ℕ) (outcome : Outcome) → has_outcome place outcome outcomes.now
        → IsSafe (state S.Store conn.new).may_leave (pos place) outcome) }
    ensures timed { HasCleanDisk (state S.Store conn.new) → conn.old.schema ≡ ledger_schema
        → OnOk result (AreTimed (C.gave clock.new) (state S.Store conn.new).may_leave marks.now
        outcomes.now) }
    ensures remains_marked { HasCleanDisk (state S.Store conn.new) → conn.old.schema ≡ ledger_schema
        → (other : ℤ) → IsMarked (state S.Store conn.old).may_leave other
        → IsMarked (state S.Store conn.new).may_leave other }
    ensures remains_safe { HasCleanDisk (state S.Store conn.new) → conn.old.schema ≡ ledger_schema
        → (other : ℤ) (kept : Outcome) → IsSafe (state S.Store conn.old).may_leave other kept
        → IsSafe (state S.Store conn.new).may_leave other kept }
    ensures schema { HasCleanDisk (state S.Store conn.new) → conn.old.schema ≡ ledger_schema
        → OnOk result (conn.new.schema ≡ ledger_schema) }
{
    check_at_rest(conn)?;
    begin(conn)?;
    insert_rows(conn, clock, marks, outcomes)?;
    commit(conn)?;
    Ok(())
}
