//! `add_answers`: appends answers.
ghost use Rattle.std.specs.Prelude.{◌≡◌, [], ◌∷◌, IfOk, OnOk};
ghost use Rattle.std.specs.List.{AllByRecursion};
ghost use Rattle.sqlite.specs.State.{HasCleanDisk, IsUnchanged, Shown};
ghost use Rattle.sqlite.specs.Held.{state};
ghost use Rattle.ledger_reports.specs.declared.answer.StateAnswer.{StateAnswer};
ghost use Rattle.sqlite_ledger.specs.Answers.{AddsAnswers, IsLast, IsSafe, ShowsLast, answer_rows};
ghost use Rattle.sqlite_ledger.specs.Answers.{second_of, select_last};
ghost use Rattle.sqlite_ledger.specs.AnswersSchema.{answers_schema};

use crate::at_rest::check_at_rest;
use crate::open_fault::LedgerOpenFault;
use ledger_reports::StateAnswer;
use sqlite::types::{ToSql, ValueRef};
use sqlite::{Alter, Connection, Error, Row};

// Appends an answer: its number, the name and the address of the job, the state, and the second.
const INSERT_ANSWER: &str =
    "INSERT INTO answer (number, name, address, state, asked_at) VALUES (?1, ?2, ?3, ?4, ?5)";

// The greatest number of an answer, or NULL without one.
const SELECT_LAST: &str = "SELECT max(number) FROM answer";

// Returns the second of an asking, or 0 if the clock could not be read.
fn second_of(asked_at: Option<u32>) -> u32
    ensures { result ≡ second_of asked_at }
{
    match asked_at {
        Some(second) => second,
        None => 0,
    }
}

// Appends an answer with this number, in a transaction of its own. Returns the number of rows
// written. Fails if there is an answer with the number.
fn insert_answer<S: Alter>(
    conn: &mut Connection<S>,
    number: u32,
    answer: &StateAnswer,
) -> Result<usize, Error>
    ensures clean { HasCleanDisk (state S.Store conn.new) → HasCleanDisk (state S.Store conn.old) }
    ensures recorded { HasCleanDisk (state S.Store conn.new) → conn.old.schema ≡ answers_schema
        → OnOk result (IsSafe (state S.Store conn.new).may_leave answer.now) }
    ensures remains_recorded { HasCleanDisk (state S.Store conn.new)
        → conn.old.schema ≡ answers_schema
        → (other : StateAnswer) → IsSafe (state S.Store conn.old).may_leave other
        → IsSafe (state S.Store conn.new).may_leave other }
    ensures added { HasCleanDisk (state S.Store conn.new) → conn.old.schema ≡ answers_schema
        → OnOk result (AddsAnswers (answer_rows (state S.Store conn.old)) (answer.now ∷ [])
        (answer_rows (state S.Store conn.new))) }
    ensures schema { HasCleanDisk (state S.Store conn.new) → conn.old.schema ≡ answers_schema
        → OnOk result (conn.new.schema ≡ answers_schema) }
{
    check_at_rest(conn)?;
    let insert = conn.prepare(INSERT_ANSWER)?;
    let values = [
        ToSql::to_sql(number),
        ValueRef::Text(answer.name.as_slice()),
        ValueRef::Text(answer.address.as_slice()),
        ToSql::to_sql(u32::from(answer.answer.state)),
        ToSql::to_sql(second_of(answer.answer.asked_at)),
    ];
    insert.execute(conn, &values)
}

// Returns the row with the greatest number of an answer, which is NULL without one.
fn select_last<S: Alter>(conn: &mut Connection<S>) -> Result<Vec<Row>, Error>
    ensures shown { HasCleanDisk (state S.Store conn.new) → IfOk result (λ rows.
        Shown select_last [] (state S.Store conn.old) (state S.Store conn.new) rows.items) }
    ensures clean { HasCleanDisk (state S.Store conn.new) → HasCleanDisk (state S.Store conn.old) }
    ensures unchanged { HasCleanDisk (state S.Store conn.new) → conn.old.schema ≡ answers_schema
        → OnOk result (IsUnchanged (state S.Store conn.old) (state S.Store conn.new)) }
{
    conn.query_all(SELECT_LAST, &[])
}

// Returns the number in the first of these rows, or 0 without one.
fn number_in(rows: &[Row]) -> Result<u32, Error>
    ensures { IfOk result (IsLast rows.now) }
{
    let Some(row) = rows.first() else {
        return Ok(0);
    };
    let number: Option<u32> = row.get(0)?;
    Ok(number.unwrap_or(0))
}

/// Returns the number of the last answer, as the query of the greatest number shows it, or 0
/// without one, and changes nothing.
///
/// Errors: `File` and `Memory`.
pub fn last_number<S: Alter>(conn: &mut Connection<S>) -> Result<u32, LedgerOpenFault>
    ensures last { HasCleanDisk (state S.Store conn.new) → IfOk result (λ last.
        ShowsLast (state S.Store conn.old) (state S.Store conn.new) last) }
    ensures clean { HasCleanDisk (state S.Store conn.new) → HasCleanDisk (state S.Store conn.old) }
    ensures unchanged { HasCleanDisk (state S.Store conn.new) → conn.old.schema ≡ answers_schema
        → OnOk result (IsUnchanged (state S.Store conn.old) (state S.Store conn.new)) }
{
    let rows = select_last(conn)?;
    Ok(number_in(&rows)?)
}

/// Appends answers, in their order, with the numbers after `last`: the table then has one row more
/// for each. Answers that were there remain, also if it fails.
///
/// Errors: `File`, also if one of the numbers is taken, and `Memory`.
pub fn add_answers<S: Alter>(
    conn: &mut Connection<S>,
    last: u32,
    answers: &[StateAnswer],
) -> Result<(), LedgerOpenFault>
    ensures clean { HasCleanDisk (state S.Store conn.new) → HasCleanDisk (state S.Store conn.old) }
    ensures recorded { HasCleanDisk (state S.Store conn.new) → conn.old.schema ≡ answers_schema
        → OnOk result (AllByRecursion (IsSafe (state S.Store conn.new).may_leave) answers.now) }
    ensures remains_recorded { HasCleanDisk (state S.Store conn.new)
        → conn.old.schema ≡ answers_schema
        → (other : StateAnswer) → IsSafe (state S.Store conn.old).may_leave other
        → IsSafe (state S.Store conn.new).may_leave other }
    ensures added { HasCleanDisk (state S.Store conn.new) → conn.old.schema ≡ answers_schema
        → OnOk result (AddsAnswers (answer_rows (state S.Store conn.old)) answers.now
        (answer_rows (state S.Store conn.new))) }
{
    let mut number = last;
    'answers: for answer in answers {
        number = number.saturating_add(1);
        insert_answer(conn, number, answer)?;
    }
    Ok(())
}
