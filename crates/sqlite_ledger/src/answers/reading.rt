//! `read_answers`: reads all answers.
ghost use Rattle.std.specs.Prelude.{◌≡◌, ◌⊎◌, [], IfOk, OnOk};
ghost use Rattle.std.specs.List.{All, AllZip};
ghost use Rattle.sqlite.specs.State.{HasCleanDisk, IsUnchanged, Shown};
ghost use Rattle.sqlite.specs.Held.{state};
ghost use Rattle.sqlite_ledger.specs.Answers.{AreShown, IsAnswerIn, IsControlState, select_answers};
ghost use Rattle.sqlite_ledger.specs.AnswersSchema.{answers_schema};

use crate::answers::schema::is_answers_schema;
use crate::open_fault::LedgerOpenFault;
use crate::reading::time_of;
use crate::schema::is_empty;
use cosem_axdr::Octets;
use ledger_reports::{MeterState, StateAnswer};
use sqlite::{Alter, Connection, Error, Row};
use std::alloc::Global;

// The answers, the first one first.
const SELECT_ANSWERS: &str = "SELECT name, address, state, asked_at FROM answer ORDER BY number";

// The last state of the control: ready for reconnection.
const MAX_CONTROL_STATE: u8 = 2;

// Returns the answer of a row of the table `answer`. Fails with `Answers` if its state is none, and
// with `NotALedger` if another value of the row is not that of an answer.
fn read_answer(alloc: Global, row: &Row) -> Result<StateAnswer, LedgerOpenFault>
    ensures { IfOk result (IsAnswerIn row.now) }
{
    let name: String = row.get(0)?;
    let address: String = row.get(1)?;
    let number: i64 = row.get(2)?;
    let asked_at: i64 = row.get(3)?;
    let state = match u8::try_from(number) {
        Ok(state) if state <= MAX_CONTROL_STATE => state,
        _ => return Err(LedgerOpenFault::Answers),
    };
    Ok(StateAnswer {
        name: Octets::from_slice(alloc, name.as_bytes())?,
        address: Octets::from_slice(alloc, address.as_bytes())?,
        answer: MeterState {
            state,
            asked_at: time_of(asked_at),
        },
    })
}

// Returns the answers of these rows.
fn answers_of(alloc: Global, rows: &[Row]) -> Result<Vec<StateAnswer>, LedgerOpenFault>
    ensures answers { IfOk result (λ answers. AllZip IsAnswerIn rows.now answers.items) }
    ensures states { IfOk result (λ answers. All (λ answer. IsControlState answer.answer.state)
        answers.items) }
{
    let mut answers = Vec::with_capacity(alloc, rows.len())?;
    'rows: for row in rows {
        let answer = match read_answer(alloc, row) {
            Ok(answer) => answer,
            Err(LedgerOpenFault::NotALedger) => return Err(LedgerOpenFault::Answers),
            Err(fault) => return Err(fault),
        };
        if answers.push(answer).is_err() {
            return Err(LedgerOpenFault::Memory);
        }
    }
    Ok(answers)
}

// Returns the rows of the table `answer`, in the order of their numbers.
fn select_answers<S: Alter>(conn: &mut Connection<S>) -> Result<Vec<Row>, Error>
    ensures shown { HasCleanDisk (state S.Store conn.new) → IfOk result (λ rows.
        Shown select_answers [] (state S.Store conn.old) (state S.Store conn.new) rows.items) }
    ensures clean { HasCleanDisk (state S.Store conn.new) → HasCleanDisk (state S.Store conn.old) }
    ensures unchanged { HasCleanDisk (state S.Store conn.new) → conn.old.schema ≡ answers_schema
        → OnOk result (IsUnchanged (state S.Store conn.old) (state S.Store conn.new)) }
{
    conn.query_all(SELECT_ANSWERS, &[])
}

/// Returns all answers, the first one first, and changes nothing. They are those of the rows that
/// the query of all answers shows.
///
/// Errors: `Answers` for a database with other tables, or with a state that the control does not
/// have; `File` and `Memory`.
pub fn read_answers<S: Alter>(
    alloc: Global,
    conn: &mut Connection<S>,
) -> Result<Vec<StateAnswer>, LedgerOpenFault>
    ensures clean { HasCleanDisk (state S.Store conn.new) → HasCleanDisk (state S.Store conn.old) }
    ensures answers { HasCleanDisk (state S.Store conn.new) → IfOk result (λ answers.
        AreShown (state S.Store conn.old) (state S.Store conn.new) answers.items) }
    ensures schema { IfOk result (λ _. conn.old.schema ≡ answers_schema) }
    ensures states { IfOk result (λ answers. All (λ answer. IsControlState answer.answer.state)
        answers.items) }
    ensures unchanged { HasCleanDisk (state S.Store conn.new)
        → OnOk result (IsUnchanged (state S.Store conn.old) (state S.Store conn.new)) }
{
    if !is_answers_schema(conn.schema()) {
        return Err(LedgerOpenFault::Answers);
    }
    let rows = select_answers(conn)?;
    answers_of(alloc, &rows)
}

/// Returns all answers, the first one first, or none if the database has no table yet, as a crash
/// may leave it before the table is made. They are those of the rows that the query of all answers
/// shows. Changes nothing.
///
/// Errors: `Answers` for a database with other tables, or with a state that the control does not
/// have; `File` and `Memory`.
pub fn read_answers_if_made<S: Alter>(
    alloc: Global,
    conn: &mut Connection<S>,
) -> Result<Vec<StateAnswer>, LedgerOpenFault>
    ensures clean { HasCleanDisk (state S.Store conn.new) → HasCleanDisk (state S.Store conn.old) }
    ensures answers { HasCleanDisk (state S.Store conn.new) → conn.old.schema ≡ answers_schema
        → IfOk result (λ answers.
        AreShown (state S.Store conn.old) (state S.Store conn.new) answers.items) }
    ensures schema { IfOk result (λ answers. (conn.old.schema ≡ answers_schema)
        ⊎ ((conn.old.schema.tables ≡ []) × (answers.items ≡ []))) }
    ensures states { IfOk result (λ answers. All (λ answer. IsControlState answer.answer.state)
        answers.items) }
    ensures unchanged { HasCleanDisk (state S.Store conn.new) → conn.old.schema ≡ answers_schema
        → OnOk result (IsUnchanged (state S.Store conn.old) (state S.Store conn.new)) }
{
    if is_empty(conn.schema()) {
        return Ok(Vec::new(alloc));
    }
    read_answers(alloc, conn)
}
