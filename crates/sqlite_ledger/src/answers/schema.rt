//! `is_answers_schema`: tests whether the schema in use is that of a file of answers.
ghost use Rattle.std.specs.Prelude.{◌≡◌, ◌↔◌, [], ◌∷◌, true, false, codes, IsTrue};
ghost use Rattle.sqlite.specs.Kind.TheVariants.{Integer, Text as Words};
ghost use Rattle.sqlite_ledger.specs.Schema.{strict_column};
ghost use Rattle.sqlite_ledger.specs.AnswersSchema.{answer_table, answers_schema};

use crate::schema::{is_keyed_table, is_strict_column};
use sqlite_schema::schema::{Column, Kind, Schema, Table};

// Returns whether these columns are the state of a meter and the second of the asking.
fn are_state_and_second(columns: &[Column]) -> bool
    ensures { IsTrue result ↔ (columns.now ≡ strict_column (codes "state") Integer true
        ∷ strict_column (codes "asked_at") Integer true ∷ []) }
{
    let [state, asked_at] = columns else {
        return false;
    };
    is_strict_column(state, "state", Kind::Integer, true)
        && is_strict_column(asked_at, "asked_at", Kind::Integer, true)
}

// Returns whether the table is that of the answers.
fn is_answer_table(table: &Table) -> bool
    ensures { IsTrue result ↔ (table.now ≡ answer_table) }
{
    let [number, name, address, more @ ..] = table.columns.as_slice() else {
        return false;
    };
    is_keyed_table(table, "answer", 0)
        && is_strict_column(number, "number", Kind::Integer, false)
        && is_strict_column(name, "name", Kind::Text, true)
        && is_strict_column(address, "address", Kind::Text, true)
        && are_state_and_second(more)
}

// Returns whether the schema is that of a file of answers. The clauses about answers rest on it.
pub(crate) fn is_answers_schema(schema: &Schema) -> bool
    ensures { IsTrue result ↔ (schema.now ≡ answers_schema) }
{
    let [answer] = schema.tables.as_slice() else {
        return false;
    };
    is_answer_table(answer) && schema.indexes.is_empty() && schema.views.is_empty()
}
