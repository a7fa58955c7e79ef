//! `is_ledger_schema`: tests whether the schema in use is a ledger's.
ghost use Rattle.std.specs.Prelude.{◌≡◌, ◌↔◌, [], ◌∷◌, true, false, codes, IsTrue};
ghost use Rattle.sqlite.specs.Kind.TheVariants.{Integer, Text as Words};
ghost use Rattle.sqlite_ledger.specs.Schema.{strict_column, keyed_table, ledger_schema};
ghost use Rattle.sqlite_ledger.specs.Schema.{begun_table, outcome_table, job_table};
ghost use Rattle.sqlite_ledger.specs.Schema.{campaign_table, empty_schema};

use sqlite_schema::schema::{Column, Kind, Schema, Stamps, Table};
use sqlite_value::keys::Collation;
use sqlite_value::value::Value;

// Returns whether the database has no tables, indexes or views yet.
pub(crate) fn is_empty(schema: &Schema) -> bool
    ensures { IsTrue result ↔ (schema.now ≡ empty_schema) }
{
    schema.tables.is_empty() && schema.indexes.is_empty() && schema.views.is_empty()
}

// Returns whether a column is that of a STRICT table, without a default.
pub(crate) fn is_strict_column(column: &Column, name: &str, kind: Kind, not_null: bool) -> bool
    ensures { IsTrue result ↔ (column.now ≡ strict_column name.now kind not_null) }
{
    column.name.as_slice() == name.as_bytes()
        && column.kind == kind
        && column.is_strict
        && column.not_null == not_null
        && matches!(column.default, Value::Null)
        && column.collation == Collation::Binary
}

// Returns whether no default of the table reads the time.
fn is_timeless(stamps: &Stamps) -> bool
    ensures { IsTrue result ↔ (stamps.now ≡ record { places = []; terms = []; formats = [] }) }
{
    stamps.places.is_empty() && stamps.terms.roots.is_empty() && stamps.formats.is_empty()
}

// Returns whether a table has no rule beyond its key and its columns.
fn is_without_rules(table: &Table) -> bool
    ensures { IsTrue result ↔ (table.now ≡ record table.now {
      uniques = [];
      orders = [];
      checks = [];
      references = [];
      computed = [];
      stamps = record { places = []; terms = []; formats = [] };
    }) }
{
    table.uniques.is_empty()
        && table.orders.is_empty()
        && table.checks.roots.is_empty()
        && table.references.is_empty()
        && table.computed.is_empty()
        && is_timeless(&table.stamps)
}

// Returns whether these places are the first column's.
fn is_first_place(places: &[usize]) -> bool
    ensures { IsTrue result ↔ (places.now ≡ 0 ∷ []) }
{
    matches!(places, [0])
}

// Returns whether a table has this name and number, the first column as its key, and no other
// rule.
pub(crate) fn is_keyed_table(table: &Table, name: &str, tree: u32) -> bool
    ensures { IsTrue result ↔ (table.now ≡ keyed_table name.now tree table.now.columns) }
{
    table.name.as_slice() == name.as_bytes()
        && table.tree == tree
        && table.key == Some(0)
        && is_first_place(table.primary.as_slice())
        && !table.is_counted
        && is_without_rules(table)
}

// Returns whether the table is that of the marks.
fn is_begun_table(table: &Table) -> bool
    ensures { IsTrue result ↔ (table.now ≡ begun_table) }
{
    let [place, at] = table.columns.as_slice() else {
        return false;
    };
    is_keyed_table(table, "begun", 0)
        && is_strict_column(place, "place", Kind::Integer, false)
        && is_strict_column(at, "at", Kind::Integer, true)
}

// Returns whether these columns are the number of an outcome and its second.
fn are_number_and_second(columns: &[Column]) -> bool
    ensures { IsTrue result ↔ (columns.now ≡ strict_column (codes "number") Integer false
        ∷ strict_column (codes "at") Integer true ∷ []) }
{
    let [number, at] = columns else {
        return false;
    };
    is_strict_column(number, "number", Kind::Integer, false)
        && is_strict_column(at, "at", Kind::Integer, true)
}

// Returns whether the table is that of the outcomes.
fn is_outcome_table(table: &Table) -> bool
    ensures { IsTrue result ↔ (table.now ≡ outcome_table) }
{
    let [place, kind, more @ ..] = table.columns.as_slice() else {
        return false;
    };
    is_keyed_table(table, "outcome", 1)
        && is_strict_column(place, "place", Kind::Integer, false)
        && is_strict_column(kind, "kind", Kind::Text, true)
        && are_number_and_second(more)
}

// Returns whether these columns are the address of a job and its verb.
fn are_address_and_verb(columns: &[Column]) -> bool
    ensures { IsTrue result ↔ (columns.now ≡ strict_column (codes "address") Words true
        ∷ strict_column (codes "verb") Words true ∷ []) }
{
    let [address, verb] = columns else {
        return false;
    };
    is_strict_column(address, "address", Kind::Text, true)
        && is_strict_column(verb, "verb", Kind::Text, true)
}

// Returns whether the table is that of the jobs.
fn is_job_table(table: &Table) -> bool
    ensures { IsTrue result ↔ (table.now ≡ job_table) }
{
    let [place, name, more @ ..] = table.columns.as_slice() else {
        return false;
    };
    is_keyed_table(table, "job", 2)
        && is_strict_column(place, "place", Kind::Integer, false)
        && is_strict_column(name, "name", Kind::Text, true)
        && are_address_and_verb(more)
}

// Returns whether the table is that of the campaign.
fn is_campaign_table(table: &Table) -> bool
    ensures { IsTrue result ↔ (table.now ≡ campaign_table) }
{
    let [version, jobs] = table.columns.as_slice() else {
        return false;
    };
    is_keyed_table(table, "campaign", 3)
        && is_strict_column(version, "version", Kind::Integer, false)
        && is_strict_column(jobs, "jobs", Kind::Integer, true)
}

// Returns whether the schema is that of a ledger. The clauses of a book rest on it.
pub(crate) fn is_ledger_schema(schema: &Schema) -> bool
    ensures { IsTrue result ↔ (schema.now ≡ ledger_schema) }
{
    let [begun, outcome, job, campaign] = schema.tables.as_slice() else {
        return false;
    };
    is_begun_table(begun)
        && is_outcome_table(outcome)
        && is_job_table(job)
        && is_campaign_table(campaign)
        && schema.indexes.is_empty()
        && schema.views.is_empty()
}
