//! The formats of a ledger.
ghost use Rattle.std.specs.Prelude.{◌≡◌, ◌≢◌, codes, option_map};
ghost use Rattle.ledger_records.specs.Formats.{IsNamed};
ghost use Rattle.ledger_records.specs.declared.format.LedgerFormat.TheVariants.{State, Csv, Json};

/// How a ledger is printed.
#[derive(Clone, Copy, Debug, PartialEq, Eq)]
pub enum LedgerFormat {
    /// The number of jobs with each standing, and the jobs that need a second look.
    State,
    /// A line of comma-separated values for each job, after one of the names of the columns.
    Csv,
    /// A line for each job that is a JSON object.
    Json,
}

// Returns the format of this name.
fn format_named(name: &str) -> LedgerFormat
    ensures csv { name.now ≡ codes "csv" → result ≡ Csv }
    ensures json { name.now ≡ codes "json" → result ≡ Json }
    ensures state { name.now ≢ codes "csv" → name.now ≢ codes "json" → result ≡ State }
{
    if name == "csv" {
        LedgerFormat::Csv
    } else if name == "json" {
        LedgerFormat::Json
    } else {
        LedgerFormat::State
    }
}

impl LedgerFormat {
    /// Returns the format of a name: `csv` or `json`. Without a name, or for another one, it is the
    /// state.
    pub fn named(name: Option<&str>) -> LedgerFormat
        ensures { IsNamed (option_map (λ n. n.now) name.entry) result }
    {
        match name {
            Some(name) => format_named(name),
            None => LedgerFormat::State,
        }
    }
}
