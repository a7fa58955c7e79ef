//! The formats of a view.

/// How the events of a run are shown.
#[derive(Clone, Copy, Debug, PartialEq, Eq)]
pub enum TraceFormat {
    /// The line that the player prints for each event.
    Lines,
    /// A line of comma-separated values for each event, after one of the names of the columns.
    Csv,
    /// A line for each event that is a JSON object.
    Json,
}
