//! The events of a run as records: the parts of the line that the player prints for each, and the
//! moment of the meter's clock, as comma-separated values or as JSON.
//!
//! A `Record` has the values of one event. `write_csv_head` and `write_csv` append them as lines of
//! comma-separated values, `write_json` as a line that is a JSON object.
#![tactic(auto)]

mod civil;
mod csv_lines;
mod json_lines;
mod record;

pub use csv_lines::{write_csv, write_csv_head};
pub use json_lines::write_json;
pub use record::Record;
