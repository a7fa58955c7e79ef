//! The jobs of a ledger as records: comma-separated values, or lines of JSON.
//!
//! [`ledger_text`] returns the text of a ledger in a [`LedgerFormat`].
#![tactic(auto)]

mod csv_lines;
mod fields;
mod format;
mod json_lines;
mod printing;

pub use csv_lines::{write_csv, write_csv_head};
pub use format::LedgerFormat;
pub use json_lines::write_json;
pub use printing::ledger_text;
