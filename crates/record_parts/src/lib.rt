//! The parts of records: civil dates and times, lines of comma-separated values, and values of JSON
//! that may be missing.
#![tactic(auto)]

mod civil;
mod columns;
mod text;
mod values;

pub use civil::civil_text;
pub use columns::{number_column, write_row};
pub use text::text_of;
pub use values::{number_value, text_value};
