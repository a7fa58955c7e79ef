//! The states that meters reported when the head end asked them later, in an SQLite database next
//! to a ledger.
mod adding;
mod opening;
mod reading;
mod schema;

pub use adding::{add_answers, last_number};
pub use opening::open_answers;
pub use reading::{read_answers, read_answers_if_made};
