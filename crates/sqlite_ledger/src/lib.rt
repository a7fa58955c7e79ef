//! The ledger of a switching campaign in an SQLite database, and the answers of its meters in
//! another one.
//!
//! [`SqliteBook`] is a [`campaign_ledger::Book`] over a connection of the toolchain's `sqlite`, to
//! a file or to memory. The right to send a place's command is the key of a row of the table
//! `begun`, which is only ever added to. [`open_book`] makes the tables or tests the schema in use,
//! compares the list of jobs, and reads the entries. [`read_lines`] reads the jobs, their entries
//! and their times.
//!
//! The answers are the states that meters reported when the head end asked them later.
//! [`open_answers`] makes their table or tests the schema in use, [`add_answers`] appends answers,
//! and [`read_answers`] reads them, as does [`read_answers_if_made`] if there may be no table yet.
#![tactic(auto)]

mod answers;
mod at_rest;
mod book;
mod campaign_row;
mod clock;
mod comparison;
mod creation;
mod fault;
mod grouping;
mod jobs;
mod marking;
mod open_fault;
mod opening;
mod outcome;
mod reading;
mod schema;

pub use answers::{add_answers, last_number, open_answers, read_answers, read_answers_if_made};
pub use book::SqliteBook;
pub use open_fault::LedgerOpenFault;
pub use opening::open_book;
pub use reading::read_lines;
