//! The ledger of a switching campaign: what is known of each place's command, over all runs of the
//! campaign, however each of them ended.
//!
//! A campaign's jobs have places, counted from 0. Before the switching command of a place is sent,
//! the ledger gives a [`Permit`] for it, at most once for ever: [`Ledger::begin`] first has the
//! place marked in a [`Book`], which outlives a crash. `specs/Runs.antt` defines what the runs of a
//! campaign are, and `specs/Grants.antt` what the calls of one run give.
#![tactic(auto)]

mod book;
mod entry;
mod fault;
mod laws;
mod ledger;
mod memory_book;
mod permit;

pub use book::{Book, PlaceOutcome};
pub use entry::LedgerEntry;
pub use fault::LedgerFault;
pub use laws::{
    each_command_goes_out_at_most_once, grants_add_up, the_next_run_finds_each_outcome,
};
pub use ledger::Ledger;
pub use memory_book::MemoryBook;
pub use permit::Permit;
