//! The files of `meter_server serve`: its journal with the lock file, opened so that the meter
//! resumes where the journal ends, and its relay.
//!
//! [`open_journal`] opens a journal, and [`open_relay`] the relay that is given what the journal
//! has. What the files of the operating system hold is tested, since no contract can say it.
#![tactic(auto)]

mod cutting;
mod journal;
mod lock;
mod paths;
mod relay;
mod relay_file;

pub use journal::{JournalOptions, OpenJournal, StoredJournal, open_journal};
pub use relay::{OpenRelay, RelayOptions, open_relay};
pub use relay_file::RelayFile;
