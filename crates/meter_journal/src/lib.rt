//! The journal of a meter: a worker writes the lines of its events to a durable file, and sessions
//! wait until their lines are on the disk.
//!
//! [`save`] appends the lines that were not taken yet. [`JournalWorker`] repeats it in a thread of
//! its own, and [`JournalProgress`] says how many lines are on the disk. Lines that wait at the
//! same time are saved together, so that one sync serves all of them. A [`Relay`] is given a change
//! of the supply output once the line of its event is on the disk.
#![tactic(auto)]

mod fault;
mod journal;
mod keeping;
mod last_save;
mod laws;
mod no_file;
mod progress;
mod relay;
mod saving;
mod starting;
mod worker;

pub use fault::JournalFault;
pub use journal::{JournalEnd, JournalParts, MeterJournal};
pub use last_save::JournalIdentity;
pub use laws::relay_is_given_each_change;
pub use no_file::NoFile;
pub use progress::JournalProgress;
pub use relay::{Relay, SupplyOutput};
pub use saving::{Saved, save};
pub use starting::{JournalThread, start_journal, stop_journal};
pub use worker::{FailureAction, JournalWorker};
