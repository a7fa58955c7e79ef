//! A meter's recorder: the core, its last events, and the core as it was before them.
//!
//! `specs/Recording.antt` states what a recorder keeps, and `specs/Histories.antt` which histories
//! it may have.
#![tactic(auto)]

mod kept;
mod recorder;
mod trace;

pub use recorder::{MAX_CAPACITY, Recorder};
pub use trace::Trace;
