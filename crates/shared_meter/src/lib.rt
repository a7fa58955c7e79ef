//! One meter that threads share: its recorder as the value of the server's lock, and the meter's
//! own workers, each in a thread of its own with a port of its own: the power samples, the clock
//! and the button.
//!
//! The calls of a [`Kept`], from any threads, are in one legal history: `specs/Calls.antt` states
//! which histories of calls are legal, and which of them a [`Kept`] may have. A source returns
//! blocks, moments or presses, and its worker passes each to the meter through its port.
//! `specs/Handed.antt` states what is passed on.
#![tactic(auto)]

mod blocks;
mod kept;
mod pending;
mod running;
mod settling;
mod sources;
mod thresholds;

pub use blocks::BlockEvents;
pub use kept::Kept;
pub use pending::{Finding, PendingLines, Question};
pub use running::run_source;
pub use settling::{Durability, NoJournal, settle};
pub use sources::{
    BlockSource, ButtonSource, EventSource, MomentEvents, MomentSource, PressEvents,
};
