//! The state of a switching campaign whose connections are served by one event loop, without I/O.
//!
//! A [`Board`] has a place for each job. The loop around it connects, reads and writes; the board
//! says which job may begin, what may be sent on its connection, and what must be committed first.
//! `specs/Histories.antt` defines the histories that a campaign may have, and what follows for each
//! of them; `specs/Boards.antt` says of each call which step it adds.
#![tactic(auto)]

mod board;
mod building;
mod laws;
mod no_book;
mod place;
mod places;
mod schedule;
mod talk;

pub use board::Board;
pub use building::blank_entries;
pub use laws::{campaigns_are_safe, campaigns_are_safe_runs};
pub use no_book::NoBook;
pub use place::{BoardPlace, Ending};
pub use schedule::Schedule;
pub use talk::Talk;
