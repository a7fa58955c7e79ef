//! The proved meter as a C library: the functions that `include/meter.h` declares.
//!
//! The C program owns a handle and passes its address to each call; the meter itself is in one box
//! on the heap. `specs/Exports.antt` defines what each call does and returns.
#![tactic(auto)]

mod box_parts;
mod events;
mod handle;
mod opening;
mod outcome;
mod sessions;
mod slot;
mod standing;
mod traces;

pub use box_parts::BoxParts;
pub use events::{Firings, meter_moment, meter_press, meter_sample_pairs, meter_samples};
pub use handle::MeterHandle;
pub use opening::{meter_close, meter_open};
pub use outcome::CallResult;
pub use sessions::{meter_close_session, meter_feed, meter_finish, meter_next, meter_open_session};
pub use standing::{meter_control_mode, meter_control_state, meter_last_moment, meter_supply};
pub use traces::{meter_export, meter_resume};
