//! A single action schedule (IEC 62056-6-2, class 22): which script runs when, its attributes, read
//! and written, and whether the schedule is due between two moments of the meter's clock.
//!
//! A moment is a `u32`: the seconds since 1 January 2000, 00:00:00, in the meter's own time. That a
//! schedule has at most 16 entries, and that one that does not fit its type is kept but never due,
//! are rules of this product.
#![tactic(auto)]

mod attribute;
mod fitting;
mod forms;
mod kind;
mod reading;
mod schedule;
mod writing;

pub use attribute::ScheduleAttribute;
pub use cosem_names::WriteFault as ScheduleFault;
pub use fitting::SECONDS_LOOKED_BACK;
pub use kind::ScheduleType;
pub use schedule::{ActionSchedule, MAX_ENTRIES};
