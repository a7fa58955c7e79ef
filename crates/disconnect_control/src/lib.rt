//! The supply switch, class 70 Disconnect control (IEC 62056-6-2): its states, modes and triggers,
//! and its attributes as Data, read and written.
#![tactic(auto)]

mod attribute;
mod control;
mod forms;
mod state;

pub use attribute::ControlAttribute;
pub use control::DisconnectControl;
pub use forms::read_mode;
pub use state::{ControlMode, ControlState, Trigger};
