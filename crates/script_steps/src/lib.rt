//! The scripts of a meter's script table (IEC 62056-6-2, class 9): the table, read and written, and
//! the steps of its scripts.
//!
//! A step writes an attribute, or executes a method, of the disconnect control or of one of the two
//! limiters. Which steps a table may hold, and its limits of 16 scripts and of eight steps each,
//! are rules of this product.
#![tactic(auto)]

mod action;
mod forms;
mod laws;
mod names;
mod reading;
mod step;
mod table;
mod writing;

pub use cosem_names::{Which, WriteFault as ScriptFault};
pub use laws::{each_step_is_listed, read_table_is_in_range, written_table_is_read};
pub use limiter_core::Profile;
pub use step::{Script, Step};
pub use table::{MAX_SCRIPTS, MAX_STEPS, NULL_SCRIPT, ScriptTable};
