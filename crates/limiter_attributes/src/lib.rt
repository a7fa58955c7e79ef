//! The attributes of a limiter (IEC 62056-6-2, class 71) as Data, read and written.
//!
//! Numbers are watts and seconds. That a limiter has at most 32 group ids, and that its actions run
//! scripts of the one script table, are rules of this product.
#![tactic(auto)]

mod attribute;
mod forms;
mod groups;
mod laws;
mod reading;
mod setting;
mod writing;

pub use attribute::LimiterAttribute;
pub use cosem_names::WriteFault as SettingFault;
pub use groups::read_groups;
pub use laws::limiters_are_in_the_table;
pub use reading::{read_number, read_profile, read_setting};
pub use setting::Setting;
pub use writing::{read_attribute, write_profile};
