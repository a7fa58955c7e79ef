//! The names of the meter's objects, and what each client may do with them.
//!
//! `objects` has the one table of the objects, with the names of `logical_name` and the classes of
//! `class`; `access` looks up in it, and `object_list` shows it to a client.
#![tactic(auto)]

mod access;
pub mod class;
mod forms;
mod judging;
mod laws;
mod level;
pub mod logical_name;
mod name;
mod object_entries;
mod objects;
mod result_code;
mod scripts;
mod service;
mod unknown_number;
mod write_fault;

pub use access::{
    attribute, class_rights, find, may_execute, may_execute_of_class, object, rights,
};
pub use forms::{date_bytes, date_time_bytes, name_in, time_bytes};
pub use judging::judge_each;
pub use laws::tables_are_told;
pub use level::{Level, Rights};
pub use name::{AttrRef, ClassId, MethodRef, Obis};
pub use object_entries::object_list;
pub use objects::{
    ATTRIBUTES, Access, Attribute, Instance, METHODS, Method, OBJECTS, Object, ScheduleNumber,
    Which,
};
pub use result_code::ResultCode;
pub use scripts::NamedScript;
pub use service::{AttributeSelection, GetResult};
pub use unknown_number::UnknownNumber;
pub use write_fault::WriteFault;
