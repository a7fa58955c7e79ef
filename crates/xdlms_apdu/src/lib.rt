//! The xDLMS service APDUs between a meter and its client: GET, SET and ACTION requests and
//! responses, and exceptions (IEC 62056-5-3; DLMS UA Green Book).
#![tactic(auto)]

mod block;
pub mod choice;
mod fault;
mod field_reading;
mod field_value;
mod field_writing;
pub mod form;
mod invoke_id;
mod laws;
mod list_item;
mod list_reading;
mod list_writing;
mod request;
mod request_reading;
mod request_writing;
mod response;
mod response_reading;
mod response_writing;
pub mod tag;

pub use block::DataBlock;
pub use fault::ApduFault;
pub use invoke_id::InvokeId;
pub use laws::{no_spelling_begins_another, text_of_request_spells, text_of_response_spells};
pub use request::Request;
pub use request_reading::read_request;
pub use request_writing::write_request;
pub use response::{Exception, Response};
pub use response_reading::read_response;
pub use response_writing::{append_response, write_response};
