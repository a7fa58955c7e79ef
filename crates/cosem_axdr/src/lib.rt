//! Values of the DLMS/COSEM type Data (IEC 62056-6-2, common data types) and their A-XDR encoding
//! (IEC 62056-5-3; IEC 61334-6).
//!
//! `read` reads a Data from the front of bytes, `write` writes its one encoding with the shortest
//! lengths, `fits` returns whether a value is within the limits of `read`, and `text_len` the
//! length of its encoding. The limits (8,192 bytes, 255 items, eight levels) and the order of the
//! faults are this product's own.
#![tactic(auto)]

mod access;
mod comparing;
mod copying;
mod fault;
mod fitting;
mod laws;
mod length;
mod limits;
mod measuring;
mod reader;
mod reading;
pub mod tag;
mod value;
mod writing;

pub use fault::DataFault;
pub use fitting::fits;
pub use laws::{no_spelling_begins_another, text_of_fit_spells};
pub use length::{append_length, number_of};
pub use measuring::text_len;
pub use reading::read;
pub use value::{Data, Items};
pub use wire_bytes::Octets;
pub use writing::{append, write};
