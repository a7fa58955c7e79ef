//! Bytes and items that contracts see as lists, and the reader of bytes that the formats of this
//! repository share, with the definitions in which their readers are specified.
//!
//! [`Listed`] and [`Octets`] are a `Vec` without its capacity: two values are equal if their items
//! are. A format is read by a definition on lists, in `do` notation over `Result`. Its faults are
//! ordered as the bytes are read. The code returns what the definition does, unless it is out of
//! memory. `specs/` has the definitions, and `proofs/` their lemmas.
#![tactic(auto)]

mod cursor;
mod listed;
mod octets;
mod owned;

pub use cursor::Cursor;
pub use listed::Listed;
pub use octets::Octets;
pub use owned::and_keep;
