//! The block transfer of xDLMS services (IEC 62056-5-3): long texts sent in numbered blocks, and
//! joined again. A text is the encoded bytes of a long value or list.
//!
//! [`GetBlocks`] sends the answer to a GET, a block for each request. [`JoinBlocks`] joins the
//! blocks of a SET or an ACTION.
#![tactic(auto)]

mod blocks;
mod fault;
mod joining;
mod law;
mod sending;

pub use blocks::Piece;
pub use fault::BlockFault;
pub use joining::JoinBlocks;
pub use law::one_text;
pub use sending::GetBlocks;
