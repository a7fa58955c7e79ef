//! One session of a client with the server: frames in, events and answers out (IEC 62056-5-3, IEC
//! 62056-4-7).
#![tactic(auto)]

mod answer;
mod asked;
mod call;
mod conformance;
mod due;
mod end;
mod framed_answer;
mod incoming;
mod joined;
mod law;
mod limit;
mod link;
mod next;
mod outgoing;
mod password;
mod prepared;
mod replying;
mod session;
mod short_answer;
mod short_request;
mod state;
mod step;
mod task;
mod unframed;

pub use asked::Asked;
pub use end::SessionEnd;
pub use law::one_session;
pub use next::Next;
pub use prepared::PreparedAnswer;
pub use session::Session;
pub use short_request::ShortRequest;
pub use unframed::{Unframed, answer_unframed, ask_unframed};
