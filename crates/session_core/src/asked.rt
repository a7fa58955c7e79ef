//! The part of a request that a session remembers until the meter's reply: the association, the
//! invoke id and the form of the answer.
use crate::link::Link;
use xdlms_apdu::InvokeId;

/// The part of a request that its answer needs once the meter has replied: the association and the
/// form of the answer.
#[derive(Clone, Copy, Debug)]
pub struct Asked {
    pub(crate) link: Link,
    pub(crate) form: ReplyForm,
}

// The form of the answer to a request.
#[derive(Clone, Copy, Debug)]
pub(crate) enum ReplyForm {
    // To a GET: its value, in blocks if it is long.
    Get(InvokeId),
    // To a GET with list: the values, in blocks if they are long.
    GetList(InvokeId),
    // To a SET: its result.
    Set(InvokeId),
    // To a SET that arrived in blocks: its result, and the number of the last block.
    SetLastBlock(InvokeId, u32),
    // To an ACTION: its result.
    Action(InvokeId),
}
