//! The next task of a session, from taking a frame to the end of the session.
use crate::asked::Asked;
use crate::due::Due;
use crate::end::SessionEnd;
use crate::framed_answer::FramedAnswer;
use crate::joined::Joined;

// The next task of a session.
#[derive(Drop)]
pub(crate) enum SessionTask {
    // Takes the next frame.
    Listen,
    // Decodes the value that arrived in blocks.
    Read(Joined),
    // Awaits the reply to an event.
    Await(Asked),
    // Writes an answer.
    Say(Due),
    // Returns a frame to its caller.
    Send(FramedAnswer),
    // Nothing: the session is over.
    Over(SessionEnd),
}
