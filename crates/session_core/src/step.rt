//! The result of a frame: an event for the meter, an answer, or the bytes of a long request to
//! decode.
use crate::asked::Asked;
use crate::due::Due;
use crate::incoming::Added;
use crate::joined::Joined;
use relay_events::Event;

// The result of a frame.
#[derive(Drop)]
pub(crate) enum TurnStep {
    // An event, whose reply is then awaited.
    Ask(Event, Asked),
    // An answer, which must be sent.
    Say(Due),
    // Joined bytes, which must be decoded.
    Join(Joined),
}

impl From<Added> for TurnStep {
    ghost use Rattle.std.specs.Prelude.{◌≡◌};
    ghost use Rattle.session_core.specs.Incoming.{outcome_of_added};
    ghost use Rattle.session_core.specs.Rules.{step_outcome};

    ghost from_gives = { λ added step. step_outcome step ≡ outcome_of_added added };

    fn from(added: Added) -> TurnStep {
        match added {
            Added::Continues(due) | Added::Refused(due) => TurnStep::Say(due),
            Added::Whole(joined) => TurnStep::Join(joined),
        }
    }
}
