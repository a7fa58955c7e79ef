//! Answers one xDLMS request on a core, without a frame or an association (IEC 62056-5-3).
ghost use Rattle.std.specs.Prelude.{◌≡◌, false, IfOk, IsTrue, OnOk, OnErr};
ghost use Rattle.relay_core.specs.Machine.{at_event};
ghost use Rattle.relay_events.specs.Kinds.{is_read};
ghost use Rattle.relay_core.specs.World.{World};
ghost use Rattle.relay_core.specs.Stands.{StandsFor};
ghost use Rattle.session_io.specs.Answering.{answer_to_payload, answer_to_reply};

use cosem_axdr::Octets;
use relay_core::RelayCore;
use relay_events::Event;
use session_core::{Asked, PreparedAnswer, Unframed, answer_unframed, ask_unframed};
use std::alloc::{AllocError, Global};

/// Answers one xDLMS request that has no frame and no association: a GET, a GET with list, or a SET
/// or an ACTION in one piece. It is answered as a request of the management client with all of the
/// meter's conformance bits and PDUs of 1,024 bytes. A longer answer is the first block of a
/// transfer that cannot be continued. The answer to any other payload is an ExceptionResponse:
/// service-unknown if the tag or form is another, service-not-allowed with other-reason if its
/// bytes cannot be read (IEC 62056-5-3).
///
/// If out of memory, the core is unchanged, as if the request had not arrived.
#[tactic(auto, unfolding(crate::specs::Answering::answer_to_payload))]
pub fn answer_apdu(
    alloc: Global,
    core: &mut RelayCore,
    payload: &[u8],
) -> Result<Octets, AllocError>
    ensures world { OnOk result ((w : World) → StandsFor core.old w
        → StandsFor core.new (answer_to_payload payload.now w).world) }
    ensures text { IfOk result (λ text. (w : World) → StandsFor core.old w
        → text ≡ (answer_to_payload payload.now w).text) }
    ensures err { OnErr result (core.new ≡ core.old) }
{
    match ask_unframed(alloc, payload)? {
        Unframed::Ask(event, asked) => {
            if event.is_read() {
                answer(alloc, core, &event, asked)
            } else {
                answer_or_stay(alloc, core, &event, asked)
            }
        }
        Unframed::Say(text) => Ok(text),
    }
}

// Applies an event and returns the answer. The program can run out of memory after the event was
// applied, so this is used only for events that read.
fn answer(
    alloc: Global,
    core: &mut RelayCore,
    event: &Event,
    asked: Asked,
) -> Result<Octets, AllocError>
    ensures world { OnOk result ((w : World) → StandsFor core.old w
        → StandsFor core.new (at_event event.now w).world) }
    ensures text { IfOk result (λ text. (w : World) → StandsFor core.old w
        → text ≡ (answer_to_reply asked (at_event event.now w)).text) }
    ensures read { IsTrue (is_read event.now) → core.new ≡ core.old }
{
    let reply = core.step(alloc, event)?;
    answer_unframed(alloc, asked, reply)
}

// Applies an event whose reply has no value and returns the answer, which is allocated before the
// event. If out of memory, nothing has changed.
#[tactic(auto, using(crate::proofs::Valueless::prepared_answer))]
fn answer_or_stay(
    alloc: Global,
    core: &mut RelayCore,
    event: &Event,
    asked: Asked,
) -> Result<Octets, AllocError>
    requires { is_read event.now ≡ false }
    ensures world { OnOk result ((w : World) → StandsFor core.old w
        → StandsFor core.new (at_event event.now w).world) }
    ensures text { IfOk result (λ text. (w : World) → StandsFor core.old w
        → text ≡ (answer_to_reply asked (at_event event.now w)).text) }
    ensures err { OnErr result (core.new ≡ core.old) }
{
    let prepared = PreparedAnswer::new(alloc, asked)?;
    let given = core.step(alloc, event)?;
    let text = prepared.finish(&given);
    drop(given);
    Ok(text)
}
