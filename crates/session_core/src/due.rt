//! An answer that is ready to be sent, with the port of its client.
ghost use Rattle.std.specs.Prelude.{◌≡◌, ◌≤◌, length, IfOk};
ghost use Rattle.session_core.specs.Answers.{answer_text, due_text, way_text, IsSmall};
ghost use Rattle.session_core.specs.Standard.{greatest_pdu};
ghost use Rattle.session_core.specs.declared.answer.Answer.TheVariants as answer;

use crate::answer::{Answer, Way};
use acse_ber::Aare;
use cosem_axdr::Octets;
use std::alloc::{AllocError, Global};
use xdlms_apdu::{Exception, Response};

// An answer that must be sent, and the port that it is sent to. It fits in a PDU.
#[derive(Drop)]
pub(crate) struct Due {
    pub(crate) to: u16,
    pub(crate) answer: Answer,
    ghost short: { length (answer_text answer) ≤ greatest_pdu },
}

impl Due {
    // Returns the answer to an AARQ.
    #[tactic(auto, using(crate::proofs::Short::short_association))]
    pub(crate) fn association(to: u16, aare: Aare) -> Due
        ensures receiver { result.to ≡ to }
        ensures answer { result.answer ≡ answer.Association aare }
    {
        Due {
            to,
            answer: Answer::Association(aare),
        }
    }

    // Returns the answer to a release.
    #[tactic(auto, using(crate::proofs::Short::short_release))]
    pub(crate) fn release(to: u16) -> Due
        ensures receiver { result.to ≡ to }
        ensures answer { result.answer ≡ answer.Release }
    {
        Due {
            to,
            answer: Answer::Release,
        }
    }

    // Returns a response without values, or with a block.
    #[tactic(auto, using(crate::proofs::Short::short_response))]
    pub(crate) fn response(to: u16, response: Response) -> Due
        requires { IsSmall response }
        ensures receiver { result.to ≡ to }
        ensures answer { result.answer ≡ answer.Service response }
    {
        Due {
            to,
            answer: Answer::Service(response),
        }
    }

    // Returns an exception.
    pub(crate) fn exception(to: u16, exception: Exception) -> Due
        ensures receiver { result.to ≡ to }
        ensures answer { result.answer ≡ answer.Service (Response.Exception exception) }
    {
        Due::response(to, Response::Exception(exception))
    }

    // Returns the frame with the answer.
    pub(crate) fn text(&self, alloc: Global) -> Result<Octets, AllocError>
        ensures { IfOk result (λ text. text ≡ due_text self.now.to (answer_text self.now.answer)) }
    {
        self.text_by(alloc, Way::Framed)
    }

    // Returns the answer as it is sent this way.
    pub(crate) fn text_by(&self, alloc: Global, way: Way) -> Result<Octets, AllocError>
        ensures { IfOk result (λ text. text
            ≡ way_text way self.now.to (answer_text self.now.answer)) }
    {
        let text = self.answer.write(alloc, way)?;
        Ok(way.end(self.to, text))
    }

    // Consumes the answer and returns it as it is sent this way.
    pub(crate) fn into_text(self, alloc: Global, way: Way) -> Result<Octets, AllocError>
        ensures { IfOk result (λ text. text ≡ way_text way self.to (answer_text self.answer)) }
    {
        let text = self.text_by(alloc, way);
        drop(self);
        text
    }
}
