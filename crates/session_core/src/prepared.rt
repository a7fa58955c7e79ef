//! An answer that is allocated before its event, so that the reply completes it without allocating.
ghost use Rattle.std.specs.Prelude.{◌≡◌, IfOk};
ghost use Rattle.session_core.specs.Answers.{answer_text};
ghost use Rattle.session_core.specs.Outgoing.{code_place, code_response, form_of, reply_code};
ghost use Rattle.session_core.specs.declared.answer.Answer.TheVariants.{Service};

use crate::answer::Way;
use crate::asked::{Asked, ReplyForm};
use crate::replying::{Answered, answer_code, reply_code};
use cosem_axdr::Octets;
use cosem_names::ResultCode;
use relay_events::Reply;
use std::alloc::{AllocError, Global};
use std::marker::Model;

/// The answer to a request without a frame, allocated before its event and completed by a reply
/// without a value, so that completing it never allocates. Contracts see its form.
#[derive(Debug, Drop)]
pub struct PreparedAnswer {
    form: ReplyForm,
    text: Octets,
}

impl Model for PreparedAnswer {
    ghost use Rattle.std.specs.Prelude.{◌≡◌};
    ghost use Rattle.cosem_names.specs.declared.result_code.ResultCode.TheVariants.{Success};
    ghost use Rattle.session_core.specs.Answers.{answer_text};
    ghost use Rattle.session_core.specs.Outgoing.{code_response};
    ghost use Rattle.session_core.specs.declared.answer.Answer.TheVariants.{Service};
    ghost use Rattle.session_core.specs.declared.asked.ReplyForm.{ReplyForm};

    ghost Value = { ReplyForm };

    ghost view = { λ prepared. prepared.form };

    ghost invariant = { λ prepared. prepared.text
        ≡ answer_text (Service (code_response prepared.form Success)) };
}

impl PreparedAnswer {
    /// Allocates the answer. Fails if out of memory.
    pub fn new(alloc: Global, asked: Asked) -> Result<PreparedAnswer, AllocError>
        ensures { IfOk result (λ prepared. prepared ≡ form_of asked) }
    {
        let form = asked.form;
        let Answered { text, outgoing } = answer_code(
            alloc,
            asked,
            Way::Bare,
            ResultCode::Success,
        )?;
        drop(outgoing);
        Ok(PreparedAnswer { form, text })
    }

    /// Returns the answer to a reply: its result code, or other-reason if the reply has none. Does
    /// not allocate.
    #[tactic(auto, using(crate::proofs::Placed::placed, crate::proofs::Placed::within))]
    pub fn finish(self, reply: &Reply) -> Octets
        ensures { result ≡ answer_text (Service (code_response self (reply_code reply.now))) }
    {
        let PreparedAnswer { form, text } = self;
        let mut bytes = text.into_vec();
        bytes[code_place(form)] = reply_code(reply).code();
        Octets::from_vec(bytes)
    }
}

// Returns the index of the result code in an answer without a value.
fn code_place(form: ReplyForm) -> usize
    ensures { result ≡ code_place form }
{
    match form {
        ReplyForm::Get(_) | ReplyForm::GetList(_) => 4,
        ReplyForm::Set(_) | ReplyForm::SetLastBlock(_, _) | ReplyForm::Action(_) => 3,
    }
}
