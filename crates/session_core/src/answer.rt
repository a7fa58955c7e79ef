//! The answers of the server and their bytes, with or without the header of a frame.
ghost use Rattle.std.specs.Prelude.{◌≡◌, ◌≤◌, length, drop, IfOk};
ghost use Rattle.session_core.specs.Answers.{answer_text, due_text, way_size, way_text};
ghost use Rattle.session_core.specs.Standard.{greatest_pdu};
ghost use Rattle.xdlms_apdu.specs.Responses.{response_text};

use acse_ber::{Aare, RELEASE_RESPONSE, write_aare};
use cosem_axdr::{Data, Octets, append};
use cosem_names::GetResult;
use std::alloc::{AllocError, Global};
use wrapper_frame::{HEADER_SIZE, into_frame};
use xdlms_apdu::choice::DATA;
use xdlms_apdu::form::NORMAL;
use xdlms_apdu::tag::GET_RESPONSE;
use xdlms_apdu::{InvokeId, Response, append_response};

// The wrapper port of the server.
pub(crate) const SERVER_PORT: u16 = 1;
// The initial capacity of an answer in bytes. Most answers are shorter, also a list of ten numbers
// and a block for a client that receives 64 bytes, which then allocate once.
const ROOM: usize = 128;

// An answer of the server.
#[derive(Drop)]
pub(crate) enum Answer {
    // An AARE, to an AARQ that was readable.
    Association(Aare),
    // An RLRE.
    Release,
    // The response of a service, or an exception.
    Service(Response),
}

impl Answer {
    // Returns the bytes of the answer, after those reserved for the frame's header.
    #[tactic(auto, unfolding(crate::specs::Answers::answer_text))]
    pub(crate) fn write(&self, alloc: Global, way: Way) -> Result<Octets, AllocError>
        ensures header { IfOk result (λ text. way_size way ≤ length text) }
        ensures payload { IfOk result (λ text. drop (way_size way) text ≡ answer_text self.now) }
    {
        match self {
            Answer::Association(aare) => way.copy(alloc, write_aare(alloc, aare)?.as_slice()),
            Answer::Release => way.copy(alloc, &RELEASE_RESPONSE),
            Answer::Service(response) => way.write(alloc, response),
        }
    }
}

// How an answer is sent.
#[derive(Clone, Copy, PartialEq, Eq)]
pub(crate) enum Way {
    // In a frame to the client's port.
    Framed,
    // Without a frame.
    Bare,
}

impl Way {
    // Returns the bytes reserved for the header, with capacity for a short payload after them.
    fn begin(self, alloc: Global) -> Result<Octets, AllocError>
        ensures { IfOk result (λ text. length text ≡ way_size self) }
    {
        let mut text = Vec::with_capacity(alloc, ROOM)?;
        match self {
            Way::Framed => text.extend_from_slice(&[0; HEADER_SIZE])?,
            Way::Bare => {}
        }
        Ok(Octets::from_vec(text))
    }

    // Returns the bytes of a response, after those reserved for the header.
    #[tactic(auto, using(std::proofs::lemmas::List::drop_at))]
    pub(crate) fn write(self, alloc: Global, response: &Response) -> Result<Octets, AllocError>
        ensures header { IfOk result (λ text. way_size self ≤ length text) }
        ensures payload { IfOk result (λ text. drop (way_size self) text
            ≡ response_text response.now) }
    {
        let mut text = self.begin(alloc)?;
        append_response(response, &mut text)?;
        Ok(text)
    }

    // Returns the bytes of the response with a value, after those reserved for the header.
    #[tactic(auto, unfolding(xdlms_apdu::specs::Responses::response_text), using(std::proofs::lemmas::List::drop_at))]
    pub(crate) fn write_value(
        self,
        alloc: Global,
        id: InvokeId,
        value: &Data,
    ) -> Result<Octets, AllocError>
        ensures header { IfOk result (λ text. way_size self ≤ length text) }
        ensures payload { IfOk result (λ text. drop (way_size self) text
            ≡ response_text (Response.Get id (GetResult.Value value.now))) }
    {
        let mut text = self.begin(alloc)?;
        text.extend_from_slice(&[GET_RESPONSE, NORMAL, id.0, DATA])?;
        append(value, &mut text)?;
        Ok(text)
    }

    // Returns a copy of a payload, after the bytes reserved for the header.
    #[tactic(auto, using(std::proofs::lemmas::List::drop_at))]
    fn copy(self, alloc: Global, payload: &[u8]) -> Result<Octets, AllocError>
        ensures header { IfOk result (λ text. way_size self ≤ length text) }
        ensures payload { IfOk result (λ text. drop (way_size self) text ≡ payload.now) }
    {
        let mut text = self.begin(alloc)?;
        text.extend_from_slice(payload)?;
        Ok(text)
    }

    // Returns the payload in bytes that were written for this way.
    pub(crate) fn payload(self, text: &Octets) -> &[u8]
        requires { way_size self ≤ length text.now }
        ensures { result.now ≡ drop (way_size self) text.now }
    {
        match self {
            Way::Framed => &text.as_slice()[HEADER_SIZE..],
            Way::Bare => text.as_slice(),
        }
    }

    // Returns the bytes as they are sent: in a frame, fills in the header. Does not allocate.
    #[tactic(auto, unfolding(crate::specs::Answers::due_text))]
    pub(crate) fn end(self, to: u16, text: Octets) -> Octets
        requires header { way_size self ≤ length text }
        requires payload { length (drop (way_size self) text) ≤ greatest_pdu }
        ensures { result ≡ way_text self to (drop (way_size self) text) }
    {
        match self {
            Way::Framed => into_frame(SERVER_PORT, to, text),
            Way::Bare => text,
        }
    }
}
