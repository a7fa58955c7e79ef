//! The messages that a client sends.
ghost use Rattle.std.specs.Prelude.{◌≡◌, ◌≤◌, length, IfOk};
ghost use Rattle.acse_ber.specs.Password.{IsPassword};
ghost use Rattle.xdlms_apdu.specs.Requests.{request_text};
ghost use Rattle.client_core.specs.Texts.{frame_around, aarq_payload, action_payload, request_of, aarq_frame, request_frame, release_frame};

use crate::job::Verb;
use acse_ber::{Conformance, RELEASE_REQUEST, low_level_aarq, write_aarq};
use bitflags::Flags;
use cosem_axdr::Octets;
use std::alloc::{AllocError, Global};
use wrapper_frame::{WrapperFault, frame};
use xdlms_apdu::InvokeId;
use xdlms_apdu::form::NORMAL;
use xdlms_apdu::tag::{ACTION_REQUEST, GET_REQUEST};

// The port of the management client and of the meter's management logical device.
const PORT: u16 = 1;
// The services that the client proposes: GET, SET and ACTION, each with block transfer (IEC
// 62056-5-3, conformance).
const SERVICES: Conformance = Conformance(
    Conformance::BLOCK_TRANSFER_WITH_GET_OR_READ.0
        | Conformance::BLOCK_TRANSFER_WITH_SET_OR_WRITE.0
        | Conformance::BLOCK_TRANSFER_WITH_ACTION.0
        | Conformance::GET.0
        | Conformance::SET.0
        | Conformance::ACTION.0,
);
// The maximum size of an APDU that the client receives, in bytes.
const MAX_RECEIVE_PDU_SIZE: u16 = 1024;
// The invoke-id-and-priority of the request: invoke-id 1, confirmed, high priority.
pub(crate) const INVOKE_ID: InvokeId = InvokeId(0xC1);
// The low byte of the class of the disconnect control (IEC 62056-6-2, class 70).
const DISCONNECT_CONTROL: u8 = 70;
// The byte that says that an ACTION has a parameter.
const PRESENT: u8 = 1;
// The tag of an integer (IEC 62056-5-3, Data, `integer [15]`).
const INTEGER: u8 = 0x0F;
// The value of the parameter of both methods.
const PARAMETER: u8 = 0;
// The GET of control_state, attribute 3 of the disconnect control 0.0.96.3.10.255, without
// selective access.
const STATE_REQUEST: [u8; 13] = [
    GET_REQUEST,
    NORMAL,
    INVOKE_ID.0,
    0,
    DISCONNECT_CONTROL,
    0,
    0,
    96,
    3,
    10,
    255,
    3,
    0,
];

/// Returns the frame of the AARQ, with a password of 1 to 32 bytes.
#[tactic(auto, using(crate::proofs::Passwords::aarq_short), unfolding(crate::specs::Texts::aarq_frame))]
pub fn aarq_frame(alloc: Global, password: &Octets) -> Result<Octets, AllocError>
    requires { IsPassword password.now }
    ensures { IfOk result (λ text. text ≡ aarq_frame password.now) }
{
    let payload = aarq_payload(alloc, password)?;
    frame_around(alloc, payload.as_slice())
}

// Returns the AARQ, with a password of 1 to 32 bytes.
#[tactic(auto, using(crate::proofs::Passwords::aarq_written))]
fn aarq_payload(alloc: Global, password: &Octets) -> Result<Octets, AllocError>
    requires { IsPassword password.now }
    ensures { IfOk result (λ text. text ≡ aarq_payload password.now) }
{
    let aarq = low_level_aarq(
        alloc,
        password.as_slice(),
        SERVICES.bits(),
        MAX_RECEIVE_PDU_SIZE,
    )?;
    write_aarq(alloc, &aarq)
}

/// Returns the frame of a verb's request, whose bytes xdlms_apdu writes for that request too.
#[tactic(auto, unfolding(crate::specs::Texts::request_frame), using(crate::proofs::Requests::request_written))]
pub fn request_frame(alloc: Global, verb: Verb) -> Result<Octets, AllocError>
    ensures text { IfOk result (λ text. text ≡ request_frame verb) }
    ensures request { IfOk result (λ text. text ≡ frame_around (request_text (request_of verb))) }
{
    match verb {
        Verb::Disconnect => frame_around(alloc, &action_payload(1)),
        Verb::Reconnect => frame_around(alloc, &action_payload(2)),
        Verb::ReadState => frame_around(alloc, &STATE_REQUEST),
    }
}

/// Returns the frame that releases the association.
#[tactic(auto, unfolding(crate::specs::Texts::release_frame))]
pub fn release_frame(alloc: Global) -> Result<Octets, AllocError>
    ensures { IfOk result (λ text. text ≡ release_frame) }
{
    frame_around(alloc, &RELEASE_REQUEST)
}

// Returns a payload in a frame from port 1 to port 1.
fn frame_around(alloc: Global, payload: &[u8]) -> Result<Octets, AllocError>
    requires { length payload.now ≤ 1024 }
    ensures { IfOk result (λ text. text ≡ frame_around payload.now) }
{
    match frame(alloc, PORT, PORT, payload) {
        Ok(text) => Ok(text),
        Err(WrapperFault::Memory) => Err(AllocError),
        Err(WrapperFault::Version) => unreachable!(),
        Err(WrapperFault::TooLong) => unreachable!(),
    }
}

// Returns the invocation of a method of the disconnect control, with the parameter integer 0.
fn action_payload(method: u8) -> [u8; 15]
    ensures { result ≡ action_payload method }
{
    [
        ACTION_REQUEST,
        NORMAL,
        INVOKE_ID.0,
        0,
        DISCONNECT_CONTROL,
        0,
        0,
        96,
        3,
        10,
        255,
        method,
        PRESENT,
        INTEGER,
        PARAMETER,
    ]
}
