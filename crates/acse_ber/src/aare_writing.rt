//! Writes an AARE in BER (IEC 62056-5-3), with each length in its shortest form.
ghost use Rattle.std.specs.Prelude.{◌≡◌, ◌++◌, IfOk, OnOk};
ghost use Rattle.std.proofs.Common.{inl, inr};
ghost use Rattle.acse_ber.specs.Parts.{info_part};
ghost use Rattle.acse_ber.specs.Text.{user_text, result_text, diagnostic_text, info_text};
ghost use Rattle.acse_ber.specs.Text.{aare_text};

use crate::aare::{Aare, Info};
use crate::field_writing::{put_context, put_tagged, put_user};
use crate::identifier::LN_WITHOUT_CIPHERING;
use crate::initiate::{
    ABSENT, INITIATE_ERROR, RESPONSE_TAG, SERVICE_ERROR_TAG, VAA_NAME, VERSION, put_negotiated,
};
use crate::tag;
use cosem_axdr::Octets;
use std::alloc::{AllocError, Global};

/// Returns the bytes of an AARE with the application context of logical names without ciphering,
/// and each length in its shortest form. The diagnostic is written as that of the service user.
///
/// Only the lowest 24 bits of a response's conformance are written.
#[tactic(auto, unfolding(crate::specs::Text::aare_text))]
pub fn write_aare(alloc: Global, aare: &Aare) -> Result<Octets, AllocError>
    ensures { IfOk result (λ text. text ≡ aare_text aare.now) }
{
    let mut body = Octets::new(alloc);
    put_context(alloc, &LN_WITHOUT_CIPHERING, &mut body)?;
    put_result(aare.result, &mut body)?;
    put_diagnostic(aare.diagnostic, &mut body)?;
    put_info(alloc, aare.info, &mut body)?;
    let mut text = Octets::new(alloc);
    put_tagged(tag::AARE, body.as_slice(), &mut text)?;
    Ok(text)
}

// Appends the association result: an integer of one byte.
fn put_result(outcome: u8, out: &mut Octets) -> Result<(), AllocError>
    ensures { OnOk result (out.new ≡ out.old ++ result_text outcome) }
{
    out.extend_from_slice(&[tag::aare::RESULT, 3, tag::INTEGER, 1, outcome])
}

// Appends the diagnostic as that of the service user: an integer of one byte.
fn put_diagnostic(diagnostic: u8, out: &mut Octets) -> Result<(), AllocError>
    ensures { OnOk result (out.new ≡ out.old ++ diagnostic_text diagnostic) }
{
    out.extend_from_slice(&[
        tag::aare::RESULT_SOURCE_DIAGNOSTIC,
        5,
        tag::SERVICE_USER,
        3,
        tag::INTEGER,
        1,
        diagnostic,
    ])
}

// Appends the user information, if there is any.
fn put_info(alloc: Global, info: Info, out: &mut Octets) -> Result<(), AllocError>
    ensures { OnOk result (out.new ≡ out.old ++ info_text info) }
{
    match info {
        Info::Absent => Ok(()),
        Info::Response { bits, limit } => put_response(alloc, bits, limit, out),
        Info::InitiateError(error) => put_initiate_error(alloc, error, out),
    }
}

// Appends an InitiateResponse: no quality of service, the version, the conformance, the size and
// the VAA name.
fn put_response(alloc: Global, bits: u32, limit: u16, out: &mut Octets) -> Result<(), AllocError>
    ensures { OnOk result (out.new ≡ out.old
        ++ user_text (info_part.text (inl (bits, limit)))) }
{
    let mut response = Octets::new(alloc);
    response.extend_from_slice(&[RESPONSE_TAG, ABSENT, VERSION])?;
    put_negotiated(bits, limit, &mut response)?;
    response.extend_from_slice(&VAA_NAME)?;
    put_user(alloc, response.as_slice(), out)
}

// Appends a ConfirmedServiceError of Initiate.
fn put_initiate_error(alloc: Global, error: u8, out: &mut Octets) -> Result<(), AllocError>
    ensures { OnOk result (out.new ≡ out.old ++ user_text (info_part.text (inr error))) }
{
    let mut text = Octets::new(alloc);
    text.push(SERVICE_ERROR_TAG)?;
    text.extend_from_slice(&INITIATE_ERROR)?;
    text.push(error)?;
    put_user(alloc, text.as_slice(), out)
}
