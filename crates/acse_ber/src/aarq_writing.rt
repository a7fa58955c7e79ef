//! Writes an AARQ in BER (IEC 62056-5-3), with the ACSE requirements if it names a mechanism.
ghost use Rattle.std.specs.Prelude.{◌≡◌, ◌++◌, IfOk, OnOk};
ghost use Rattle.acse_ber.specs.Text.{mechanism_text, password_text, aarq_body, aarq_text};

use crate::aarq::Aarq;
use crate::field_writing::{put_context, put_nested, put_tagged, put_user};
use crate::tag;
use cosem_axdr::Octets;
use std::alloc::{AllocError, Global};

/// Returns the bytes of an AARQ, with each length in its shortest form. A mechanism is preceded by
/// ACSE requirements that announce authentication.
///
/// An AARQ whose fields exceed 65,535 bytes is written in full, but is not read back.
#[tactic(auto, unfolding(crate::specs::Text::aarq_text))]
pub fn write_aarq(alloc: Global, aarq: &Aarq) -> Result<Octets, AllocError>
    ensures { IfOk result (λ text. text ≡ aarq_text aarq.now) }
{
    let mut body = Octets::new(alloc);
    put_fields(alloc, aarq, &mut body)?;
    let mut text = Octets::new(alloc);
    put_tagged(tag::AARQ, body.as_slice(), &mut text)?;
    Ok(text)
}

// Appends the fields of an AARQ.
fn put_fields(alloc: Global, aarq: &Aarq, out: &mut Octets) -> Result<(), AllocError>
    ensures { OnOk result (out.new ≡ out.old ++ aarq_body aarq.now) }
{
    put_context(alloc, aarq.context.as_slice(), out)?;
    put_mechanism(&aarq.mechanism, out)?;
    put_password(alloc, &aarq.password, out)?;
    put_user(alloc, aarq.user.as_slice(), out)
}

// The ACSE requirements: a bit-string whose first bit, authentication, is set.
const AUTHENTICATION_REQUIRED: [u8; 4] = [tag::aarq::SENDER_ACSE_REQUIREMENTS, 0x02, 0x07, 0x80];

// Appends the ACSE requirements and the mechanism, if there is one.
fn put_mechanism(mechanism: &Octets, out: &mut Octets) -> Result<(), AllocError>
    ensures { OnOk result (out.new ≡ out.old ++ mechanism_text mechanism.now) }
{
    if mechanism.is_empty() {
        return Ok(());
    }
    out.extend_from_slice(&AUTHENTICATION_REQUIRED)?;
    put_tagged(tag::aarq::MECHANISM_NAME, mechanism.as_slice(), out)
}

// Appends the password, if there is one.
fn put_password(
    alloc: Global,
    password: &Option<Octets>,
    out: &mut Octets,
) -> Result<(), AllocError>
    ensures { OnOk result (out.new ≡ out.old ++ password_text password.now) }
{
    match password {
        Some(password) => put_nested(
            alloc,
            tag::aarq::CALLING_AUTHENTICATION_VALUE,
            tag::CHARSTRING,
            password.as_slice(),
            out,
        ),
        None => Ok(()),
    }
}
