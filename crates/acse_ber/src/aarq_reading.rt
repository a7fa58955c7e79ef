//! Reads an AARQ from BER: application context, mechanism, authentication value and user
//! information (IEC 62056-5-3).
ghost use Rattle.std.specs.Prelude.{◌≡◌, IfOk, MatchResult, option_map};
ghost use Rattle.wire_bytes.specs.Outcome.{Gives};
ghost use Rattle.acse_ber.specs.Reading.{aarq_in, aarq_of};
ghost use Rattle.acse_ber.specs.Spelling.{SpellsAarq};
ghost use Rattle.acse_ber.specs.declared.aarq.Aarq.{Aarq};

use crate::aarq::Aarq;
use crate::fault::AcseFault;
use crate::field::{find_field, find_inner, find_needed_inner, read_tagged};
use crate::tag;
use cosem_axdr::Octets;
use std::alloc::{AllocError, Global};

/// Reads an AARQ: a length that ends at the last byte, filled by fields in any order.
///
/// The application context and the user information must be present. Neither they nor the mechanism
/// nor the authentication value may occur twice. All other fields are skipped.
///
/// Returns `Unreadable` for any other bytes, or `Memory` if out of memory.
pub fn read_aarq(alloc: Global, bytes: &[u8]) -> Result<Aarq, AcseFault>
    // An AARQ that is read is spelled by all of the bytes.
    ensures found { IfOk result (SpellsAarq bytes.now) }

    // If the bytes spell an AARQ, that AARQ is read, unless out of memory.
    ensures unique { (aarq : Aarq) → SpellsAarq bytes.now aarq
        → MatchResult result (λ read. read ≡ aarq) (λ fault. fault ≡ AcseFault.Memory) }

    // The fault is that of the definition, or out of memory.
    ensures exact { Gives AcseFault.Memory (λ aarq. aarq) result (aarq_of bytes.now) }
{
    read_whole(alloc, bytes)
}

// Reads an AARQ as `read_aarq` does; its contract refers to the definition `aarq_of` alone.
#[tactic(auto, unfolding(crate::specs::Reading::aarq_of, crate::specs::Reading::aarq_in))]
fn read_whole(alloc: Global, bytes: &[u8]) -> Result<Aarq, AcseFault>
    ensures { Gives AcseFault.Memory (λ aarq. aarq) result (aarq_of bytes.now) }
{
    read_fields(alloc, read_tagged(tag::AARQ, bytes)?)
}

// Reads the fields of an AARQ.
#[tactic(auto, unfolding(crate::specs::Reading::aarq_in))]
fn read_fields(alloc: Global, body: &[u8]) -> Result<Aarq, AcseFault>
    ensures { Gives AcseFault.Memory (λ aarq. aarq) result (aarq_in body.now) }
{
    let context = find_needed_inner(tag::APPLICATION_CONTEXT_NAME, tag::OBJECT_IDENTIFIER, body)?;
    let mechanism = find_field(tag::aarq::MECHANISM_NAME, body)?.unwrap_or(&[]);
    let password = find_inner(
        tag::aarq::CALLING_AUTHENTICATION_VALUE,
        tag::CHARSTRING,
        body,
    )?;
    let user = find_needed_inner(tag::USER_INFORMATION, tag::OCTET_STRING, body)?;
    Ok(copy_aarq(alloc, context, mechanism, password, user)?)
}

// Returns an AARQ with copies of these contents.
fn copy_aarq(
    alloc: Global,
    context: &[u8],
    mechanism: &[u8],
    password: Option<&[u8]>,
    user: &[u8],
) -> Result<Aarq, AllocError>
    ensures { IfOk result (λ aarq. aarq
        ≡ record {
          context = context.now;
          mechanism = mechanism.now;
          password = option_map (λ bytes. bytes.now) password.entry;
          user = user.now;
        }) }
{
    Ok(Aarq {
        context: Octets::from_slice(alloc, context)?,
        mechanism: Octets::from_slice(alloc, mechanism)?,
        password: copy_of(alloc, password)?,
        user: Octets::from_slice(alloc, user)?,
    })
}

// Returns a copy of the bytes, if there are any.
fn copy_of(alloc: Global, bytes: Option<&[u8]>) -> Result<Option<Octets>, AllocError>
    ensures { IfOk result (λ copy. copy ≡ option_map (λ bytes. bytes.now) bytes.entry) }
{
    Ok(match bytes {
        Some(bytes) => Some(Octets::from_slice(alloc, bytes)?),
        None => None,
    })
}
