//! Reads an AARE from BER: the result, the diagnostic and the user information, in any order of the
//! fields (IEC 62056-5-3).
ghost use Rattle.std.specs.Prelude.{◌≡◌, Ok, IfOk, option_map};
ghost use Rattle.wire_bytes.specs.Reading.{Reads, read_as};
ghost use Rattle.acse_ber.specs.Parts.{byte_part, part_after, result_part, diagnostic_part, info_part};
ghost use Rattle.acse_ber.specs.Parts.{response_part};
ghost use Rattle.acse_ber.specs.Reading.{whole_value, known_info, known_info_of, info_of, is_response};
ghost use Rattle.acse_ber.specs.Reading.{aare_of, aare_in, aare_with_result, aare_with_diagnostic};
ghost use Rattle.acse_ber.specs.Spelling.{SpellsAare};
ghost use Rattle.acse_ber.specs.declared.aare.Aare.{Aare};

use crate::aare::{ACCEPTED, Aare, Info};
use crate::fault::AcseFault;
use crate::field::{find_inner, find_required, read_tagged};
use crate::initiate::{
    INITIATE_ERROR, RESPONSE_TAG, SERVICE_ERROR_TAG, read_conformance, skip_optional_byte,
};
use crate::length::{read_literal, read_size};
use crate::tag;
use bitflags::Flags;
use wire_bytes::Cursor;

/// Reads an AARE: a length that ends at the last byte, filled by fields in any order.
///
/// The result and the diagnostic must be present, and with result 0 an InitiateResponse too.
/// Neither the result nor the diagnostic nor the user information may occur twice. All other fields
/// are skipped. With another result, user information that is neither an InitiateResponse nor a
/// ConfirmedServiceError of Initiate is read as absent.
///
/// Returns `Unreadable` for any other bytes. Does not allocate.
pub fn read_aare(bytes: &[u8]) -> Result<Aare, AcseFault>
    // An AARE that is read is spelled by all of the bytes.
    ensures found { IfOk result (SpellsAare bytes.now) }

    // If the bytes spell an AARE, that AARE is read.
    ensures unique { (aare : Aare) → SpellsAare bytes.now aare → result ≡ Ok aare }

    // The fault is never out of memory.
    ensures exact { result ≡ aare_of bytes.now }
{
    read_whole(bytes)
}

// Reads an AARE as `read_aare` does; its contract refers to the definition `aare_of` alone.
#[tactic(auto, unfolding(crate::specs::Reading::aare_of, crate::specs::Reading::aare_in, crate::specs::Reading::aare_with_result, crate::specs::Reading::aare_with_diagnostic))]
fn read_whole(bytes: &[u8]) -> Result<Aare, AcseFault>
    ensures { result ≡ aare_of bytes.now }
{
    read_fields(read_tagged(tag::AARE, bytes)?)
}

// Reads the fields of an AARE.
#[tactic(auto, unfolding(crate::specs::Reading::aare_in))]
fn read_fields(body: &[u8]) -> Result<Aare, AcseFault>
    ensures { result ≡ aare_in body.now }
{
    let outcome = read_result(find_required(tag::aare::RESULT, body)?)?;
    read_after_result(outcome, body)
}

// Reads the diagnostic and the user information of an AARE with this result.
#[tactic(auto, unfolding(crate::specs::Reading::aare_with_result))]
fn read_after_result(outcome: u8, body: &[u8]) -> Result<Aare, AcseFault>
    ensures { result ≡ aare_with_result outcome body.now }
{
    let diagnostic = read_diagnostic(find_required(tag::aare::RESULT_SOURCE_DIAGNOSTIC, body)?)?;
    read_after_diagnostic(outcome, diagnostic, body)
}

// Reads the user information of an AARE with this result and diagnostic.
#[tactic(auto, unfolding(crate::specs::Reading::aare_with_diagnostic))]
fn read_after_diagnostic(outcome: u8, diagnostic: u8, body: &[u8]) -> Result<Aare, AcseFault>
    ensures { result ≡ aare_with_diagnostic outcome diagnostic body.now }
{
    let user = find_inner(tag::USER_INFORMATION, tag::OCTET_STRING, body)?;
    let info = read_info(user);
    if outcome == ACCEPTED && !is_response(info) {
        return Err(AcseFault::Unreadable);
    }
    Ok(Aare {
        result: outcome,
        diagnostic,
        info,
    })
}

// Reads the association result: an integer of one byte.
fn read_result(contents: &[u8]) -> Result<u8, AcseFault>
    ensures { result ≡ whole_value (result_part.read contents.now) }
{
    let mut reader = Cursor::new(contents);
    let outcome = read_byte_after(&[tag::INTEGER, 1], &mut reader)?;
    reader.finish(outcome, AcseFault::Unreadable)
}

// Reads the diagnostic, of the service user or the service provider: an integer of one byte.
fn read_diagnostic(contents: &[u8]) -> Result<u8, AcseFault>
    ensures { result ≡ whole_value (diagnostic_part.read contents.now) }
{
    let mut reader = Cursor::new(contents);
    let (tag::SERVICE_USER | tag::SERVICE_PROVIDER) = reader.read_byte(AcseFault::Unreadable)?
    else {
        return Err(AcseFault::Unreadable);
    };
    let diagnostic = read_byte_after(&[3, tag::INTEGER, 1], &mut reader)?;
    reader.finish(diagnostic, AcseFault::Unreadable)
}

// Reads the expected bytes and returns the byte after them.
fn read_byte_after(expected: &[u8], reader: &mut Cursor) -> Result<u8, AcseFault>
    ensures { Reads (λ byte. byte) result reader.new
        ((part_after expected.now byte_part).read reader.old) }
{
    read_literal(expected, reader)?;
    reader.read_byte(AcseFault::Unreadable)
}

// Reads user information, if it is present.
#[tactic(auto, unfolding(crate::specs::Reading::info_in))]
fn read_info(user: Option<&[u8]>) -> Info
    ensures { result ≡ info_of (option_map (λ bytes. bytes.now) user.entry) }
{
    let Some(bytes) = user else {
        return Info::Absent;
    };
    match read_whole_info(bytes) {
        Ok(info) => info,
        Err(_) => Info::Absent,
    }
}

// Returns whether user information is an InitiateResponse.
fn is_response(info: Info) -> bool
    ensures { result ≡ is_response info }
{
    matches!(info, Info::Response { .. })
}

// Reads user information that is an InitiateResponse or a ConfirmedServiceError of Initiate.
fn read_whole_info(bytes: &[u8]) -> Result<Info, AcseFault>
    ensures { result ≡ known_info_of bytes.now }
{
    let mut reader = Cursor::new(bytes);
    let info = read_known_info(&mut reader)?;
    reader.finish(info, AcseFault::Unreadable)
}

// Reads an InitiateResponse or a ConfirmedServiceError of Initiate.
fn read_known_info(reader: &mut Cursor) -> Result<Info, AcseFault>
    ensures { Reads (λ info. info) result reader.new
        (read_as known_info (info_part.read reader.old)) }
{
    match reader.read_byte(AcseFault::Unreadable)? {
        RESPONSE_TAG => {
            let (bits, limit) = read_response(reader)?;
            Ok(Info::Response { bits, limit })
        }
        SERVICE_ERROR_TAG => Ok(Info::InitiateError(read_byte_after(&INITIATE_ERROR, reader)?)),
        _ => Err(AcseFault::Unreadable),
    }
}

// Reads the conformance and the size of an InitiateResponse, after its tag. Its version and VAA
// name are ignored.
fn read_response(reader: &mut Cursor) -> Result<(u32, u16), AcseFault>
    ensures { Reads (λ response. response) result reader.new (response_part.read reader.old) }
{
    skip_optional_byte(reader)?;
    let _version = reader.read_byte(AcseFault::Unreadable)?;
    let conformance = read_conformance(reader)?;
    let limit = read_size(reader)?;
    let _name = reader.read_bytes(2, AcseFault::Unreadable)?;
    Ok((conformance.bits(), limit))
}
