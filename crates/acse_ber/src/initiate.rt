//! The InitiateRequest, which is the user information of an AARQ, and the parts that it has in
//! common with an InitiateResponse (IEC 62056-5-3).
ghost use Rattle.std.specs.Prelude.{◌≡◌, [], ◌∷◌, ◌++◌, OnOk};
ghost use Rattle.std.specs.Int.{w16, to_be_bytes, bytes_high_first};
ghost use Rattle.wire_bytes.specs.Reading.{Reads};
ghost use Rattle.acse_ber.specs.Parts.{optional_byte, conformance_part, proposed_part};
ghost use Rattle.acse_ber.specs.Reading.{Yields, proposal_of};

use crate::conformance::Conformance;
use crate::fault::AcseFault;
use crate::length::{read_literal, read_size};
use bitflags::Flags;
use byteorder::{BigEndian, ByteOrder};
use cosem_axdr::Octets;
use std::alloc::AllocError;
use wire_bytes::Cursor;

// The tag of an InitiateRequest, followed by the absence of a dedicated key.
pub(crate) const REQUEST_HEAD: [u8; 2] = [0x01, 0x00];

// The tag of an InitiateResponse.
pub(crate) const RESPONSE_TAG: u8 = 0x08;

// The tag of a ConfirmedServiceError.
pub(crate) const SERVICE_ERROR_TAG: u8 = 0x0E;

// The bytes between the tag of a ConfirmedServiceError and an error of Initiate: the choice
// initiate-error and within it the choice initiate.
pub(crate) const INITIATE_ERROR: [u8; 2] = [0x01, 0x06];

// The tag of a conformance block, the length of its contents and the number of unused bits.
const CONFORMANCE_HEAD: [u8; 4] = [0x5F, 0x1F, 0x04, 0x00];

// The number of values of a conformance block's 24 bits.
const CONFORMANCE_VALUES: u32 = 1 << 24;

// The DLMS version that a client proposes and the meter answers with.
pub(crate) const VERSION: u8 = 6;

// The name of the virtual application entity (VAA) for logical names.
pub(crate) const VAA_NAME: [u8; 2] = [0x00, 0x07];

// Marks an optional part as absent.
pub(crate) const ABSENT: u8 = 0;

// Marks an optional part as present.
const PRESENT: u8 = 1;

// The proposal of a client in an InitiateRequest.
#[derive(Clone, Copy)]
pub(crate) struct Proposal {
    // The proposed DLMS version.
    pub(crate) version: u8,
    // The proposed services, as a conformance block.
    pub(crate) conformance: Conformance,
    // The maximum APDU size that the client receives, in bytes; 0 means no limit.
    pub(crate) size: u16,
}

// Reads an InitiateRequest without a dedicated key. Its response-allowed and quality of service
// are ignored.
#[tactic(auto, unfolding(crate::specs::Reading::proposal_of))]
pub(crate) fn read_proposal(bytes: &[u8]) -> Result<Proposal, AcseFault>
    ensures { Yields (λ proposal. proposal) result (proposal_of bytes.now) }
{
    let mut reader = Cursor::new(bytes);
    read_literal(&REQUEST_HEAD, &mut reader)?;
    skip_optional_byte(&mut reader)?;
    skip_optional_byte(&mut reader)?;
    let proposal = read_proposal_fields(&mut reader)?;
    reader.finish(proposal, AcseFault::Unreadable)
}

// Reads the version, the conformance and the size.
fn read_proposal_fields(reader: &mut Cursor) -> Result<Proposal, AcseFault>
    ensures { Reads (λ proposal. proposal) result reader.new (proposed_part.read reader.old) }
{
    let version = reader.read_byte(AcseFault::Unreadable)?;
    let conformance = read_conformance(reader)?;
    let size = read_size(reader)?;
    Ok(Proposal {
        version,
        conformance,
        size,
    })
}

// Skips an optional byte: a byte that marks it as absent or present, and the byte itself if
// present.
pub(crate) fn skip_optional_byte(reader: &mut Cursor) -> Result<(), AcseFault>
    ensures { Reads (λ unit. unit) result reader.new (optional_byte.read reader.old) }
{
    match reader.read_byte(AcseFault::Unreadable)? {
        ABSENT => Ok(()),
        PRESENT => {
            let _value = reader.read_byte(AcseFault::Unreadable)?;
            Ok(())
        }
        _ => Err(AcseFault::Unreadable),
    }
}

// Reads the 24 bits of a conformance block.
pub(crate) fn read_conformance(reader: &mut Cursor) -> Result<Conformance, AcseFault>
    ensures { Reads (λ conformance. conformance.0) result reader.new
        (conformance_part.read reader.old) }
{
    read_literal(&CONFORMANCE_HEAD, reader)?;
    let bits = BigEndian::read_u24(reader.read_bytes(3, AcseFault::Unreadable)?);
    Ok(Conformance::from_bits_retain(bits))
}

// Appends a conformance block and a PDU size. Only the lowest 24 bits are written.
#[tactic(auto, using(crate::proofs::Texts::low_24_bits))]
pub(crate) fn put_negotiated(bits: u32, limit: u16, out: &mut Octets) -> Result<(), AllocError>
    ensures { OnOk result (out.new ≡ out.old ++ (0x5F ∷ 0x1F ∷ 0x04 ∷ 0x00 ∷ [])
        ++ (bytes_high_first 3 bits ++ to_be_bytes w16 limit)) }
{
    let mut fields = [0; 5];
    BigEndian::write_u24(&mut fields, bits % CONFORMANCE_VALUES);
    BigEndian::write_u16(&mut fields[3..], limit);
    out.extend_from_slice(&CONFORMANCE_HEAD)?;
    out.extend_from_slice(&fields)
}
