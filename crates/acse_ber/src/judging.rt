//! The decision on an association request (IEC 62056-5-3).
ghost use Rattle.std.specs.Prelude.{◌≡◌, bytes_eq};
ghost use Rattle.acse_ber.specs.Password.{IsPassword};
ghost use Rattle.acse_ber.specs.Verdict.{is_no_mechanism, is_password, proposal_check, authentication_check, association_check, verdict_of};

use crate::aarq::Aarq;
use crate::conformance::Conformance;
use crate::diagnostic;
use crate::identifier::{LN_WITHOUT_CIPHERING, LOW_LEVEL_SECURITY, LOWEST_LEVEL_SECURITY};
use crate::initiate::{Proposal, read_proposal};
use crate::verdict::Verdict;
use bitflags::Flags;
use cosem_axdr::Octets;
use cosem_names::Level;

/// The wrapper port (wPort) of the management client, which must authenticate with the password.
pub const MANAGEMENT_CLIENT: u16 = 1;

/// The wrapper port (wPort) of the public client, which needs no password.
pub const PUBLIC_CLIENT: u16 = 16;

// The errors of Initiate.
mod initiate_error {
    // dlms-version-too-low: the proposed DLMS version is below 6.
    pub(crate) const DLMS_VERSION_TOO_LOW: u8 = 1;

    // incompatible-conformance: the client proposes no service that the meter offers.
    pub(crate) const INCOMPATIBLE_CONFORMANCE: u8 = 2;

    // pdu-size-too-short: the client's maximum APDU size is 1 to 63 bytes.
    pub(crate) const PDU_SIZE_TOO_SHORT: u8 = 3;
}

// The lowest DLMS version that the meter accepts (proposed-dlms-version-number).
const LOWEST_VERSION: u8 = 6;

/// The services that the meter offers: GET, SET and ACTION, each with block transfer, and multiple
/// references.
pub const OFFERED_CONFORMANCE: Conformance = Conformance(
    Conformance::BLOCK_TRANSFER_WITH_GET_OR_READ.0
        | Conformance::BLOCK_TRANSFER_WITH_SET_OR_WRITE.0
        | Conformance::BLOCK_TRANSFER_WITH_ACTION.0
        | Conformance::MULTIPLE_REFERENCES.0
        | Conformance::GET.0
        | Conformance::SET.0
        | Conformance::ACTION.0,
);

/// The maximum length of a password, the secret of low-level security, in bytes.
pub const MAX_PASSWORD: usize = 32;

// The client-max-receive-pdu-size of a client that sets no limit.
const NO_SIZE_LIMIT: u16 = 0;

// The smallest limit of a client's APDU size that the meter accepts (client-max-receive-pdu-size),
// in bytes.
const SHORTEST_PDU_SIZE: u16 = 64;

/// Decides on an AARQ from the client port `sap`. Returns the refusal of the first failed check, or
/// the negotiated parameters. `password` is that of the management client, 1 to 32 bytes.
///
/// The checks are, in this order: the port; the application context; the mechanism; on the
/// management client's port, that a mechanism is named, and the password; that the user information
/// is an InitiateRequest without a dedicated key; its version; that it proposes at least one
/// service that the meter offers; and the size.
#[tactic(auto, unfolding(crate::specs::Verdict::verdict_of))]
pub fn judge(aarq: &Aarq, sap: u16, password: &Octets) -> Verdict
    requires { IsPassword password.now }
    ensures { result ≡ verdict_of aarq.now sap password.now }
{
    match associate(aarq, sap, password) {
        Ok(verdict) | Err(verdict) => verdict,
    }
}

// Performs the checks, and returns the verdict. An `Err` is a refusal.
#[tactic(auto, unfolding(crate::specs::Verdict::association_check))]
fn associate(aarq: &Aarq, sap: u16, password: &Octets) -> Result<Verdict, Verdict>
    ensures { result ≡ association_check aarq.now sap password.now }
{
    let level = match sap {
        MANAGEMENT_CLIENT => Level::Management,
        PUBLIC_CLIENT => Level::Public,
        _ => return Err(Verdict::Rejected(diagnostic::NO_REASON_GIVEN)),
    };
    if aarq.context.as_slice() != LN_WITHOUT_CIPHERING.as_slice() {
        return Err(Verdict::Rejected(diagnostic::APPLICATION_CONTEXT_NAME_NOT_SUPPORTED));
    }
    authenticate(level, aarq, password)?;
    let Ok(proposal) = read_proposal(aarq.user.as_slice()) else {
        return Err(Verdict::Rejected(diagnostic::NO_REASON_GIVEN));
    };
    agree(level, proposal)
}

// Checks the client's authentication. Only the management client must give the password.
#[tactic(auto, unfolding(crate::specs::Verdict::authentication_check))]
fn authenticate(level: Level, aarq: &Aarq, password: &Octets) -> Result<(), Verdict>
    ensures { result ≡ authentication_check level aarq.now password.now }
{
    let is_absent = is_no_mechanism(&aarq.mechanism);
    if !is_absent && aarq.mechanism.as_slice() != LOW_LEVEL_SECURITY.as_slice() {
        return Err(Verdict::Rejected(diagnostic::AUTHENTICATION_MECHANISM_NAME_NOT_RECOGNISED));
    }
    match level {
        Level::Public => Ok(()),
        Level::Management if is_absent => Err(Verdict::Rejected(
            diagnostic::AUTHENTICATION_REQUIRED,
        )),
        Level::Management if !is_password(password, &aarq.password) => {
            Err(Verdict::Rejected(diagnostic::AUTHENTICATION_FAILURE))
        }
        Level::Management => Ok(()),
    }
}

// Returns whether a mechanism is absent, or is that of no authentication.
fn is_no_mechanism(mechanism: &Octets) -> bool
    ensures { result ≡ is_no_mechanism mechanism.now }
{
    mechanism.is_empty() || mechanism.as_slice() == LOWEST_LEVEL_SECURITY.as_slice()
}

// Returns whether a password was given and equals `password`.
fn is_password(password: &Octets, given: &Option<Octets>) -> bool
    ensures { result ≡ is_password password.now given.now }
{
    match given {
        Some(given) => is_same(given.as_slice(), password.as_slice()),
        None => false,
    }
}

// Returns whether two byte strings are equal. All bytes are compared, so that the time taken does
// not reveal the length of a common prefix.
fn is_same(given: &[u8], password: &[u8]) -> bool
    ensures { result ≡ bytes_eq given.now password.now }
{
    if given.len() != password.len() {
        return false;
    }
    let mut differing = 0;
    'bytes: for i in 0..given.len() {
        differing |= given[i] ^ password[i];
    }
    differing == 0
}

// Checks the client's proposal, and returns the verdict. An `Err` is a refusal.
#[tactic(auto, unfolding(crate::specs::Verdict::proposal_check))]
fn agree(level: Level, proposal: Proposal) -> Result<Verdict, Verdict>
    ensures { result ≡ proposal_check level proposal }
{
    if proposal.version < LOWEST_VERSION {
        return Err(Verdict::InitiateError(initiate_error::DLMS_VERSION_TOO_LOW));
    }
    let negotiated = OFFERED_CONFORMANCE.intersection(proposal.conformance);
    if negotiated.is_empty() {
        return Err(Verdict::InitiateError(initiate_error::INCOMPATIBLE_CONFORMANCE));
    }
    let limit = proposal.size;
    if limit != NO_SIZE_LIMIT && limit < SHORTEST_PDU_SIZE {
        return Err(Verdict::InitiateError(initiate_error::PDU_SIZE_TOO_SHORT));
    }
    Ok(Verdict::Accepted {
        level,
        bits: negotiated.bits(),
        limit,
    })
}
