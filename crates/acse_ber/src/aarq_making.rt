//! The AARQ of a client that authenticates with a password.
ghost use Rattle.std.specs.Prelude.{◌≡◌, IfOk};
ghost use Rattle.acse_ber.specs.Password.{IsPassword};
ghost use Rattle.acse_ber.specs.Text.{request_text, low_level_aarq};

use crate::aarq::Aarq;
use crate::identifier::{LN_WITHOUT_CIPHERING, LOW_LEVEL_SECURITY};
use crate::initiate::{ABSENT, REQUEST_HEAD, VERSION, put_negotiated};
use cosem_axdr::Octets;
use std::alloc::{AllocError, Global};

/// Returns the AARQ of a client with low-level security: this password of 1 to 32 bytes, the
/// application context of logical names without ciphering, and an InitiateRequest of version 6.
///
/// It proposes the conformance `bits`, of which only the lowest 24 are used (bit 0 being the
/// highest of these), and states that the client receives APDUs of at most `limit` bytes; 0 means
/// no limit.
#[tactic(auto, unfolding(crate::specs::Text::low_level_aarq))]
pub fn low_level_aarq(
    alloc: Global,
    password: &[u8],
    bits: u32,
    limit: u16,
) -> Result<Aarq, AllocError>
    requires { IsPassword password.now }
    ensures { IfOk result (λ aarq. aarq ≡ low_level_aarq password.now bits limit) }
{
    Ok(Aarq {
        context: Octets::from_slice(alloc, &LN_WITHOUT_CIPHERING)?,
        mechanism: Octets::from_slice(alloc, &LOW_LEVEL_SECURITY)?,
        password: Some(Octets::from_slice(alloc, password)?),
        user: initiate_request(alloc, bits, limit)?,
    })
}

// Returns an InitiateRequest: no dedicated key, neither response-allowed nor quality of service,
// the version, the conformance and the size.
fn initiate_request(alloc: Global, bits: u32, limit: u16) -> Result<Octets, AllocError>
    ensures { IfOk result (λ request. request ≡ request_text bits limit) }
{
    let mut request = Octets::new(alloc);
    request.extend_from_slice(&REQUEST_HEAD)?;
    request.extend_from_slice(&[ABSENT, ABSENT, VERSION])?;
    put_negotiated(bits, limit, &mut request)?;
    Ok(request)
}
