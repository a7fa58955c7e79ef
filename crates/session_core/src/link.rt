//! An open association (client, rights, negotiated services and PDU size), and the AARE for each
//! verdict (IEC 62056-5-3).
ghost use Rattle.std.specs.Prelude.{◌≡◌};
ghost use Rattle.session_core.specs.Association.{aare_by, link_by};

use crate::limit::{Limit, MAX_PDU};
use acse_ber::{ACCEPTED, Aare, Conformance, Info, REJECTED_PERMANENT, Verdict, diagnostic};
use bitflags::Flags;
use cosem_names::Level;

// An open association: the client, its rights, and the values that were negotiated.
#[derive(Clone, Copy, Debug)]
pub(crate) struct Link {
    // The client's wrapper port.
    pub(crate) source: u16,
    // The client's access rights.
    pub(crate) level: Level,
    // The negotiated conformance block.
    pub(crate) conformance: Conformance,
    // The longest PDU that is sent to the client.
    pub(crate) limit: Limit,
}

// Returns the association of a client that is accepted.
pub(crate) fn link_from(source: u16, verdict: Verdict) -> Option<Link>
    ensures { result ≡ link_by source verdict }
{
    match verdict {
        Verdict::Accepted { level, bits, limit } => Some(Link {
            source,
            level,
            conformance: Conformance::from_bits_retain(bits),
            limit: Limit::new(limit),
        }),
        Verdict::Rejected(_) | Verdict::InitiateError(_) => None,
    }
}

// Returns the answer to an AARQ, by its verdict.
pub(crate) fn answer_to(verdict: Verdict) -> Aare
    ensures { result ≡ aare_by verdict }
{
    match verdict {
        Verdict::Accepted { bits, .. } => Aare {
            result: ACCEPTED,
            diagnostic: diagnostic::NULL,
            info: Info::Response {
                bits,
                limit: MAX_PDU,
            },
        },
        Verdict::Rejected(diagnostic) => Aare {
            result: REJECTED_PERMANENT,
            diagnostic,
            info: Info::Absent,
        },
        Verdict::InitiateError(error) => Aare {
            result: REJECTED_PERMANENT,
            diagnostic: diagnostic::NO_REASON_GIVEN,
            info: Info::InitiateError(error),
        },
    }
}
