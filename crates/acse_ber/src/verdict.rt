//! The result of judging an AARQ: accepted with the negotiated services and PDU size, or rejected
//! with a diagnostic or an error (IEC 62056-5-3).
use cosem_names::Level;

/// A meter's decision on an AARQ.
#[derive(Clone, Copy, Debug, PartialEq, Eq)]
pub enum Verdict {
    /// The association is accepted.
    Accepted {
        /// The client's access rights.
        level: Level,
        /// The negotiated conformance: the services that both the meter offers and the client
        /// proposes, 24 bits with bit 0 the highest.
        bits: u32,
        /// The maximum APDU size that the client receives, in bytes, as it proposed it; 0 means no
        /// limit.
        limit: u16,
    },
    /// The association is rejected, with this diagnostic of the service user.
    Rejected(u8),
    /// The association is rejected, with this error of Initiate.
    InitiateError(u8),
}
