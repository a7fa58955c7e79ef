//! The AARQ, a client's association request (IEC 62056-5-3), as a value; its `Debug` output omits
//! the password.
use cosem_axdr::Octets;
use std::fmt::{self, Debug, Formatter};

/// An association request (IEC 62056-5-3, AARQ).
#[derive(Drop)]
pub struct Aarq {
    /// The object identifier of the application context.
    pub context: Octets,
    /// The object identifier of the authentication mechanism; empty if there is none.
    pub mechanism: Octets,
    /// The authentication value, a character string.
    pub password: Option<Octets>,
    /// The user information, which should be an InitiateRequest.
    pub user: Octets,
}

// Formats the AARQ without its password.
impl Debug for Aarq {
    fn fmt<W: fmt::Write>(&self, f: &mut Formatter<W>) -> fmt::Result {
        f.debug_struct("Aarq")
            .field("context", &self.context)
            .field("mechanism", &self.mechanism)
            .field("user", &self.user)
            .finish_non_exhaustive()
    }
}
