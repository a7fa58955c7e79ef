//! The object identifiers of DLMS (DLMS UA Green Book, application context names and authentication
//! mechanism names).

// The application context of logical names without ciphering.
pub(crate) const LN_WITHOUT_CIPHERING: [u8; 7] = [0x60, 0x85, 0x74, 0x05, 0x08, 0x01, 0x01];

// The mechanism of lowest-level security, that is, no authentication.
pub(crate) const LOWEST_LEVEL_SECURITY: [u8; 7] = [0x60, 0x85, 0x74, 0x05, 0x08, 0x02, 0x00];

// The mechanism of low-level security: a password.
pub(crate) const LOW_LEVEL_SECURITY: [u8; 7] = [0x60, 0x85, 0x74, 0x05, 0x08, 0x02, 0x01];
