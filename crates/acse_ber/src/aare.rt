//! The AARE, the response to an association request (IEC 62056-5-3), as a value: result, diagnostic
//! and user information.

/// The association result accepted.
pub const ACCEPTED: u8 = 0;

/// The association result rejected-permanent.
pub const REJECTED_PERMANENT: u8 = 1;

/// The response to an association request (IEC 62056-5-3, AARE).
#[derive(Clone, Copy, Debug, PartialEq, Eq)]
pub struct Aare {
    /// The association result: [`ACCEPTED`], or a value that rejects.
    pub result: u8,
    /// The diagnostic, of the ACSE service user or service provider.
    pub diagnostic: u8,
    /// The user information.
    pub info: Info,
}

/// The user information of an AARE.
#[derive(Clone, Copy, Debug, PartialEq, Eq)]
pub enum Info {
    /// No user information, or user information of an unknown kind.
    Absent,
    /// An InitiateResponse: the negotiated conformance (24 bits, bit 0 being the highest) and the
    /// maximum APDU size that the meter receives, in bytes.
    Response { bits: u32, limit: u16 },
    /// A ConfirmedServiceError of Initiate, with its number.
    InitiateError(u8),
}
