//! The tags of APDUs, of their fields and of the contents of these (IEC 62056-5-3, ACSE APDUs in
//! BER).

/// The tag of an AARQ, [APPLICATION 0]: the association request.
pub const AARQ: u8 = 0x60;

// The tag of an AARE, [APPLICATION 1]: the response to an AARQ.
pub(crate) const AARE: u8 = 0x61;

/// The tag of an RLRQ, [APPLICATION 2]: the request to release the association.
pub const RLRQ: u8 = 0x62;

// The lowest tag of a field of an APDU; the tags of fields are context-specific.
pub(crate) const FIRST_FIELD: u8 = 0x80;

// The highest tag of a field of an APDU, the last of the context-specific tags.
pub(crate) const LAST_FIELD: u8 = 0xBF;

// The tag of application-context-name, field [1] of an AARQ and an AARE.
pub(crate) const APPLICATION_CONTEXT_NAME: u8 = 0xA1;

// The tag of user-information, field [30] of an AARQ and an AARE.
pub(crate) const USER_INFORMATION: u8 = 0xBE;

// The fields of an AARQ.
pub(crate) mod aarq {
    // The tag of sender-acse-requirements, field [10] of an AARQ.
    pub(crate) const SENDER_ACSE_REQUIREMENTS: u8 = 0x8A;

    // The tag of mechanism-name, field [11] of an AARQ: the authentication mechanism.
    pub(crate) const MECHANISM_NAME: u8 = 0x8B;

    // The tag of calling-authentication-value, field [12] of an AARQ: the password.
    pub(crate) const CALLING_AUTHENTICATION_VALUE: u8 = 0xAC;
}

// The fields of an AARE.
pub(crate) mod aare {
    // The tag of result, field [2] of an AARE: 0 if the association is accepted.
    pub(crate) const RESULT: u8 = 0xA2;

    // The tag of result-source-diagnostic, field [3] of an AARE: the reason of a refusal.
    pub(crate) const RESULT_SOURCE_DIAGNOSTIC: u8 = 0xA3;
}

// The tag of the universal type INTEGER, for the contents of a field.
pub(crate) const INTEGER: u8 = 0x02;

// The tag of the universal type OCTET STRING, which holds user information.
pub(crate) const OCTET_STRING: u8 = 0x04;

// The tag of the universal type OBJECT IDENTIFIER, which holds an application context name.
pub(crate) const OBJECT_IDENTIFIER: u8 = 0x06;

// The tag of charstring, choice [0] of an authentication value: the characters of a password.
pub(crate) const CHARSTRING: u8 = 0x80;

// The tag of acse-service-user, choice [1] of a diagnostic: its source is the application of the
// meter.
pub(crate) const SERVICE_USER: u8 = 0xA1;

// The tag of acse-service-provider, choice [2] of a diagnostic: its source is the ACSE itself.
pub(crate) const SERVICE_PROVIDER: u8 = 0xA2;
