//! The tags of the xDLMS APDUs: the first byte of each (IEC 62056-5-3, xDLMS APDU).

/// The tag of a Get-Request (IEC 62056-5-3, `get-request [192]`).
pub const GET_REQUEST: u8 = 0xC0;
/// The tag of a Set-Request (IEC 62056-5-3, `set-request [193]`).
pub const SET_REQUEST: u8 = 0xC1;
/// The tag of an Action-Request (IEC 62056-5-3, `action-request [195]`).
pub const ACTION_REQUEST: u8 = 0xC3;
/// The tag of a Get-Response (IEC 62056-5-3, `get-response [196]`).
pub const GET_RESPONSE: u8 = 0xC4;
/// The tag of a Set-Response (IEC 62056-5-3, `set-response [197]`).
pub const SET_RESPONSE: u8 = 0xC5;
/// The tag of an Action-Response (IEC 62056-5-3, `action-response [199]`).
pub const ACTION_RESPONSE: u8 = 0xC7;
/// The tag of an ExceptionResponse (IEC 62056-5-3, `exception-response [216]`).
pub const EXCEPTION_RESPONSE: u8 = 0xD8;
