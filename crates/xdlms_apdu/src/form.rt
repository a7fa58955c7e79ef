//! The forms of requests and responses: the second byte of each APDU (IEC 62056-5-3).

/// The normal form of every request and response: one attribute or method, without block transfer.
pub const NORMAL: u8 = 1;

/// The other forms of a Get-Request (IEC 62056-5-3, Get-Request).
pub mod get_request {
    /// Get-Request-Next: the next block of a response.
    pub const NEXT: u8 = 2;
    /// Get-Request-With-List: several attributes.
    pub const WITH_LIST: u8 = 3;
}

/// The other forms of a Set-Request (IEC 62056-5-3, Set-Request).
pub mod set_request {
    /// Set-Request-With-First-Datablock: the attribute and the first block of its value.
    pub const WITH_FIRST_DATABLOCK: u8 = 2;
    /// Set-Request-With-Datablock: a further block of the value.
    pub const WITH_DATABLOCK: u8 = 3;
}

/// The other forms of an Action-Request (IEC 62056-5-3, Action-Request).
pub mod action_request {
    /// Action-Request-With-First-Pblock: the method and the first block of its parameter.
    pub const WITH_FIRST_PBLOCK: u8 = 4;
    /// Action-Request-With-Pblock: a further block of the parameter.
    pub const WITH_PBLOCK: u8 = 6;
}

/// The other forms of a Get-Response (IEC 62056-5-3, Get-Response).
pub mod get_response {
    /// Get-Response-With-Datablock: a block of the response.
    pub const WITH_DATABLOCK: u8 = 2;
    /// Get-Response-With-List: a result for each attribute.
    pub const WITH_LIST: u8 = 3;
}

/// The other forms of a Set-Response (IEC 62056-5-3, Set-Response).
pub mod set_response {
    /// Set-Response-Datablock: acknowledges a block that is not the last.
    pub const DATABLOCK: u8 = 2;
    /// Set-Response-Last-Datablock: acknowledges the last block, with the result.
    pub const LAST_DATABLOCK: u8 = 3;
}

/// The other forms of an Action-Response (IEC 62056-5-3, Action-Response).
pub mod action_response {
    /// Action-Response-Next-Pblock: acknowledges a block of the parameter.
    pub const NEXT_PBLOCK: u8 = 4;
}
