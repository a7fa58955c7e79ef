//! The diagnostics of the ACSE service user (IEC 62056-5-3, AARE, acse-service-user).

/// null: the association is accepted.
pub const NULL: u8 = 0;

/// no-reason-given: the port is that of no client, or the user information is not an
/// InitiateRequest without a dedicated key.
pub const NO_REASON_GIVEN: u8 = 1;

/// application-context-name-not-supported: the context is not logical names without ciphering.
pub const APPLICATION_CONTEXT_NAME_NOT_SUPPORTED: u8 = 2;

/// authentication-mechanism-name-not-recognised: the mechanism is neither that of lowest-level nor
/// that of low-level security.
pub const AUTHENTICATION_MECHANISM_NAME_NOT_RECOGNISED: u8 = 11;

/// authentication-failure: the management client's password is missing or wrong.
pub const AUTHENTICATION_FAILURE: u8 = 13;

/// authentication-required: the management client names no mechanism, or lowest-level security.
pub const AUTHENTICATION_REQUIRED: u8 = 14;
