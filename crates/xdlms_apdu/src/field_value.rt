//! The values of single bytes of an APDU (IEC 62056-5-3).

// Marks an optional part as absent.
pub(crate) const ABSENT: u8 = 0;
// Marks an optional part as present. A reader accepts any value but 0.
pub(crate) const PRESENT: u8 = 1;

// The state-error values of an ExceptionResponse.
pub(crate) mod state_error {
    // service-not-allowed: the service is known, but it is refused.
    pub(crate) const SERVICE_NOT_ALLOWED: u8 = 1;

    // service-unknown: the service is not known.
    pub(crate) const SERVICE_UNKNOWN: u8 = 2;
}

// The service-error values of an ExceptionResponse.
pub(crate) mod service_error {
    // operation-not-possible: the service is not available here or now.
    pub(crate) const OPERATION_NOT_POSSIBLE: u8 = 1;

    // service-not-supported: the service is not known.
    pub(crate) const SERVICE_NOT_SUPPORTED: u8 = 2;

    // other-reason: this meter returns it if the bytes of a service cannot be read.
    pub(crate) const OTHER_REASON: u8 = 3;
}
