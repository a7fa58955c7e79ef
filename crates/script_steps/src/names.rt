//! The numbers of the services, attributes and methods that steps name.

// The service_id of a step that writes an attribute (IEC 62056-6-2, class 9, scripts).
pub(crate) const WRITE_ATTRIBUTE: u8 = 1;
// The service_id of a step that executes a method (IEC 62056-6-2, class 9, scripts).
pub(crate) const EXECUTE_METHOD: u8 = 2;

// Disconnect control, method 1, remote_disconnect.
pub(crate) const REMOTE_DISCONNECT: i8 = 1;
// Disconnect control, method 2, remote_reconnect.
pub(crate) const REMOTE_RECONNECT: i8 = 2;
// Disconnect control, attribute 4, control_mode.
pub(crate) const CONTROL_MODE: i8 = 4;

// Limiter, attribute 4, threshold_normal.
pub(crate) const THRESHOLD_NORMAL: i8 = 4;
// Limiter, attribute 5, threshold_emergency.
pub(crate) const THRESHOLD_EMERGENCY: i8 = 5;
// Limiter, attribute 6, min_over_threshold_duration.
pub(crate) const MIN_OVER_THRESHOLD_DURATION: i8 = 6;
// Limiter, attribute 7, min_under_threshold_duration.
pub(crate) const MIN_UNDER_THRESHOLD_DURATION: i8 = 7;
// Limiter, attribute 8, emergency_profile.
pub(crate) const EMERGENCY_PROFILE: i8 = 8;
