//! A script and its steps as values: each writes an attribute or executes a method (IEC 62056-6-2,
//! class 9).
use cosem_names::Which;
use disconnect_control::ControlMode;
use limiter_core::Profile;
use wire_bytes::Listed;

/// A step of a script: an attribute with the value to write, or a method to execute (IEC 62056-6-2,
/// class 9, scripts).
#[derive(Clone, Copy, Debug)]
pub enum Step {
    /// Writes `control_mode` of the disconnect control (class 70, attribute 4).
    WriteMode(ControlMode),
    /// Writes `threshold_normal` of a limiter (class 71, attribute 4), in watts.
    WriteNormal(Which, u32),
    /// Writes `threshold_emergency` of a limiter (class 71, attribute 5), in watts.
    WriteEmergency(Which, u32),
    /// Writes `min_over_threshold_duration` of a limiter (class 71, attribute 6), in seconds.
    WriteMinOver(Which, u32),
    /// Writes `min_under_threshold_duration` of a limiter (class 71, attribute 7), in seconds.
    WriteMinUnder(Which, u32),
    /// Writes `emergency_profile` of a limiter (class 71, attribute 8).
    WriteProfile(Which, Profile),
    /// Executes `remote_disconnect` of the disconnect control (class 70, method 1).
    Disconnect,
    /// Executes `remote_reconnect` of the disconnect control (class 70, method 2).
    Reconnect,
}

/// A script: its identifier, and its steps in order.
#[derive(Debug, Drop)]
pub struct Script {
    /// `script_identifier`, by which the script is selected: not 0.
    pub identifier: u16,
    /// The steps, in the order in which they run: at most `MAX_STEPS`.
    pub steps: Listed<Step>,
}
