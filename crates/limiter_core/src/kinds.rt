//! The comparison of a sample with the active threshold, and the action of the limiter that a
//! sample fires (IEC 62056-6-2, class 71).

/// The action that a sample fires, if any.
#[derive(Clone, Copy, Debug, PartialEq, Eq)]
pub enum Fire {
    /// No action: no run reaches its need with this sample, or it has fired already.
    Quiet,
    /// `action_over_threshold`: the value has been over the threshold for
    /// `min_over_threshold_duration`.
    Over,
    /// `action_under_threshold`: the value has been under the threshold for
    /// `min_under_threshold_duration`.
    Under,
}

/// How a sample compares with the active threshold.
#[derive(Clone, Copy, Debug, PartialEq, Eq)]
pub enum Kind {
    /// Greater than the threshold.
    Over,
    /// Less than the threshold.
    Under,
    /// Equal to the threshold, so past it on neither side.
    Equal,
}
