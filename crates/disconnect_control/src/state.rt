//! The states, modes and triggers of the disconnect control (IEC 62056-6-2, class 70).

/// The state of the switch: control_state, attribute 3 (IEC 62056-6-2, class 70).
#[derive(Clone, Copy, Debug, PartialEq, Eq)]
pub enum ControlState {
    /// 0, Disconnected: the supply is off, and only a remote reconnection changes the state.
    Disconnected = 0,
    /// 1, Connected: the supply is on.
    Connected = 1,
    /// 2, Ready for reconnection: the supply is off, and a manual reconnection (the meter's button)
    /// restores it; in modes 5 and 6 a local reconnection does too.
    ReadyForReconnection = 2,
}

/// Which triggers the switch obeys: control_mode, attribute 4 (IEC 62056-6-2, class 70). Each mode
/// lists the disconnections and reconnections that it allows; the others do nothing.
///
/// A remote disconnection leads to Disconnected, manual and local ones to Ready for reconnection. A
/// remote reconnection acts in Disconnected, manual and local ones in Ready for reconnection.
#[derive(Clone, Copy, Debug, PartialEq, Eq)]
pub enum ControlMode {
    /// No disconnection and no reconnection: the switch is always Connected.
    Mode0 = 0,
    /// Disconnection: remote, manual, local. Reconnection: remote (to Ready for reconnection),
    /// manual.
    Mode1 = 1,
    /// Disconnection: remote, manual, local. Reconnection: remote (to Connected), manual.
    Mode2 = 2,
    /// Disconnection: remote, local. Reconnection: remote (to Ready for reconnection), manual.
    Mode3 = 3,
    /// Disconnection: remote, local. Reconnection: remote (to Connected), manual.
    Mode4 = 4,
    /// Disconnection: remote, manual, local. Reconnection: remote (to Ready for reconnection),
    /// manual, local.
    Mode5 = 5,
    /// Disconnection: remote, local. Reconnection: remote (to Ready for reconnection), manual,
    /// local.
    Mode6 = 6,
}

/// A request to disconnect or reconnect the supply: from a client or a schedule (remote), from a
/// person at the meter's button (manual), or from a limiter (local).
#[derive(Clone, Copy, Debug, PartialEq, Eq)]
pub enum Trigger {
    /// A client disconnects: method 1, remote_disconnect, or a script that a client executes or a
    /// schedule runs.
    RemoteDisconnect,
    /// A client allows the reconnection, or in modes 2 and 4 reconnects: method 2,
    /// remote_reconnect, or a script that a client executes or a schedule runs.
    RemoteReconnect,
    /// A person disconnects: a press of the meter's button in Connected.
    ManualDisconnect,
    /// A person reconnects: a press of the meter's button in any other state.
    ManualReconnect,
    /// The meter disconnects: a script that a limiter runs.
    LocalDisconnect,
    /// The meter reconnects: a script that a limiter runs.
    LocalReconnect,
}
