//! The supply switch (IEC 62056-6-2, class 70). tests/core_rows.py plays its modes, transitions and
//! attributes over the proved executable.
use cosem_names::ResultCode;
use disconnect_control::{ControlMode, ControlState, DisconnectControl, Trigger};

/// A trigger, the switch's state after it, the state's number, and whether the supply is on.
type Step = (Trigger, ControlState, u8, bool);

/// A remote disconnection, sent twice, and the reconnection by a client and by the button. Each
/// trigger succeeds.
static RELEASED_AND_RESTORED: [Step; 4] = [
    (
        Trigger::RemoteDisconnect,
        ControlState::Disconnected,
        0,
        false,
    ),
    (
        Trigger::RemoteDisconnect,
        ControlState::Disconnected,
        0,
        false,
    ),
    (
        Trigger::RemoteReconnect,
        ControlState::ReadyForReconnection,
        2,
        false,
    ),
    (Trigger::ManualReconnect, ControlState::Connected, 1, true),
];

#[test]
fn in_mode_1_a_person_restores_what_a_client_released(rt: HostRuntime) {
    let mut control = DisconnectControl::new();
    assert!(rt; control.set_mode(ControlMode::Mode1) == ResultCode::Success);
    for (trigger, state, number, output) in &RELEASED_AND_RESTORED {
        let given = control.apply(*trigger);
        assert!(rt;
            given == ResultCode::Success
                && control.state() == *state
                && u8::from(*state) == *number
                && control.output() == *output,
            "{trigger:?}"
        );
    }
    let expected = DisconnectControl::of(ControlState::Connected, ControlMode::Mode1);
    assert!(rt; expected == Some(control) && control.mode() == ControlMode::Mode1);
}
