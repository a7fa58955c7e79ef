//! The disconnect control (IEC 62056-6-2, class 70): its state and mode, its transitions, and the
//! result of each trigger.
ghost use Rattle.std.specs.Prelude.{◌≡◌, ◌≢◌, ◌↔◌, option_map, IsTrue, IsNone, IfSome};
ghost use Rattle.cosem_names.specs.UnknownNumber.{Finds};
ghost use Rattle.disconnect_control.specs.declared.state.ControlState.TheVariants.{Connected};
ghost use Rattle.disconnect_control.specs.declared.state.ControlMode.TheVariants.{Mode0};
ghost use Rattle.disconnect_control.specs.Transitions.{allowed_transition, is_target, is_state, result_of, state_number, mode_number, mode_of};
ghost use Rattle.disconnect_control.specs.Control.{Control, control_after, is_mode_fit, with_mode};
ghost use Rattle.disconnect_control.specs.Control.{mode_result};

use crate::state::{ControlMode, ControlState, Trigger};
use cosem_names::{ResultCode, UnknownNumber};
use std::marker::Model;

/// The supply switch: its state and its mode (IEC 62056-6-2, class 70). In mode 0 it is always
/// Connected.
#[derive(Clone, Copy, Debug, PartialEq, Eq)]
pub struct DisconnectControl {
    state: ControlState,
    mode: ControlMode,
}

impl Model for DisconnectControl {
    ghost Value = { Control };

    ghost view = { λ s. record { state = s.state; mode = s.mode } };

    ghost invariant = { λ s. s.mode ≡ Mode0 → s.state ≡ Connected };

    ghost inverse = { λ c. record { state = c.state; mode = c.mode } };
}

/// Returns the number of the state, 0 to 2, as control_state (attribute 3) shows it.
impl From<ControlState> for u8 {
    ghost from_gives = { λ state number. number ≡ state_number state };

    fn from(state: ControlState) -> u8 {
        state as u8
    }
}

/// Returns the number of the mode, 0 to 6, as control_mode (attribute 4) shows it.
impl From<ControlMode> for u8 {
    ghost from_gives = { λ mode number. number ≡ mode_number mode };

    fn from(mode: ControlMode) -> u8 {
        mode as u8
    }
}

/// Returns the mode of a number. Fails if the number is above 6.
impl TryFrom<u8> for ControlMode {
    type Error = UnknownNumber;

    ghost try_from_gives = { Finds mode_of };

    fn try_from(number: u8) -> Result<ControlMode, UnknownNumber> {
        Ok(match number {
            0 => ControlMode::Mode0,
            1 => ControlMode::Mode1,
            2 => ControlMode::Mode2,
            3 => ControlMode::Mode3,
            4 => ControlMode::Mode4,
            5 => ControlMode::Mode5,
            6 => ControlMode::Mode6,
            _ => return Err(UnknownNumber(number)),
        })
    }
}

// Returns the state to which the mode's transition leads, or `None` if the mode has no transition
// on this trigger in this state.
#[tactic(auto, unfolding(crate::specs::Transitions::allowed_transition))]
fn next(mode: ControlMode, trigger: Trigger, state: ControlState) -> Option<ControlState>
    ensures { result ≡ option_map (λ row. row.to) (allowed_transition mode trigger state) }
{
    use ControlMode::{Mode0, Mode1, Mode2, Mode3, Mode4, Mode5, Mode6};
    use ControlState::{Connected, Disconnected, ReadyForReconnection};
    use Trigger::{
        LocalDisconnect, LocalReconnect, ManualDisconnect, ManualReconnect, RemoteDisconnect,
        RemoteReconnect,
    };

    match (mode, trigger, state) {
        (Mode0, _, _) => None,
        (_, RemoteDisconnect, Connected | ReadyForReconnection) => Some(Disconnected),
        (Mode2 | Mode4, RemoteReconnect, Disconnected) => Some(Connected),
        (_, RemoteReconnect, Disconnected) => Some(ReadyForReconnection),
        (_, ManualReconnect, ReadyForReconnection) => Some(Connected),
        (Mode1 | Mode2 | Mode5, ManualDisconnect, Connected) => Some(ReadyForReconnection),
        (_, LocalDisconnect, Connected) => Some(ReadyForReconnection),
        (Mode5 | Mode6, LocalReconnect, ReadyForReconnection) => Some(Connected),
        _ => None,
    }
}

// Returns whether the state is already what the trigger asks for.
fn is_done(mode: ControlMode, trigger: Trigger, state: ControlState) -> bool
    ensures { result ≡ is_target mode trigger state }
{
    use ControlMode::{Mode0, Mode2, Mode4};
    use ControlState::{Connected, Disconnected, ReadyForReconnection};

    match trigger {
        Trigger::RemoteDisconnect => state == Disconnected,
        Trigger::RemoteReconnect => match state {
            Connected => true,
            Disconnected => false,
            ReadyForReconnection => !matches!(mode, Mode0 | Mode2 | Mode4),
        },
        Trigger::ManualDisconnect | Trigger::LocalDisconnect => state != Connected,
        Trigger::ManualReconnect | Trigger::LocalReconnect => state == Connected,
    }
}

impl DisconnectControl {
    /// Returns the switch of a new meter: Connected, in mode 0.
    pub fn new() -> DisconnectControl
        ensures { result ≡ record { state = Connected; mode = Mode0 } }
    {
        DisconnectControl {
            state: ControlState::Connected,
            mode: ControlMode::Mode0,
        }
    }

    /// Returns a switch in a given state and mode, or `None` if the mode is 0 and the state is not
    /// Connected.
    pub fn of(state: ControlState, mode: ControlMode) -> Option<DisconnectControl>
        ensures none { IsNone result ↔ ((mode ≡ Mode0) × (state ≢ Connected)) }
        ensures control { IfSome result
            (λ control. control ≡ record { state = state; mode = mode }) }
    {
        if mode == ControlMode::Mode0 && state != ControlState::Connected {
            return None;
        }
        Some(DisconnectControl { state, mode })
    }

    /// Returns control_state (attribute 3).
    pub fn state(&self) -> ControlState
        ensures { result ≡ self.now.state }
    {
        self.state
    }

    /// Returns control_mode (attribute 4). In mode 0 the switch is Connected.
    pub fn mode(&self) -> ControlMode
        ensures mode { result ≡ self.now.mode }
        ensures fit { self.now.mode ≡ Mode0 → self.now.state ≡ Connected }
    {
        self.mode
    }

    /// Returns output_state (attribute 2): whether the supply is on. It is on only in Connected.
    pub fn output(&self) -> bool
        ensures state { result ≡ is_state self.now.state Connected }
        ensures connected { IsTrue result ↔ (self.now.state ≡ Connected) }
    {
        self.state == ControlState::Connected
    }

    /// Acts on a trigger: follows the mode's transition, if it has one in this state.
    ///
    /// Returns `Success` if there is a transition or the state is already what the trigger asks
    /// for, else `TemporaryFailure`. Without a transition nothing changes.
    #[tactic(auto, unfolding(crate::specs::Transitions::allowed_transition, crate::specs::Transitions::control_state_after, crate::specs::Transitions::result_of))]
    pub fn apply(&mut self, trigger: Trigger) -> ResultCode
        ensures control { self.new ≡ control_after trigger self.old }
        ensures code { result ≡ result_of self.old.mode trigger self.old.state }
    {
        match next(self.mode, trigger, self.state) {
            Some(state) => {
                self.state = state;
                ResultCode::Success
            }
            None if is_done(self.mode, trigger, self.state) => ResultCode::Success,
            None => ResultCode::TemporaryFailure,
        }
    }

    /// Writes control_mode (attribute 4). Outside Connected mode 0 is refused with
    /// `TemporaryFailure`, and nothing changes.
    #[tactic(auto, unfolding(crate::specs::Control::is_mode_fit, crate::specs::Control::with_mode, crate::specs::Control::mode_result))]
    pub fn set_mode(&mut self, mode: ControlMode) -> ResultCode
        ensures control { self.new ≡ with_mode mode self.old }
        ensures code { result ≡ mode_result mode self.old }
    {
        if mode == ControlMode::Mode0 && self.state != ControlState::Connected {
            return ResultCode::TemporaryFailure;
        }
        self.mode = mode;
        ResultCode::Success
    }
}
