//! The thirteen steps that scripts may have, and the service, object and attribute or method of
//! each (IEC 62056-6-2, class 9).
ghost use Rattle.std.specs.Prelude.{◌≡◌};
ghost use Rattle.script_steps.specs.Addresses.{attribute_of, method_of, limiter_attribute_of, address_of, action_at, action_of};

use crate::names::{
    CONTROL_MODE, EMERGENCY_PROFILE, EXECUTE_METHOD, MIN_OVER_THRESHOLD_DURATION,
    MIN_UNDER_THRESHOLD_DURATION, REMOTE_DISCONNECT, REMOTE_RECONNECT, THRESHOLD_EMERGENCY,
    THRESHOLD_NORMAL, WRITE_ATTRIBUTE,
};
use crate::step::Step;
use cosem_names::{ClassId, Obis, Which, class, logical_name};

// The target of a step as the script table names it: the service, and the attribute or method.
#[derive(Clone, Copy, Debug, PartialEq, Eq)]
pub(crate) struct Address {
    pub(crate) service: u8,
    pub(crate) class: ClassId,
    pub(crate) name: Obis,
    pub(crate) index: i8,
}

// A listed step without the value that it writes.
#[derive(Clone, Copy, Debug, PartialEq, Eq)]
pub(crate) enum Action {
    // Writes control_mode (class 70, attribute 4).
    Mode,
    // Writes threshold_normal (class 71, attribute 4) of a limiter.
    Normal(Which),
    // Writes threshold_emergency (class 71, attribute 5) of a limiter.
    Emergency(Which),
    // Writes min_over_threshold_duration (class 71, attribute 6) of a limiter.
    MinOver(Which),
    // Writes min_under_threshold_duration (class 71, attribute 7) of a limiter.
    MinUnder(Which),
    // Writes emergency_profile (class 71, attribute 8) of a limiter.
    Profile(Which),
    // Executes remote_disconnect (class 70, method 1).
    Disconnect,
    // Executes remote_reconnect (class 70, method 2).
    Reconnect,
}

// The actions of the listed steps.
pub(crate) const ACTIONS: [Action; 13] = [
    Action::Mode,
    Action::Normal(Which::Import),
    Action::Emergency(Which::Import),
    Action::MinOver(Which::Import),
    Action::MinUnder(Which::Import),
    Action::Profile(Which::Import),
    Action::Normal(Which::Export),
    Action::Emergency(Which::Export),
    Action::MinOver(Which::Export),
    Action::MinUnder(Which::Export),
    Action::Profile(Which::Export),
    Action::Disconnect,
    Action::Reconnect,
];

// Returns the address of a write to an attribute of the disconnect control.
fn attribute(index: i8) -> Address
    ensures { result ≡ attribute_of index }
{
    Address {
        service: WRITE_ATTRIBUTE,
        class: class::DISCONNECT_CONTROL,
        name: logical_name::DISCONNECT_CONTROL,
        index,
    }
}

// Returns the address of a method of the disconnect control.
fn method(index: i8) -> Address
    ensures { result ≡ method_of index }
{
    Address {
        service: EXECUTE_METHOD,
        class: class::DISCONNECT_CONTROL,
        name: logical_name::DISCONNECT_CONTROL,
        index,
    }
}

// Returns the address of a write to an attribute of a limiter.
fn limiter_attribute(which: Which, index: i8) -> Address
    ensures { result ≡ limiter_attribute_of which index }
{
    let name = match which {
        Which::Import => logical_name::IMPORT_LIMITER,
        Which::Export => logical_name::EXPORT_LIMITER,
    };
    Address {
        service: WRITE_ATTRIBUTE,
        class: class::LIMITER,
        name,
        index,
    }
}

impl Action {
    // Returns the address that a step of this action names.
    pub(crate) fn address(self) -> Address
        ensures { result ≡ address_of self }
    {
        match self {
            Action::Mode => attribute(CONTROL_MODE),
            Action::Normal(which) => limiter_attribute(which, THRESHOLD_NORMAL),
            Action::Emergency(which) => limiter_attribute(which, THRESHOLD_EMERGENCY),
            Action::MinOver(which) => limiter_attribute(which, MIN_OVER_THRESHOLD_DURATION),
            Action::MinUnder(which) => limiter_attribute(which, MIN_UNDER_THRESHOLD_DURATION),
            Action::Profile(which) => limiter_attribute(which, EMERGENCY_PROFILE),
            Action::Disconnect => method(REMOTE_DISCONNECT),
            Action::Reconnect => method(REMOTE_RECONNECT),
        }
    }

    // Returns the action of the listed step that names this address, or `None` if no listed step
    // does.
    #[tactic(auto, unfolding(crate::specs::Addresses::action_at))]
    pub(crate) fn at(address: Address) -> Option<Action>
        ensures { result ≡ action_at address }
    {
        ACTIONS
            .iter()
            .copied()
            .find(|action| action.address() == address)
    }
}

impl Step {
    // Returns the step without the value that it writes.
    pub(crate) fn action(&self) -> Action
        ensures { result ≡ action_of self.now }
    {
        match self {
            Step::WriteMode(_) => Action::Mode,
            Step::WriteNormal(which, _) => Action::Normal(*which),
            Step::WriteEmergency(which, _) => Action::Emergency(*which),
            Step::WriteMinOver(which, _) => Action::MinOver(*which),
            Step::WriteMinUnder(which, _) => Action::MinUnder(*which),
            Step::WriteProfile(which, _) => Action::Profile(*which),
            Step::Disconnect => Action::Disconnect,
            Step::Reconnect => Action::Reconnect,
        }
    }
}
