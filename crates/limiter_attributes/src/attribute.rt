//! Attributes 2 to 11 of a limiter (IEC 62056-6-2, class 71) and their numbers.
ghost use Rattle.std.specs.Prelude.{◌≡◌, Some, IfSome, IfOk};
ghost use Rattle.cosem_names.specs.UnknownNumber.{Finds};
ghost use Rattle.limiter_attributes.specs.Attributes.{number_of, attribute_numbered};

use cosem_names::UnknownNumber;

/// The attributes of a limiter after its logical name, each with its number (IEC 62056-6-2, class
/// 71).
#[derive(Clone, Copy, Debug, PartialEq, Eq)]
pub enum LimiterAttribute {
    /// Attribute 2, monitored_value: which attribute of which object is monitored.
    MonitoredValue = 2,
    /// Attribute 3, threshold_active, in watts: the one of the next two that is active.
    ThresholdActive = 3,
    /// Attribute 4, threshold_normal, in watts.
    ThresholdNormal = 4,
    /// Attribute 5, threshold_emergency, in watts.
    ThresholdEmergency = 5,
    /// Attribute 6, min_over_threshold_duration, in seconds.
    MinOverThresholdDuration = 6,
    /// Attribute 7, min_under_threshold_duration, in seconds.
    MinUnderThresholdDuration = 7,
    /// Attribute 8, emergency_profile: its group id, its start and its duration in seconds.
    EmergencyProfile = 8,
    /// Attribute 9, emergency_profile_group_id_list: the groups whose emergency profiles apply to
    /// the meter.
    EmergencyProfileGroupIdList = 9,
    /// Attribute 10, emergency_profile_active: whether threshold_emergency is the active threshold.
    EmergencyProfileActive = 10,
    /// Attribute 11, actions: the scripts that run over and under the threshold.
    Actions = 11,
}

// The attributes of a limiter after its logical name, in the order of their numbers.
pub(crate) const ATTRIBUTES: [LimiterAttribute; 10] = [
    LimiterAttribute::MonitoredValue,
    LimiterAttribute::ThresholdActive,
    LimiterAttribute::ThresholdNormal,
    LimiterAttribute::ThresholdEmergency,
    LimiterAttribute::MinOverThresholdDuration,
    LimiterAttribute::MinUnderThresholdDuration,
    LimiterAttribute::EmergencyProfile,
    LimiterAttribute::EmergencyProfileGroupIdList,
    LimiterAttribute::EmergencyProfileActive,
    LimiterAttribute::Actions,
];

/// Returns the number of the attribute, 2 to 11.
impl From<LimiterAttribute> for u8 {
    ghost from_gives = { λ attribute number. (number ≡ number_of attribute)
        × (attribute_numbered number ≡ Some attribute) };

    #[tactic(auto, unfolding(crate::specs::Attributes::attribute_numbered))]
    fn from(attribute: LimiterAttribute) -> u8 {
        attribute as u8
    }
}

// Finds the attribute of a number: `None` if the number is not 2 to 11.
#[tactic(auto, unfolding(crate::specs::Attributes::attribute_numbered))]
fn find_attribute(number: u8) -> Option<LimiterAttribute>
    ensures value { result ≡ attribute_numbered number }
    ensures number { IfSome result (λ attribute. number_of attribute ≡ number) }
{
    ATTRIBUTES
        .iter()
        .copied()
        .find(|attribute| u8::from(*attribute) == number)
}

/// Returns the attribute of a number. Fails if the number is not 2 to 11.
impl TryFrom<u8> for LimiterAttribute {
    type Error = UnknownNumber;

    ghost try_from_gives = { λ number result. Finds attribute_numbered number result
        × IfOk result (λ attribute. number_of attribute ≡ number) };

    fn try_from(number: u8) -> Result<LimiterAttribute, UnknownNumber> {
        find_attribute(number).ok_or(UnknownNumber(number))
    }
}
