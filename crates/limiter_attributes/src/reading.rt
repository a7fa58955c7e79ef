//! Validates and reads the Data that a client writes to thresholds, durations, emergency profile
//! and actions (IEC 62056-6-2, class 71).
ghost use Rattle.std.specs.Prelude.{◌≡◌, IfOk, IsErrOf};
ghost use Rattle.cosem_datetime.specs.Fields.{IsDateTimeFields};
ghost use Rattle.limiter_attributes.specs.Reading.{number_of, profile_of, actions_of, setting_of};

use crate::attribute::LimiterAttribute;
use crate::forms::{profile_parts, scripts_in};
use crate::setting::Setting;
use cosem_axdr::Data;
use cosem_datetime::read_date_time;
use cosem_names::WriteFault;
use limiter_core::{Actions, Profile};

/// Reads a threshold in watts or a duration in seconds from the Data that a client writes to
/// attributes 4 to 7 of a limiter (IEC 62056-6-2, class 71): a double-long-unsigned, else
/// `Unmatched`. Does not allocate.
#[tactic(auto, unfolding(crate::specs::Reading::number_of))]
pub fn read_number(value: &Data) -> Result<u32, WriteFault>
    ensures exact { result ≡ number_of value.now }
    ensures no_memory { ¬ IsErrOf result WriteFault.Memory }
{
    value.double_long_unsigned().ok_or(WriteFault::Unmatched)
}

/// Reads an emergency profile from the Data that a client writes to emergency_profile, attribute 8
/// of a limiter (IEC 62056-6-2, class 71): a structure of a long-unsigned id, an octet-string or
/// date-time start, and a double-long-unsigned duration. Does not allocate.
///
/// Errors, judged in this order: `Unmatched` if a type differs, `Value` if a field of the start is
/// out of its range.
#[tactic(auto, unfolding(crate::specs::Reading::profile_of))]
pub fn read_profile(value: &Data) -> Result<Profile, WriteFault>
    ensures exact { result ≡ profile_of value.now }
    ensures fit { IfOk result (λ profile. IsDateTimeFields profile.start) }
    ensures no_memory { ¬ IsErrOf result WriteFault.Memory }
{
    let (id, start, duration) = profile_parts(value).ok_or(WriteFault::Unmatched)?;
    let start = read_date_time(start).ok().ok_or(WriteFault::Value)?;
    Ok(Profile {
        id,
        start,
        duration,
    })
}

// Reads the selectors of both actions: `Unmatched` if a type differs, then `Value` if an action
// names another script table.
#[tactic(auto, unfolding(crate::specs::Reading::actions_of))]
fn read_actions(value: &Data) -> Result<Actions, WriteFault>
    ensures exact { result ≡ actions_of value.now }
    ensures no_memory { ¬ IsErrOf result WriteFault.Memory }
{
    let (over, under) = scripts_in(value).ok_or(WriteFault::Unmatched)?;
    if !over.is_of_the_table() || !under.is_of_the_table() {
        return Err(WriteFault::Value);
    }
    Ok(Actions {
        over: over.selector,
        under: under.selector,
    })
}

/// Reads the value that a client writes to an attribute. Returns `None` if the attribute cannot be
/// written, and for emergency_profile_group_id_list, which `read_groups` reads because it
/// allocates. This function does not allocate.
///
/// Thresholds and durations are double-long-unsigned. An emergency profile is a structure of a
/// long-unsigned id, an octet-string or date-time start, and a double-long-unsigned duration.
/// Actions are a structure of two structures, each of the script table's logical name and a
/// long-unsigned selector.
///
/// Errors, judged in this order: `Unmatched` if a type differs anywhere, `Value` if a field of an
/// emergency profile's start is out of its range or an action names another script table.
#[tactic(auto, unfolding(crate::specs::Reading::setting_of))]
pub fn read_setting(
    attribute: LimiterAttribute,
    value: &Data,
) -> Result<Option<Setting>, WriteFault>
    ensures exact { result ≡ setting_of attribute value.now }
    ensures no_memory { ¬ IsErrOf result WriteFault.Memory }
{
    Ok(Some(match attribute {
        LimiterAttribute::ThresholdNormal => Setting::ThresholdNormal(read_number(value)?),
        LimiterAttribute::ThresholdEmergency => Setting::ThresholdEmergency(read_number(value)?),
        LimiterAttribute::MinOverThresholdDuration => Setting::MinOverThresholdDuration(read_number(
            value,
        )?),
        LimiterAttribute::MinUnderThresholdDuration => {
            Setting::MinUnderThresholdDuration(read_number(value)?)
        }
        LimiterAttribute::EmergencyProfile => Setting::Profile(read_profile(value)?),
        LimiterAttribute::Actions => Setting::Actions(read_actions(value)?),
        LimiterAttribute::MonitoredValue
        | LimiterAttribute::ThresholdActive
        | LimiterAttribute::EmergencyProfileGroupIdList
        | LimiterAttribute::EmergencyProfileActive => return Ok(None),
    }))
}
