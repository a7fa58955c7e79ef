//! Converts the attributes of a limiter to the Data that a client reads (IEC 62056-6-2, class 71).
ghost use Rattle.std.specs.Prelude.{◌≡◌, ◌≤◌, map, length, Ok, IsOk, IfOk, IsTrue};
ghost use Rattle.cosem_axdr.specs.declared.value.Data.TheVariants.{LongUnsigned};
ghost use Rattle.limiter_attributes.specs.Attributes.{is_plain};
ghost use Rattle.limiter_attributes.specs.declared.attribute.LimiterAttribute.TheVariants.{EmergencyProfileGroupIdList};
ghost use Rattle.limiter_attributes.specs.Reading.{max_groups, profile_of, groups_of, actions_of, setting_of};
ghost use Rattle.limiter_attributes.specs.Settings.{setting_at};
ghost use Rattle.limiter_attributes.specs.Writing.{register_name, monitored_data, profile_data, groups_data, actions_data, data_at};

use crate::attribute::LimiterAttribute;
use cosem_axdr::{Data, Items, Octets};
use cosem_names::class::REGISTER;
use cosem_names::logical_name::{EXPORT_REGISTER, IMPORT_REGISTER};
use cosem_names::{NamedScript, Obis, Which};
use limiter_core::{Actions, Limiter, Profile};
use std::alloc::{AllocError, Global};

// The number of a register's attribute value.
const REGISTER_VALUE: i8 = 2;

// Returns the logical name of the register whose value a limiter monitors.
fn register_name(which: Which) -> Obis
    ensures { result ≡ register_name which }
{
    match which {
        Which::Import => IMPORT_REGISTER,
        Which::Export => EXPORT_REGISTER,
    }
}

// Returns the Data of monitored_value (attribute 2): the class, the logical name and the attribute
// number of the register's value.
#[tactic(auto, unfolding(crate::specs::Writing::monitored_data))]
fn write_monitored(alloc: Global, which: Which) -> Result<Data, AllocError>
    ensures { IfOk result (λ value. value ≡ monitored_data which) }
{
    let name = Octets::from_slice(alloc, &register_name(which).0)?;
    Ok(Data::Structure(Items::from_vec(vec![in alloc;
        Data::LongUnsigned(REGISTER.0),
        Data::OctetString(name),
        Data::Integer(REGISTER_VALUE),
    ]?)))
}

/// Returns emergency_profile (attribute 8 of a limiter, IEC 62056-6-2, class 71) as Data. The start
/// is an octet-string. Fails only if out of memory.
#[tactic(auto, using(crate::proofs::Again::profile_again))]
pub fn write_profile(alloc: Global, profile: &Profile) -> Result<Data, AllocError>
    ensures value { IfOk result (λ value. value ≡ profile_data profile.now) }
    // Reading the Data returns the profile.
    ensures read_back { IfOk result (λ value. profile_of value ≡ Ok profile.now) }
{
    let start = Octets::from_slice(alloc, &profile.start.bytes())?;
    Ok(Data::Structure(Items::from_vec(vec![in alloc;
        Data::LongUnsigned(profile.id),
        Data::OctetString(start),
        Data::DoubleLongUnsigned(profile.duration),
    ]?)))
}

// Returns each number as a long-unsigned.
fn write_ids(alloc: Global, ids: &[u16]) -> Result<Vec<Data>, AllocError>
    ensures { IfOk result (λ items. items.items ≡ map LongUnsigned ids.now) }
{
    ids.iter().map(|id| Data::LongUnsigned(*id)).collect(alloc)
}

// Returns the Data of emergency_profile_group_id_list (attribute 9): an array of long-unsigned.
#[tactic(auto, unfolding(crate::specs::Writing::groups_data), using(crate::proofs::Again::groups_again))]
fn write_groups(alloc: Global, ids: &[u16]) -> Result<Data, AllocError>
    requires { length ids.now ≤ max_groups }
    ensures value { IfOk result (λ value. value ≡ groups_data ids.now) }
    ensures read_back { IfOk result (λ value. groups_of value ≡ Ok ids.now) }
{
    let items = write_ids(alloc, ids)?;
    Ok(Data::Array(Items::from_vec(items)))
}

// Returns the Data of actions (attribute 11): a structure of two structures, each of a logical name
// and a selector.
#[tactic(auto, unfolding(crate::specs::Writing::actions_data), using(crate::proofs::Again::actions_again))]
fn write_actions(alloc: Global, actions: Actions) -> Result<Data, AllocError>
    ensures value { IfOk result (λ value. value ≡ actions_data actions) }
    ensures read_back { IfOk result (λ value. actions_of value ≡ Ok actions) }
{
    let over = NamedScript::in_the_table(actions.over).to_data(alloc)?;
    let under = NamedScript::in_the_table(actions.under).to_data(alloc)?;
    Ok(Data::Structure(Items::from_vec(vec![in alloc; over, under]?)))
}

/// Returns the value of an attribute of a limiter as Data. The start of an emergency profile is an
/// octet-string. Attributes that are a number or a boolean (3 to 7 and 10) do not allocate; the
/// others fail only if out of memory.
#[tactic(auto, unfolding(crate::specs::Writing::data_at, crate::specs::Reading::setting_of, crate::specs::Reading::number_of))]
pub fn read_attribute(
    alloc: Global,
    which: Which,
    limiter: &Limiter,
    attribute: LimiterAttribute,
) -> Result<Data, AllocError>
    ensures value { IfOk result (λ value. value
        ≡ data_at which attribute limiter.now.settings limiter.now.moment) }
    // Writing the value to the limiter sets what it already has.
    ensures read_back { IfOk result (λ value. setting_of attribute value
        ≡ Ok (setting_at attribute limiter.now.settings)) }
    ensures groups_read_back { attribute ≡ EmergencyProfileGroupIdList
        → IfOk result (λ value. groups_of value ≡ Ok limiter.now.settings.groups) }
    ensures sure { IsTrue (is_plain attribute) → IsOk result }
{
    match attribute {
        LimiterAttribute::MonitoredValue => write_monitored(alloc, which),
        LimiterAttribute::ThresholdActive => Ok(Data::DoubleLongUnsigned(limiter.threshold())),
        LimiterAttribute::ThresholdNormal => {
            Ok(Data::DoubleLongUnsigned(limiter.threshold_normal()))
        }
        LimiterAttribute::ThresholdEmergency => {
            Ok(Data::DoubleLongUnsigned(limiter.threshold_emergency()))
        }
        LimiterAttribute::MinOverThresholdDuration => {
            Ok(Data::DoubleLongUnsigned(limiter.min_over_threshold_duration()))
        }
        LimiterAttribute::MinUnderThresholdDuration => {
            Ok(Data::DoubleLongUnsigned(limiter.min_under_threshold_duration()))
        }
        LimiterAttribute::EmergencyProfile => write_profile(alloc, &limiter.profile()),
        LimiterAttribute::EmergencyProfileGroupIdList => write_groups(alloc, limiter.groups()),
        LimiterAttribute::EmergencyProfileActive => Ok(Data::Boolean(limiter.emergency_active())),
        LimiterAttribute::Actions => write_actions(alloc, limiter.actions()),
    }
}
