//! Takes the parts of an emergency profile and of the actions from Data (IEC 62056-6-2, class 71).
ghost use Rattle.std.specs.Prelude.{◌≡◌, option_map};
ghost use Rattle.limiter_attributes.specs.Forms.{profile_parts_of, scripts_of};

use cosem_axdr::Data;
use cosem_names::{NamedScript, date_time_bytes};

// Returns the id, the bytes of the start and the duration of an emergency profile:
// {emergency_profile_id, emergency_activation_time, emergency_duration}. Returns `None` if a type
// differs.
pub(crate) fn profile_parts(value: &Data) -> Option<(u16, &[u8], u32)>
    ensures { option_map (λ parts. (parts.0, parts.1.now, parts.2)) result
        ≡ profile_parts_of value.now }
{
    let [id, start, duration] = value.structure()? else {
        return None;
    };
    Some((
        id.long_unsigned()?,
        date_time_bytes(start)?,
        duration.double_long_unsigned()?,
    ))
}

// Returns the scripts of both actions: {action_over_threshold, action_under_threshold}. Returns
// `None` if a type differs.
pub(crate) fn scripts_in(value: &Data) -> Option<(NamedScript, NamedScript)>
    ensures { result ≡ scripts_of value.now }
{
    let [over, under] = value.structure()? else {
        return None;
    };
    Some((
        NamedScript::from_data(over)?,
        NamedScript::from_data(under)?,
    ))
}
