//! Takes the parts of a script and of a step from Data (IEC 62056-6-2, class 9, scripts).
ghost use Rattle.std.specs.Prelude.{◌≡◌, option_map};
ghost use Rattle.script_steps.specs.Forms.{step_parts_of, script_parts_of, identifier_of};

use crate::action::Address;
use cosem_axdr::Data;
use cosem_names::{ClassId, name_in};

// Returns a step's address and its parameter: {service_id, class_id, logical_name, index,
// parameter}. Returns `None` if a type differs.
pub(crate) fn step_parts(value: &Data) -> Option<(Address, &Data)>
    ensures { option_map (λ parts. (parts.0, parts.1.now)) result ≡ step_parts_of value.now }
{
    let [service, class, name, index, parameter] = value.structure()? else {
        return None;
    };
    let address = Address {
        service: service.enumerated()?,
        class: ClassId(class.long_unsigned()?),
        name: name_in(name)?,
        index: index.integer()?,
    };
    Some((address, parameter))
}

// Returns a script's identifier and its steps: {script_identifier, actions}. Returns `None` if a
// type differs.
pub(crate) fn script_parts(value: &Data) -> Option<(u16, &[Data])>
    ensures { option_map (λ parts. (parts.0, parts.1.now)) result ≡ script_parts_of value.now }
{
    let [identifier, steps] = value.structure()? else {
        return None;
    };
    Some((identifier.long_unsigned()?, steps.array()?))
}

// Returns a script's identifier, or 0 if the Data is not a script.
pub(crate) fn identifier_in(value: &Data) -> u16
    ensures { result ≡ identifier_of value.now }
{
    match script_parts(value) {
        Some((identifier, _)) => identifier,
        None => 0,
    }
}
