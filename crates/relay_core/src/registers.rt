//! The registers of active power: value and scaler_unit, in watts (IEC 62056-6-2, class 3).
ghost use Rattle.std.specs.Prelude.{◌≡◌, IfOk, IsOk, IsTrue};
ghost use Rattle.cosem_names.specs.UnknownNumber.{Finds};
ghost use Rattle.relay_core.specs.Registers.{attribute_numbered, data_at, is_plain};

use cosem_axdr::{Data, Items};
use cosem_names::UnknownNumber;
use std::alloc::{AllocError, Global};

// The unit W (IEC 62056-6-2, class 3, scaler_unit, table of units).
const WATT: u8 = 27;

// The attributes of a register other than the logical name, with their numbers (IEC 62056-6-2,
// class 3).
#[derive(Clone, Copy)]
pub(crate) enum RegisterAttribute {
    // Attribute 2, value.
    Value = 2,
    // Attribute 3, scaler_unit.
    ScalerUnit = 3,
}

// Returns the attribute of a number. Fails if the number is not 2 or 3.
impl TryFrom<u8> for RegisterAttribute {
    type Error = UnknownNumber;

    ghost try_from_gives = { Finds attribute_numbered };

    fn try_from(number: u8) -> Result<RegisterAttribute, UnknownNumber> {
        Ok(match number {
            2 => RegisterAttribute::Value,
            3 => RegisterAttribute::ScalerUnit,
            _ => return Err(UnknownNumber(number)),
        })
    }
}

// Reads an attribute of a register whose value is `watts`. Reading the value never allocates.
pub(crate) fn read_register(
    alloc: Global,
    attribute: RegisterAttribute,
    watts: u32,
) -> Result<Data, AllocError>
    ensures value { IfOk result (λ value. value ≡ data_at attribute watts) }
    ensures plain { IsTrue (is_plain attribute) → IsOk result }
{
    Ok(match attribute {
        RegisterAttribute::Value => Data::DoubleLongUnsigned(watts),
        RegisterAttribute::ScalerUnit => {
            let parts = vec![in alloc; Data::Integer(0), Data::Enum(WATT)]?;
            Data::Structure(Items::from_vec(parts))
        }
    })
}
