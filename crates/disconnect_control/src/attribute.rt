//! Attributes 2 to 4 of the disconnect control (IEC 62056-6-2, class 70) and their numbers.
ghost use Rattle.cosem_names.specs.UnknownNumber.{Finds};
ghost use Rattle.disconnect_control.specs.Attributes.{attribute_numbered};

use cosem_names::UnknownNumber;

/// The attributes of the switch after its logical name, each with its number (IEC 62056-6-2, class
/// 70).
#[derive(Clone, Copy, Debug, PartialEq, Eq)]
pub enum ControlAttribute {
    /// Attribute 2, output_state: whether the supply is on.
    OutputState = 2,
    /// Attribute 3, control_state: Disconnected, Connected or Ready for reconnection.
    ControlState = 3,
    /// Attribute 4, control_mode: which triggers the switch obeys.
    ControlMode = 4,
}

/// Returns the attribute of a number. Fails if the number is not 2 to 4.
impl TryFrom<u8> for ControlAttribute {
    type Error = UnknownNumber;

    ghost try_from_gives = { Finds attribute_numbered };

    fn try_from(number: u8) -> Result<ControlAttribute, UnknownNumber> {
        Ok(match number {
            2 => ControlAttribute::OutputState,
            3 => ControlAttribute::ControlState,
            4 => ControlAttribute::ControlMode,
            _ => return Err(UnknownNumber(number)),
        })
    }
}
