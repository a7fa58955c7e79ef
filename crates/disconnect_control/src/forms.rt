//! The attributes of the disconnect control as Data, and the mode that a client writes (IEC
//! 62056-6-2, class 70).
ghost use Rattle.std.specs.Prelude.{◌≡◌};
ghost use Rattle.disconnect_control.specs.Attributes.{data_at, mode_form};

use crate::attribute::ControlAttribute;
use crate::control::DisconnectControl;
use crate::state::ControlMode;
use cosem_axdr::Data;
use cosem_names::WriteFault;

impl DisconnectControl {
    /// Returns the value of an attribute as Data, as a client reads it. Does not allocate.
    pub fn to_data(&self, attribute: ControlAttribute) -> Data
        ensures { result ≡ data_at attribute self.now }
    {
        match attribute {
            ControlAttribute::OutputState => Data::Boolean(self.output()),
            ControlAttribute::ControlState => Data::Enum(u8::from(self.state())),
            ControlAttribute::ControlMode => Data::Enum(u8::from(self.mode())),
        }
    }
}

/// Reads a mode from the Data that a client writes to control_mode (attribute 4): an enum, 0 to 6.
/// Returns `Unmatched` if the Data is not an enum, and `Value` if its number is above 6. Does not
/// allocate.
#[tactic(auto, unfolding(crate::specs::Attributes::mode_form))]
pub fn read_mode(value: &Data) -> Result<ControlMode, WriteFault>
    ensures { result ≡ mode_form value.now }
{
    let number = value.enumerated().ok_or(WriteFault::Unmatched)?;
    Ok(ControlMode::try_from(number)?)
}
