//! Attributes 2 to 4 of a single action schedule (IEC 62056-6-2, class 22) and their numbers.
ghost use Rattle.cosem_names.specs.UnknownNumber.{Finds};
ghost use Rattle.action_schedule.specs.Attributes.{attribute_numbered};

use cosem_names::UnknownNumber;

/// The attributes of a schedule after its logical name, each with its number (IEC 62056-6-2, class
/// 22).
#[derive(Clone, Copy, Debug, PartialEq, Eq)]
pub enum ScheduleAttribute {
    /// Attribute 2, executed_script: the script that the schedule runs.
    ExecutedScript = 2,
    /// Attribute 3, type: 1 to 5.
    Kind = 3,
    /// Attribute 4, execution_time: the entries, each a time and a date.
    ExecutionTime = 4,
}

/// Returns the attribute of a number. Fails if the number is not 2 to 4.
impl TryFrom<u8> for ScheduleAttribute {
    type Error = UnknownNumber;

    ghost try_from_gives = { Finds attribute_numbered };

    fn try_from(number: u8) -> Result<ScheduleAttribute, UnknownNumber> {
        Ok(match number {
            2 => ScheduleAttribute::ExecutedScript,
            3 => ScheduleAttribute::Kind,
            4 => ScheduleAttribute::ExecutionTime,
            _ => return Err(UnknownNumber(number)),
        })
    }
}
