//! The five types of a single action schedule (IEC 62056-6-2, class 22, type) and their numbers.
ghost use Rattle.std.specs.Prelude.{◌≡◌};
ghost use Rattle.cosem_names.specs.UnknownNumber.{Finds};
ghost use Rattle.action_schedule.specs.Kinds.{number_of, type_of_number};

use cosem_names::UnknownNumber;

/// The type of a schedule, attribute 3 (IEC 62056-6-2, class 22): how many entries it has, whether
/// their times may differ, and whether their dates may have wildcards. A wildcard is a year, month
/// or day of the month that is not a plain number.
#[derive(Clone, Copy, Debug, PartialEq, Eq)]
pub enum ScheduleType {
    /// 1: one entry; wildcards in its date are allowed.
    Type1,
    /// 2: any number of entries with the same time; wildcards in dates are not allowed.
    Type2,
    /// 3: any number of entries with the same time; wildcards in dates are allowed.
    Type3,
    /// 4: any number of entries, whose times may differ; wildcards in dates are not allowed.
    Type4,
    /// 5: any number of entries, whose times may differ; wildcards in dates are allowed.
    Type5,
}

/// Returns the number of the type, 1 to 5, as attribute 3 shows it.
impl From<ScheduleType> for u8 {
    ghost from_gives = { λ kind number. number ≡ number_of kind };

    fn from(kind: ScheduleType) -> u8 {
        match kind {
            ScheduleType::Type1 => 1,
            ScheduleType::Type2 => 2,
            ScheduleType::Type3 => 3,
            ScheduleType::Type4 => 4,
            ScheduleType::Type5 => 5,
        }
    }
}

/// Returns the type of a number. Fails if the number is not 1 to 5.
impl TryFrom<u8> for ScheduleType {
    type Error = UnknownNumber;

    ghost try_from_gives = { Finds type_of_number };

    fn try_from(number: u8) -> Result<ScheduleType, UnknownNumber> {
        Ok(match number {
            1 => ScheduleType::Type1,
            2 => ScheduleType::Type2,
            3 => ScheduleType::Type3,
            4 => ScheduleType::Type4,
            5 => ScheduleType::Type5,
            _ => return Err(UnknownNumber(number)),
        })
    }
}
