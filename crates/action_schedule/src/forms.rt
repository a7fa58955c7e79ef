//! The structure of an entry of execution_time, a time and a date (IEC 62056-6-2, class 22), taken
//! from Data.
ghost use Rattle.std.specs.Prelude.{◌≡◌, option_map};
ghost use Rattle.action_schedule.specs.Forms.{entry_parts_of};

use cosem_axdr::Data;
use cosem_names::{date_bytes, time_bytes};

// Returns the bytes of an entry's time and date: {time, date}. Returns `None` if a type differs.
pub(crate) fn entry_parts(value: &Data) -> Option<(&[u8], &[u8])>
    ensures { option_map (λ parts. (parts.0.now, parts.1.now)) result ≡ entry_parts_of value.now }
{
    let [time, date] = value.structure()? else {
        return None;
    };
    Some((time_bytes(time)?, date_bytes(date)?))
}
