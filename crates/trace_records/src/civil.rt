//! The meter's clock as a civil date and time.
ghost use Rattle.std.specs.Prelude.{◌≡◌, IfOk, option_map, string_bytes};
ghost use Rattle.cosem_datetime.specs.Calendar.{first_day_of_2000};
ghost use Rattle.record_parts.specs.Civil.{civil_text};

use cosem_datetime::FIRST_DAY_OF_2000;
use record_parts::civil_text;
use std::alloc::{AllocError, Global};

// Returns a moment, if there is one, as a civil date and time. A moment is in seconds since
// 2000-01-01 00:00:00 of the meter's time.
#[tactic(auto, using(cosem_datetime::proofs::Jiff::first_day_is))]
pub(crate) fn civil_time(alloc: Global, moment: Option<u32>) -> Result<Option<String>, AllocError>
    ensures { IfOk result (λ text. option_map string_bytes text
        ≡ option_map (civil_text first_day_of_2000) moment) }
{
    match moment {
        Some(moment) => Ok(Some(civil_text(alloc, FIRST_DAY_OF_2000, moment)?)),
        None => Ok(None),
    }
}
