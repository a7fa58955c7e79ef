//! The read of the thresholds that blocks are scanned with.
ghost use Rattle.std.specs.Prelude.{◌≡◌, IfOk};
ghost use Rattle.shared_meter.specs.Thresholds.{threshold_read};

use cosem_axdr::Data;
use cosem_names::class::LIMITER;
use cosem_names::logical_name::{EXPORT_LIMITER, IMPORT_LIMITER};
use cosem_names::{AttrRef, AttributeSelection, GetResult, Level};
use relay_events::{Event, Reply};
use std::alloc::{AllocError, Global};
use wire_bytes::Listed;

// The number of threshold_active (IEC 62056-6-2, class 71).
const THRESHOLD_ACTIVE: u8 = 3;

// threshold_active of the limiter of the imported power.
const IMPORT_THRESHOLD: AttributeSelection = AttributeSelection {
    attr: AttrRef {
        class: LIMITER,
        name: IMPORT_LIMITER,
        number: THRESHOLD_ACTIVE,
    },
    selected: false,
};

// threshold_active of the limiter of the exported power.
const EXPORT_THRESHOLD: AttributeSelection = AttributeSelection {
    attr: AttrRef {
        class: LIMITER,
        name: EXPORT_LIMITER,
        number: THRESHOLD_ACTIVE,
    },
    selected: false,
};

// The active thresholds of both limiters, in watts.
#[derive(Clone, Copy)]
pub(crate) struct Thresholds {
    pub(crate) import: u32,
    pub(crate) export: u32,
}

// Returns a management client's read of both thresholds, import first.
pub(crate) fn make_read(alloc: Global) -> Result<Event, AllocError>
    ensures { IfOk result (λ event. event ≡ threshold_read) }
{
    let items = Vec::from_slice(alloc, &[IMPORT_THRESHOLD, EXPORT_THRESHOLD])?;
    Ok(Event::GetList {
        level: Level::Management,
        items: Listed::from_vec(items),
    })
}

// Returns the number in a result, if it is a double-long-unsigned.
fn number(read: &GetResult) -> Option<u32> {
    match read {
        GetResult::Value(Data::DoubleLongUnsigned(number)) => Some(*number),
        _ => None,
    }
}

// Returns both thresholds, if the reply has both.
pub(crate) fn thresholds_in(reply: &Reply) -> Option<Thresholds> {
    let Reply::Values(results) = reply else {
        return None;
    };
    let import = number(results.as_slice().get(0)?)?;
    let export = number(results.as_slice().get(1)?)?;
    Some(Thresholds { import, export })
}
