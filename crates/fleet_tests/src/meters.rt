//! A meter that continues from a trace, and its state.
use cosem_axdr::Octets;
use embedded_meter::{SupplyMeter, TraceFault};
use std::alloc::Global;

/// The number of events that these meters keep.
const KEPT_EVENTS: u16 = 16;

/// A meter's state: the numbers of its control state and of its control mode, and whether the
/// supply is on.
pub(crate) type Standing = (u8, u8, bool);

// Returns control_state, control_mode and output_state of a meter.
pub(crate) fn standing(meter: &SupplyMeter) -> Standing {
    (
        u8::from(meter.state()),
        u8::from(meter.mode()),
        meter.output(),
    )
}

/// Returns a meter that continues from the text of a trace.
pub(crate) fn resume_meter(alloc: Global, trace: &[u8]) -> Result<SupplyMeter, TraceFault> {
    let password = Octets::from_slice(alloc, b"12345678")?;
    let meter = SupplyMeter::resume(alloc, trace, &password, KEPT_EVENTS);
    drop(password);
    meter
}
