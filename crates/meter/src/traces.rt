//! The meter as the text of a trace.
ghost use Rattle.std.specs.Prelude.{◌≡◌};
ghost use Rattle.meter.specs.Exports.{OnOpen, ResumeOutcome, MeterResume, MeterExport, WritesBy};

use crate::handle::MeterHandle;
use crate::opening::are_kept;
use crate::outcome::CallResult;
use cosem_axdr::Octets;
use embedded_meter::{SupplyMeter, TraceFault};
use std::alloc::{AllocError, Global};

/// Opens a meter that continues from the end of a trace, with a password of 1 to 32 bytes, and
/// keeps 1 to 1,024 events. Results: `IsOpen`; `WrongArgument` if an argument is out of its range
/// or the text is not a trace; `NoMemory`; `Done`. The handle is unchanged unless the result is
/// `Done`.
#[unsafe(no_mangle)]
pub extern "C" fn meter_resume(
    alloc: Global,
    meter: &mut MeterHandle,
    trace: &[u8],
    password: &[u8],
    kept_events: u16,
) -> u32
    ensures { MeterResume trace.now password.now kept_events meter.old.slot.held result
        meter.new.slot.held }
{
    resume(alloc, meter, trace, password, kept_events).code()
}

// Opens a meter that continues from the end of a trace, unless the handle holds one.
fn resume(
    alloc: Global,
    meter: &mut MeterHandle,
    trace: &[u8],
    password: &[u8],
    kept_events: u16,
) -> CallResult
    ensures { ResumeOutcome trace.now password.now kept_events meter.old.slot.held result
        meter.new.slot.held }
{
    if let Some(held) = meter.take(alloc) {
        meter.put(held);
        return CallResult::IsOpen;
    }
    if !are_kept(password, kept_events) {
        return CallResult::WrongArgument;
    }
    let password = match Octets::from_slice(alloc, password) {
        Ok(password) => password,
        Err(_) => return CallResult::NoMemory,
    };
    match SupplyMeter::resume(alloc, trace, &password, kept_events) {
        Ok(resumed) => match Box::new(alloc, resumed) {
            Ok(held) => {
                meter.put(held);
                CallResult::Done
            }
            Err(failed) => {
                drop(failed);
                CallResult::NoMemory
            }
        },
        Err(TraceFault::Memory) => CallResult::NoMemory,
        Err(TraceFault::Line(_)) => CallResult::WrongArgument,
        Err(TraceFault::TooLong) => CallResult::WrongArgument,
    }
}

/// Writes the meter's trace as text. `length` is the text's length in bytes for `Done` and
/// `NoRoom`, otherwise 0. Results: `NotOpen`, `NoMemory`, `NoRoom`, `Done`. The buffer is unchanged
/// unless the result is `Done`.
#[unsafe(no_mangle)]
pub extern "C" fn meter_export(
    alloc: Global,
    meter: &mut MeterHandle,
    text: &mut [u8],
    length: &mut usize,
) -> u32
    ensures { OnOpen ((text.new ≡ text.old)
        × (length.new ≡ 0)) (MeterExport text.old text.new length.new) meter.old.slot.held result
        meter.new.slot.held }
{
    *length = 0;
    let Some(held) = meter.take(alloc) else {
        return CallResult::NotOpen.code();
    };
    let exported = held.export(alloc);
    meter.put(held);
    write_text(exported, text, length).code()
}

// Copies a text to the buffer if it fits. `length` is the length of the text if it was copied or
// does not fit, else 0.
fn write_text(
    exported: Result<Octets, AllocError>,
    text: &mut [u8],
    length: &mut usize,
) -> CallResult
    requires { length.old ≡ 0 }
    ensures { WritesBy exported text.old text.new length.new result }
{
    match exported {
        Ok(bytes) => {
            let count = bytes.len();
            *length = count;
            if text.len() < count {
                return CallResult::NoRoom;
            }
            text[..count].copy_from_slice(bytes.as_slice());
            CallResult::Done
        }
        Err(_) => CallResult::NoMemory,
    }
}
