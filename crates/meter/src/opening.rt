//! Opens and closes a meter.
ghost use Rattle.std.specs.Prelude.{◌≡◌, None, IfOk, IsTrue, ◌↔◌};
ghost use Rattle.meter.specs.Exports.{AreFit, AreKept, OpenOutcome, MeterOpen};
ghost use Rattle.embedded_meter.specs.Calls.{IsNew};

use crate::handle::MeterHandle;
use crate::outcome::CallResult;
use acse_ber::MAX_PASSWORD;
use cosem_axdr::Octets;
use embedded_meter::SupplyMeter;
use relay_core::MAX_DEVICE_NAME;
use relay_recorder::MAX_CAPACITY;
use std::alloc::{AllocError, Global};

/// Opens a new meter with a name of 1 to 16 bytes and a password of 1 to 32, which keeps 1 to 1,024
/// events. Results, in this order: `IsOpen`, `WrongArgument`, `NoMemory`, `Done`. The handle is
/// unchanged unless the result is `Done`.
#[unsafe(no_mangle)]
pub extern "C" fn meter_open(
    alloc: Global,
    meter: &mut MeterHandle,
    name: &[u8],
    password: &[u8],
    kept_events: u16,
) -> u32
    ensures { MeterOpen name.now password.now kept_events meter.old.slot.held result
        meter.new.slot.held }
{
    open(alloc, meter, name, password, kept_events).code()
}

// Opens a new meter, unless the handle holds one.
fn open(
    alloc: Global,
    meter: &mut MeterHandle,
    name: &[u8],
    password: &[u8],
    kept_events: u16,
) -> CallResult
    ensures { OpenOutcome name.now password.now kept_events meter.old.slot.held result
        meter.new.slot.held }
{
    if let Some(held) = meter.take(alloc) {
        meter.put(held);
        return CallResult::IsOpen;
    }
    if !are_fit(name, password, kept_events) {
        return CallResult::WrongArgument;
    }
    match new_meter(alloc, name, password, kept_events) {
        Ok(held) => {
            meter.put(held);
            CallResult::Done
        }
        Err(_) => CallResult::NoMemory,
    }
}

// Returns whether the arguments that each opening has are in their ranges.
pub(crate) fn are_kept(password: &[u8], kept_events: u16) -> bool
    ensures { IsTrue result ↔ AreKept password.now kept_events }
{
    1 <= password.len()
        && password.len() <= MAX_PASSWORD
        && 1 <= kept_events
        && kept_events <= MAX_CAPACITY
}

// Returns whether the arguments of opening a new meter are in their ranges.
fn are_fit(name: &[u8], password: &[u8], kept_events: u16) -> bool
    ensures { IsTrue result ↔ AreFit name.now password.now kept_events }
{
    1 <= name.len() && name.len() <= MAX_DEVICE_NAME && are_kept(password, kept_events)
}

// Returns a new meter in a box.
fn new_meter(
    alloc: Global,
    name: &[u8],
    password: &[u8],
    kept_events: u16,
) -> Result<Box<SupplyMeter, Global>, AllocError>
    requires { AreFit name.now password.now kept_events }
    ensures { IfOk result (λ b. IsNew name.now password.now kept_events b.value) }
{
    let name = Octets::from_slice(alloc, name)?;
    let password = Octets::from_slice(alloc, password)?;
    let held = SupplyMeter::new(alloc, &name, &password, kept_events)?;
    match Box::new(alloc, held) {
        Ok(boxed) => Ok(boxed),
        Err(failed) => {
            drop(failed);
            Err(AllocError)
        }
    }
}

/// Closes a meter and its sessions, and frees all its memory. A closed meter stays closed.
#[unsafe(no_mangle)]
pub extern "C" fn meter_close(alloc: Global, meter: &mut MeterHandle)
    ensures { meter.new.slot.held ≡ None }
{
    if let Some(held) = meter.take(alloc) {
        drop(held);
    }
}
