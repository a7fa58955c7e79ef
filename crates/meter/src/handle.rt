//! The handle that C code holds, `struct meter` of `meter.h`: open with a meter, or closed.
ghost use Rattle.std.specs.Prelude.{◌≡◌};
ghost use Rattle.meter.specs.Held.{is_held};

use crate::box_parts::BoxParts;
use crate::slot::HandleSlot;
use embedded_meter::SupplyMeter;
use std::alloc::Global;
use std::mem::replace;
use std::ptr::null_mut;

/// The handle of a meter: `struct meter` of `meter.h`. A handle of zeros is closed.
#[repr(C)]
#[derive(Drop)]
pub struct MeterHandle {
    /// The place of the meter in memory; empty if the handle is closed.
    pub slot: HandleSlot,
    is_open: bool,
    /// The handle holds a meter exactly if it is open.
    pub ghost agrees: { is_held slot.held ≡ is_open },
}

impl MeterHandle {
    ghost use Rattle.std.specs.Prelude.{◌≡◌, Some, None, IfSome};

    /// Returns a closed handle.
    pub fn closed(alloc: Global) -> MeterHandle
        ensures { result.slot.held ≡ None }
    {
        let at = null_pointer();
        MeterHandle {
            slot: HandleSlot::from_null(at, alloc),
            is_open: false,
        }
    }

    // Takes the meter out if the handle is open, which closes it.
    pub(crate) fn take(&mut self, alloc: Global) -> Option<Box<SupplyMeter, Global>>
        ensures taken { IfSome result (λ b. self.old.slot.held ≡ Some b.value) }
        ensures none { result ≡ None → self.old.slot.held ≡ None }
        ensures closed { self.new.slot.held ≡ None }
    {
        if !self.is_open {
            return None;
        }
        let MeterHandle { slot, is_open: _ } = replace(self, MeterHandle::closed(alloc));
        Some(slot.into_parts().into_box())
    }

    // Puts a meter into the handle, which opens it.
    pub(crate) fn put(&mut self, held: Box<SupplyMeter, Global>)
        ensures { self.new.slot.held ≡ Some held.value }
    {
        *self = MeterHandle {
            slot: HandleSlot::from_parts(BoxParts::from_box(held)),
            is_open: true,
        };
    }
}

// Returns the null pointer of a closed handle.
fn null_pointer() -> *mut u8 {
    null_mut()
}
