//! The owning pointer in a handle: a meter's box as C stores it, or null.
ghost use Rattle.std.specs.Prelude.{◌≡◌, Option, Some, None};
ghost use Rattle.embedded_meter.specs.MeterStates.{MeterState};
ghost use Rattle.meter.specs.Kept.{ownership_of, ownership_coded};

use crate::box_parts::BoxParts;
use embedded_meter::SupplyMeter;
use std::alloc::Global;
use std::marker::Model;

/// The pointer to the box of a meter, for C. It owns the box, or nothing.
#[repr(C)]
#[derive(Drop)]
pub struct HandleSlot {
    at: *mut u8,
    alloc: Global,
    /// Ghost value: the meter, if there is one.
    pub ghost held: { Option MeterState } by { ownership_coded },
}

impl Model for HandleSlot {
    ghost also_owns = { λ s. ownership_of s.alloc s.at s.held };
}

impl HandleSlot {
    // Returns a slot without a meter, whatever the pointer is.
    pub(crate) fn from_null(at: *mut u8, alloc: Global) -> HandleSlot
        ensures { result.held ≡ None }
    {
        HandleSlot { at, alloc }
    }

    // Returns a slot with the meter of these parts of a box.
    pub(crate) fn from_parts(parts: BoxParts<SupplyMeter, Global>) -> HandleSlot
        ensures { result.held ≡ Some parts.value }
    {
        let BoxParts { ptr, alloc } = parts;
        HandleSlot {
            at: ptr as *mut u8,
            alloc,
        }
    }

    // Returns the parts of the box of the meter, which the slot must hold.
    pub(crate) fn into_parts(self) -> BoxParts<SupplyMeter, Global>
        requires { (m : MeterState) × (self.held ≡ Some m) }
        ensures { self.held ≡ Some result.value }
    {
        let HandleSlot { at, alloc } = self;
        BoxParts {
            ptr: at as *mut SupplyMeter,
            alloc,
        }
    }
}
