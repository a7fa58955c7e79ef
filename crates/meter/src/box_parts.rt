//! `BoxParts`: the pointer and the allocator of a box, as fields of a struct that C can hold.
ghost use Rattle.std.specs.Prelude.{◌≡◌};
ghost use Rattle.std_alloc.specs.Box.Ownership.{box_owns};

use std::alloc::Allocator;
use std::marker::Model;

/// The parts of a box. They own what the box owned: the memory, and the value in it.
pub struct BoxParts<T, A: Allocator> {
    /// The pointer to the value.
    pub ptr: *mut T,
    /// The allocator of the memory.
    pub alloc: A,
    /// The value in the box.
    pub ghost value: { T },
}

impl<T, A: Allocator> Model for BoxParts<T, A> {
    ghost also_owns = { λ p. box_owns (A.dealloc_token p.alloc) T.row p.ptr p.value };
}

impl<T, A: Allocator> BoxParts<T, A> {
    /// Takes a box apart. Does not allocate, and does not move the value.
    pub fn from_box(boxed: Box<T, A>) -> BoxParts<T, A>
    where
        T: Drop,
        ensures { result.value ≡ boxed.value }
    {
        let (ptr, alloc) = Box::into_raw_with_allocator(boxed);
        BoxParts { ptr, alloc }
    }

    /// Puts the box together again.
    pub fn into_box(self) -> Box<T, A>
        ensures { result.value ≡ self.value }
    {
        let BoxParts { ptr, alloc } = self;
        unsafe { Box::from_raw(alloc, ptr) }
    }
}
