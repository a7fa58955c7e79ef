//! A value in an allocation of its own.
ghost use Rattle.std.specs.Prelude.{◌≡◌, IfOk, IfErr};

use std::alloc::{AllocFailed, Global};
use std::marker::Model;

/// A boxed value: moving it moves only its address. Contracts see the value.
#[derive(Drop)]
pub struct Lodged<T> {
    pub(crate) inner: Box<T>,
}

impl<T> Model for Lodged<T> {
    ghost Value = { T };

    ghost view = { λ lodged. lodged.inner.value };
}

impl<T> Lodged<T> {
    // Allocates memory for the value. If out of memory, returns the value.
    pub(crate) fn new(alloc: Global, value: T) -> Result<Lodged<T>, AllocFailed<T>>
        ensures ok { IfOk result (λ lodged. lodged ≡ value) }
        ensures err { IfErr result (λ failed. failed.value ≡ value) }
    {
        let inner = Box::new(alloc, value)?;
        Ok(Lodged { inner })
    }

    // Returns the value and frees its memory.
    pub(crate) fn into_value(self) -> T
        ensures { result ≡ self }
    {
        Box::into_inner(self.inner)
    }
}
