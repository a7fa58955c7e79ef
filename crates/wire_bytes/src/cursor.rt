//! `Cursor`: reads bytes, slices and arrays from left to right, and fails with the fault that its
//! caller passes.
ghost use Rattle.std.specs.Prelude.{◌≡◌, ◌↔◌, [], Ok, length, IfOk, OnErr, IsTrue};
ghost use Rattle.wire_bytes.specs.Reading.{Reads, whole_or, first_byte, first_bytes};

use std::marker::Model;

/// The rest of some bytes that are read from left to right. A step that finds too few bytes returns
/// the fault that its caller passes.
#[derive(Drop)]
pub struct Cursor<'a> {
    rest: &'a [u8],
}

impl<'a> Model for Cursor<'a> {
    ghost use Rattle.std.specs.Prelude.{List, ℕ};

    ghost Value = { List ℕ };

    ghost view = { λ reader. reader.rest.now };
}

impl<'a> Cursor<'a> {
    /// Returns a cursor at the front of `bytes`.
    pub fn new(bytes: &'a [u8]) -> Self
        ensures { result ≡ bytes.now }
    {
        Cursor { rest: bytes }
    }

    /// Returns the bytes that are not yet read.
    pub fn rest(&self) -> &'a [u8]
        ensures { result.now ≡ self.now }
    {
        let Cursor { rest } = *self;
        rest
    }

    /// Returns whether all bytes are read.
    pub fn is_empty(&self) -> bool
        ensures { IsTrue result ↔ (self.now ≡ []) }
    {
        self.rest.is_empty()
    }

    /// Returns `value` if all bytes are read, else `fault`.
    pub fn finish<T: Drop, F: Copy>(&self, value: T, fault: F) -> Result<T, F>
        ensures { result ≡ whole_or fault (Ok (value, self.now)) }
    {
        if self.rest.is_empty() {
            Ok(value)
        } else {
            Err(fault)
        }
    }

    /// Reads the next byte, or returns `fault` if there is none.
    pub fn read_byte<F: Copy>(&mut self, fault: F) -> Result<u8, F>
        ensures read { Reads (λ byte. byte) result self.new (first_byte fault self.old) }
        ensures err { OnErr result (self.new ≡ self.old) }
    {
        let [byte, rest @ ..] = self.rest else {
            return Err(fault);
        };
        self.rest = rest;
        Ok(*byte)
    }

    /// Reads the next `count` bytes. Returns `fault` and reads nothing if there are fewer.
    pub fn read_bytes<F: Copy>(&mut self, count: usize, fault: F) -> Result<&'a [u8], F>
        ensures read { Reads (λ bytes. bytes.now) result self.new
            (first_bytes fault count self.old) }
        ensures len { IfOk result (λ bytes. length bytes.now ≡ count) }
        ensures err { OnErr result (self.new ≡ self.old) }
    {
        if self.rest.len() < count {
            return Err(fault);
        }
        let (bytes, rest) = self.rest.split_at(count);
        self.rest = rest;
        Ok(bytes)
    }

    /// Reads the next `N` bytes. Returns `fault` and reads nothing if there are fewer.
    pub fn read_array<const N: usize, F: Copy>(&mut self, fault: F) -> Result<[u8; N], F>
        ensures read { Reads (λ bytes. bytes) result self.new (first_bytes fault N self.old) }
        ensures err { OnErr result (self.new ≡ self.old) }
    {
        let mut array = [0; N];
        array.copy_from_slice(self.read_bytes(N, fault)?);
        Ok(array)
    }
}
