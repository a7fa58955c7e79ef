//! The cursor of the reader of Data: reads bytes, numbers and lengths, and enforces the limit of
//! 8,192 bytes.
ghost use Rattle.std.specs.Prelude.{◌≡◌, length, IfOk};
ghost use Rattle.std.specs.Int.{w16, w32, w64};
ghost use Rattle.cosem_axdr.specs.Reading.{Reads, start, byte_at, bytes_at};
ghost use Rattle.cosem_axdr.specs.Reading.{length_at, string_at, unsigned_at};

use crate::fault::DataFault;
use crate::length::number_of;
use crate::limits::MAX_TEXT;
use byteorder::{BigEndian, ByteOrder};
use std::marker::Model;

// A position in bytes that are read from left to right: the remaining bytes, and how many of them
// the Data may still use.
#[derive(Drop)]
pub(crate) struct DataReader<'a> {
    rest: &'a [u8],
    room: usize,
}

impl<'a> Model for DataReader<'a> {
    ghost use Rattle.cosem_axdr.specs.Reading.{Place};

    ghost Value = { Place };

    ghost view = { λ reader. record { bytes = reader.rest.now; room = reader.room } };
}

impl<'a> DataReader<'a> {
    // Creates a reader at the front of bytes.
    pub(crate) fn new(bytes: &'a [u8]) -> Self
        ensures { result ≡ start bytes.now }
    {
        DataReader {
            rest: bytes,
            room: MAX_TEXT,
        }
    }

    // Returns the number of remaining bytes.
    pub(crate) fn remaining(&self) -> usize
        ensures { result ≡ length self.now.bytes }
    {
        self.rest.len()
    }

    // Reads the next `count` bytes. All of them must be there; otherwise none is read.
    pub(crate) fn read_bytes(&mut self, count: usize) -> Result<&'a [u8], DataFault>
        ensures read { Reads (λ bytes. bytes.now) result self.new (bytes_at count self.old) }
        ensures len { IfOk result (λ bytes. length bytes.now ≡ count) }
    {
        if self.room < count {
            return Err(DataFault::TooLong);
        }
        if self.rest.len() < count {
            return Err(DataFault::Truncated);
        }
        let (bytes, rest) = self.rest.split_at(count);
        self.rest = rest;
        self.room -= count;
        Ok(bytes)
    }

    // Reads the next byte.
    pub(crate) fn read_byte(&mut self) -> Result<u8, DataFault>
        ensures { Reads (λ byte. byte) result self.new (byte_at self.old) }
    {
        Ok(self.read_bytes(1)?[0])
    }

    // Reads the next `N` bytes.
    pub(crate) fn read_array<const N: usize>(&mut self) -> Result<[u8; N], DataFault>
        ensures { Reads (λ bytes. bytes) result self.new (bytes_at N self.old) }
    {
        let mut array = [0; N];
        array.copy_from_slice(self.read_bytes(N)?);
        Ok(array)
    }

    // Reads a number of two bytes, the highest first.
    #[tactic(auto, using(crate::proofs::BigEndian::two_bytes))]
    pub(crate) fn read_u16(&mut self) -> Result<u16, DataFault>
        ensures { Reads (λ number. number) result self.new (unsigned_at w16 self.old) }
    {
        Ok(BigEndian::read_u16(self.read_bytes(2)?))
    }

    // Reads a number of four bytes, the highest first.
    #[tactic(auto, using(crate::proofs::BigEndian::four_bytes))]
    pub(crate) fn read_u32(&mut self) -> Result<u32, DataFault>
        ensures { Reads (λ number. number) result self.new (unsigned_at w32 self.old) }
    {
        Ok(BigEndian::read_u32(self.read_bytes(4)?))
    }

    // Reads a number of eight bytes, the highest first.
    #[tactic(auto, using(crate::proofs::BigEndian::eight_bytes))]
    pub(crate) fn read_u64(&mut self) -> Result<u64, DataFault>
        ensures { Reads (λ number. number) result self.new (unsigned_at w64 self.old) }
    {
        Ok(BigEndian::read_u64(self.read_bytes(8)?))
    }

    // Reads a length or count: one byte below 80 hex, or 81 to 84 hex followed by one to four
    // bytes.
    #[tactic(auto, unfolding(crate::specs::Reading::length_at))]
    pub(crate) fn read_length(&mut self) -> Result<usize, DataFault>
        ensures { Reads (λ n. n) result self.new (length_at self.old) }
    {
        match self.read_byte()? {
            short @ 0..=0x7F => Ok(usize::from(short)),
            form @ 0x81..=0x84 => Ok(number_of(self.read_bytes(usize::from(form - 0x80))?)),
            _ => Err(DataFault::TooLong),
        }
    }

    // Reads a string: its length, followed by its bytes.
    #[tactic(auto, unfolding(crate::specs::Reading::string_at))]
    pub(crate) fn read_string(&mut self) -> Result<&'a [u8], DataFault>
        ensures { Reads (λ bytes. bytes.now) result self.new (string_at self.old) }
    {
        let count = self.read_length()?;
        self.read_bytes(count)
    }
}
