//! Accessors of a Data: the items, bytes or number if the value is of the asked type, else `None`.
ghost use Rattle.std.specs.Prelude.{◌≡◌, option_map};
ghost use Rattle.cosem_axdr.specs.Forms.{array_of, structure_of, octets_of, boolean_of, double_long_unsigned_of, long_unsigned_of, unsigned_of, enumerated_of, integer_of, date_time_of, date_of, time_of};

use crate::value::Data;

/// Accessors that return a Data's value as one type, or `None` if the Data is of another type.
impl Data {
    /// Returns the items of an array.
    pub fn array(&self) -> Option<&[Data]>
        ensures { option_map (λ s. s.now) result ≡ array_of self.now }
    {
        match self {
            Data::Array(items) => Some(items.as_slice()),
            _ => None,
        }
    }

    /// Returns the items of a structure.
    pub fn structure(&self) -> Option<&[Data]>
        ensures { option_map (λ s. s.now) result ≡ structure_of self.now }
    {
        match self {
            Data::Structure(items) => Some(items.as_slice()),
            _ => None,
        }
    }

    /// Returns the bytes of an octet-string.
    pub fn octets(&self) -> Option<&[u8]>
        ensures { option_map (λ s. s.now) result ≡ octets_of self.now }
    {
        match self {
            Data::OctetString(bytes) => Some(bytes.as_slice()),
            _ => None,
        }
    }

    /// Returns the value of a boolean.
    pub fn boolean(&self) -> Option<bool>
        ensures { result ≡ boolean_of self.now }
    {
        match self {
            Data::Boolean(value) => Some(*value),
            _ => None,
        }
    }

    /// Returns the number of a double-long-unsigned.
    pub fn double_long_unsigned(&self) -> Option<u32>
        ensures { result ≡ double_long_unsigned_of self.now }
    {
        match self {
            Data::DoubleLongUnsigned(number) => Some(*number),
            _ => None,
        }
    }

    /// Returns the number of a long-unsigned.
    pub fn long_unsigned(&self) -> Option<u16>
        ensures { result ≡ long_unsigned_of self.now }
    {
        match self {
            Data::LongUnsigned(number) => Some(*number),
            _ => None,
        }
    }

    /// Returns the number of an unsigned.
    pub fn unsigned(&self) -> Option<u8>
        ensures { result ≡ unsigned_of self.now }
    {
        match self {
            Data::Unsigned(number) => Some(*number),
            _ => None,
        }
    }

    /// Returns the number of an enum.
    pub fn enumerated(&self) -> Option<u8>
        ensures { result ≡ enumerated_of self.now }
    {
        match self {
            Data::Enum(number) => Some(*number),
            _ => None,
        }
    }

    /// Returns the number of an integer.
    pub fn integer(&self) -> Option<i8>
        ensures { result ≡ integer_of self.now }
    {
        match self {
            Data::Integer(number) => Some(*number),
            _ => None,
        }
    }

    /// Returns the twelve bytes of a date-time.
    pub fn date_time(&self) -> Option<&[u8]>
        ensures { option_map (λ s. s.now) result ≡ date_time_of self.now }
    {
        match self {
            Data::DateTime(bytes) => Some(bytes.as_slice()),
            _ => None,
        }
    }

    /// Returns the five bytes of a date.
    pub fn date(&self) -> Option<&[u8]>
        ensures { option_map (λ s. s.now) result ≡ date_of self.now }
    {
        match self {
            Data::Date(bytes) => Some(bytes.as_slice()),
            _ => None,
        }
    }

    /// Returns the four bytes of a time.
    pub fn time(&self) -> Option<&[u8]>
        ensures { option_map (λ s. s.now) result ≡ time_of self.now }
    {
        match self {
            Data::Time(bytes) => Some(bytes.as_slice()),
            _ => None,
        }
    }
}
