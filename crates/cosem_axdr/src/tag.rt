//! The tags of the types of Data (IEC 62056-5-3, Data).
ghost use Rattle.std.specs.Prelude.{◌≡◌};
ghost use Rattle.cosem_axdr.specs.View.{tree_of};
ghost use Rattle.cosem_axdr.specs.Spelling.{tag_of};

use crate::value::Data;

/// The tag of null-data, which has no contents.
pub const NULL_DATA: u8 = 0x00;

/// The tag of array: a counted list of items, all of one type.
pub const ARRAY: u8 = 0x01;

/// The tag of structure: a counted list of items, each of its own type.
pub const STRUCTURE: u8 = 0x02;

/// The tag of boolean: one byte, 0 for false and any other for true.
pub const BOOLEAN: u8 = 0x03;

/// The tag of bit-string: the number of bits, and the bytes that hold them.
pub const BIT_STRING: u8 = 0x04;

/// The tag of double-long: a signed number of four bytes.
pub const DOUBLE_LONG: u8 = 0x05;

/// The tag of double-long-unsigned: an unsigned number of four bytes.
pub const DOUBLE_LONG_UNSIGNED: u8 = 0x06;

/// The tag of octet-string: a string of any bytes.
pub const OCTET_STRING: u8 = 0x09;

/// The tag of visible-string: a string of ASCII characters.
pub const VISIBLE_STRING: u8 = 0x0A;

/// The tag of utf8-string: a string of characters in UTF-8.
pub const UTF8_STRING: u8 = 0x0C;

/// The tag of integer: a signed number of one byte.
pub const INTEGER: u8 = 0x0F;

/// The tag of long: a signed number of two bytes.
pub const LONG: u8 = 0x10;

/// The tag of unsigned: an unsigned number of one byte.
pub const UNSIGNED: u8 = 0x11;

/// The tag of long-unsigned: an unsigned number of two bytes.
pub const LONG_UNSIGNED: u8 = 0x12;

/// The tag of long64: a signed number of eight bytes.
pub const LONG64: u8 = 0x14;

/// The tag of long64-unsigned: an unsigned number of eight bytes.
pub const LONG64_UNSIGNED: u8 = 0x15;

/// The tag of enum: one byte, the number of an enumerated value.
pub const ENUM: u8 = 0x16;

/// The tag of date-time: twelve bytes.
pub const DATE_TIME: u8 = 0x19;

/// The tag of date: five bytes.
pub const DATE: u8 = 0x1A;

/// The tag of time: four bytes.
pub const TIME: u8 = 0x1B;

// Returns the tag of a value's type.
pub(crate) fn tag_of(value: &Data) -> u8
    ensures { result ≡ tag_of (tree_of value.now) }
{
    match value {
        Data::Null => NULL_DATA,
        Data::Array(_) => ARRAY,
        Data::Structure(_) => STRUCTURE,
        Data::Boolean(_) => BOOLEAN,
        Data::BitString { .. } => BIT_STRING,
        Data::DoubleLong(_) => DOUBLE_LONG,
        Data::DoubleLongUnsigned(_) => DOUBLE_LONG_UNSIGNED,
        Data::OctetString(_) => OCTET_STRING,
        Data::VisibleString(_) => VISIBLE_STRING,
        Data::Utf8String(_) => UTF8_STRING,
        Data::Integer(_) => INTEGER,
        Data::Long(_) => LONG,
        Data::Unsigned(_) => UNSIGNED,
        Data::LongUnsigned(_) => LONG_UNSIGNED,
        Data::Long64(_) => LONG64,
        Data::Long64Unsigned(_) => LONG64_UNSIGNED,
        Data::Enum(_) => ENUM,
        Data::DateTime(_) => DATE_TIME,
        Data::Date(_) => DATE,
        Data::Time(_) => TIME,
    }
}
