//! The length of a Data's encoding in bytes, computed without writing it.
ghost use Rattle.std.specs.Prelude.{◌≡◌, min, length};
ghost use Rattle.cosem_axdr.specs.Tree.{trees_of};
ghost use Rattle.cosem_axdr.specs.View.{tree_of, all_trees};
ghost use Rattle.cosem_axdr.specs.Spelling.{text, texts, contents_text, length_text, string_text};

use crate::value::Data;
use wire_bytes::Octets;

/// Returns the length of a value's text in bytes, at most `u64::MAX` (saturating).
#[cycle(measuring)]
pub fn text_len(value: &Data) -> u64
    ensures { result ≡ min (length (text (tree_of value.now))) u64.MAX }
{
    contents_len(value).saturating_add(1)
}

// Returns the number of bytes after the tag of a value.
#[cycle(measuring)]
fn contents_len(value: &Data) -> u64
    ensures { result ≡ min (length (contents_text (tree_of value.now))) u64.MAX }
{
    match value {
        Data::Null => 0,
        Data::Array(items) => length_len(items.len()).saturating_add(items_len(&items.items)),
        Data::Structure(items) => length_len(items.len()).saturating_add(items_len(&items.items)),
        Data::BitString { bits, bytes } => length_len(*bits).saturating_add(bytes.len() as u64),
        Data::OctetString(bytes) => string_len(bytes),
        Data::VisibleString(bytes) => string_len(bytes),
        Data::Utf8String(bytes) => string_len(bytes),
        Data::Boolean(_) => 1,
        Data::Integer(_) => 1,
        Data::Unsigned(_) => 1,
        Data::Enum(_) => 1,
        Data::Long(_) => 2,
        Data::LongUnsigned(_) => 2,
        Data::DoubleLong(_) => 4,
        Data::DoubleLongUnsigned(_) => 4,
        Data::Long64(_) => 8,
        Data::Long64Unsigned(_) => 8,
        Data::DateTime(bytes) => bytes.as_slice().len() as u64,
        Data::Date(bytes) => bytes.as_slice().len() as u64,
        Data::Time(bytes) => bytes.as_slice().len() as u64,
    }
}

// Returns the number of bytes of consecutive items.
#[cycle(measuring)]
fn items_len(items: &[Data]) -> u64
    ensures { result ≡ min (length (texts (trees_of (all_trees items.now)))) u64.MAX }
{
    let mut len: u64 = 0;
    for item in items {
        len = len.saturating_add(text_len(item));
    }
    len
}

// Returns the number of bytes of a string after its tag.
fn string_len(bytes: &Octets) -> u64
    ensures { result ≡ min (length (string_text bytes.now)) u64.MAX }
{
    length_len(bytes.len()).saturating_add(bytes.len() as u64)
}

// Returns the number of bytes of the shortest form of a length.
fn length_len(count: usize) -> u64
    ensures { result ≡ length (length_text count) }
{
    match count {
        0..=0x7F => 1,
        0x80..=0xFF => 2,
        0x100..=0xFFFF => 3,
        0x1_0000..=0xFF_FFFF => 4,
        _ => 5,
    }
}
