//! Checks that a Data is within the reader's limits, so that its encoding can be read back.
ghost use Rattle.std.specs.Prelude.{◌≡◌, ◌≤◌, ◌↔◌, IsTrue, length};
ghost use Rattle.cosem_axdr.specs.Limits.{bytes_for, without_unused_bits};
ghost use Rattle.cosem_axdr.specs.Tree.{trees_of, nesting, nests};
ghost use Rattle.cosem_axdr.specs.View.{tree_of, all_trees};
ghost use Rattle.cosem_axdr.specs.Spelling.{IsFit, IsFine, AreFine, IsWithin, AreWithin, IsBytes};

use crate::limits::{BITS_OF_BYTE, MAX_ITEMS, MAX_NESTING, MAX_TEXT, bytes_for};
use crate::measuring::text_len;
use crate::value::Data;

/// Returns whether a value is within the limits of a reader: at most 255 items in an array or
/// structure, at most eight arrays and structures nested in each other, exactly the bytes that each
/// bit-string needs with the unused bits 0, and a text of at most 8,192 bytes.
pub fn fits(value: &Data) -> bool
    ensures { IsTrue result ↔ IsFit (tree_of value.now) }
{
    is_flat(value, MAX_NESTING) && is_fine(value) && text_len(value) <= MAX_TEXT as u64
}

// Returns whether at most `levels` arrays and structures are nested in each other.
#[cycle(flatness)]
fn is_flat(value: &Data, levels: usize) -> bool
    ensures { IsTrue result ↔ (nesting (tree_of value.now) ≤ levels) }
{
    match value {
        Data::Array(items) => levels > 0 && are_flat(&items.items, levels - 1),
        Data::Structure(items) => levels > 0 && are_flat(&items.items, levels - 1),
        _ => true,
    }
}

// Returns whether `is_flat` holds for each item.
#[cycle(flatness)]
fn are_flat(items: &[Data], levels: usize) -> bool
    ensures { IsTrue result ↔ (nests (trees_of (all_trees items.now)) ≤ levels) }
{
    for item in items {
        if !is_flat(item, levels) {
            return false;
        }
    }
    true
}

// Returns whether no array or structure has more than 255 items and each bit-string has the bytes
// of its bits.
#[cycle(fineness)]
fn is_fine(value: &Data) -> bool
    ensures fine { IsTrue result ↔ IsFine (tree_of value.now) }
    ensures within { IsTrue result → IsWithin (tree_of value.now) }
{
    match value {
        Data::Null => true,
        Data::Boolean(_) => true,
        Data::Array(items) => items.len() <= MAX_ITEMS && are_fine(&items.items),
        Data::Structure(items) => items.len() <= MAX_ITEMS && are_fine(&items.items),
        Data::BitString { bits, bytes } => is_clear(*bits, bytes.as_slice()),
        Data::DoubleLong(number) => is_number(*number),
        Data::DoubleLongUnsigned(number) => is_number(*number),
        Data::Integer(number) => is_number(*number),
        Data::Long(number) => is_number(*number),
        Data::Unsigned(number) => is_number(*number),
        Data::LongUnsigned(number) => is_number(*number),
        Data::Long64(number) => is_number(*number),
        Data::Long64Unsigned(number) => is_number(*number),
        Data::Enum(number) => is_number(*number),
        Data::OctetString(bytes) => are_bytes(bytes.as_slice()),
        Data::VisibleString(bytes) => are_bytes(bytes.as_slice()),
        Data::Utf8String(bytes) => are_bytes(bytes.as_slice()),
        Data::DateTime(bytes) => is_array(*bytes),
        Data::Date(bytes) => is_array(*bytes),
        Data::Time(bytes) => is_array(*bytes),
    }
}

// Returns whether `is_fine` holds for each item.
#[cycle(fineness)]
fn are_fine(items: &[Data]) -> bool
    ensures fine { IsTrue result ↔ AreFine (trees_of (all_trees items.now)) }
    ensures within { IsTrue result → AreWithin (trees_of (all_trees items.now)) }
{
    for item in items {
        if !is_fine(item) {
            return false;
        }
    }
    true
}

// Returns whether a bit-string has exactly the bytes that its bits need, with the unused bits 0.
fn is_clear(bits: usize, bytes: &[u8]) -> bool
    ensures clear { IsTrue result ↔ (length bytes.now ≡ bytes_for bits)
        × (without_unused_bits bits bytes.now ≡ bytes.now) }
    ensures within { IsBytes bytes.now }
{
    if bytes.len() != bytes_for(bits) {
        return false;
    }
    let used = bits % BITS_OF_BYTE;
    if used == 0 {
        return true;
    }
    let unused = BITS_OF_BYTE - used;
    let last = bytes[bits / BITS_OF_BYTE];
    last >> unused << unused == last
}

// Returns true. Reading a number through a reference makes the range of its type known to the
// proof.
fn is_number<T: Drop>(_number: T) -> bool
    ensures { IsTrue result }
{
    true
}

// Returns true. Its contract makes known that the elements of a byte slice are below 256.
fn are_bytes(_bytes: &[u8]) -> bool
    ensures holds { IsTrue result }
    ensures within { IsBytes _bytes.now }
{
    true
}

// Returns true. Its contract makes known that an array has the length of its type.
fn is_array<const N: usize>(bytes: [u8; N]) -> bool
    ensures holds { IsTrue result }
    ensures len { length bytes.entry ≡ N }
    ensures within { IsBytes bytes.entry }
{
    true
}
