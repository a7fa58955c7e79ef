//! Reads a Data from A-XDR (IEC 62056-5-3): up to eight nested arrays and structures, first fault
//! from the left.
ghost use Rattle.std.specs.Prelude.{◌≡◌, ◌≤◌, ℕ, length, take, IfOk, MatchResult};
ghost use Rattle.cosem_axdr.specs.Spelling.{IsSpelling};
ghost use Rattle.cosem_axdr.specs.View.{tree_of};
ghost use Rattle.cosem_axdr.specs.declared.value.Data.{Data};
ghost use Rattle.wire_bytes.specs.Outcome.{Gives};
ghost use Rattle.wire_bytes.specs.Format.{items_read};
ghost use Rattle.cosem_axdr.specs.Reading.{Reads, string_at, bits_at, fixed_at, leaf_at, nested_at, value_at, first_data};

use crate::fault::DataFault;
use crate::limits::{MAX_ITEMS, MAX_NESTING, bytes_for, clear_unused};
use crate::reader::DataReader;
use crate::tag;
use crate::value::{Data, Items};
use std::alloc::Global;
use wire_bytes::Octets;

/// Reads the Data at the front of bytes and returns it with the number of bytes it occupies.
///
/// Bytes are read from left to right, and the first fault found is returned: `TooLong` if a byte
/// past the 8,192nd is needed, then `Truncated` if one past the end is. All the bytes of a number,
/// of a string's length or of its contents are requested at once. Returns `Memory` if out of
/// memory.
pub fn read(alloc: Global, bytes: &[u8]) -> Result<(Data, usize), DataFault>
    // The bytes that a Data occupies spell it.
    ensures found { IfOk result (λ read. (read.1 ≤ length bytes.now)
        × IsSpelling (take read.1 bytes.now) (tree_of read.0)) }
    // If the bytes begin with a spelling of a value, that value is read, unless out of memory.
    ensures unique { (d : Data) (n : ℕ) → n ≤ length bytes.now
        → IsSpelling (take n bytes.now) (tree_of d)
        → MatchResult result (λ read. (read.0 ≡ d)
        × (read.1 ≡ n)) (λ fault. fault ≡ DataFault.Memory) }
    // The fault is that of the definition, or out of memory.
    ensures exact { Gives DataFault.Memory (λ read. read) result (first_data bytes.now) }
{
    read_first(alloc, bytes)
}

// Reads a Data as `read` does; its contract refers to the definition `first_data` alone.
#[tactic(auto, unfolding(crate::specs::Reading::first_data))]
fn read_first(alloc: Global, bytes: &[u8]) -> Result<(Data, usize), DataFault>
    ensures { Gives DataFault.Memory (λ read. read) result (first_data bytes.now) }
{
    let mut reader = DataReader::new(bytes);
    let value = read_value(alloc, MAX_NESTING, &mut reader)?;
    Ok((value, bytes.len() - reader.remaining()))
}

// Reads a value in which at most `levels` arrays and structures may still be nested.
#[cycle(reading)]
#[tactic(auto, unfolding(crate::specs::Reading::value_at))]
fn read_value(alloc: Global, levels: usize, reader: &mut DataReader) -> Result<Data, DataFault>
    ensures { Reads (λ value. value) result reader.new (value_at (nested_at levels) reader.old) }
{
    match reader.read_byte()? {
        tag::ARRAY => Ok(Data::Array(read_counted(alloc, levels, reader)?)),
        tag::STRUCTURE => Ok(Data::Structure(read_counted(alloc, levels, reader)?)),
        tag => read_leaf(alloc, tag, reader),
    }
}

// Reads the number of items and the items. If no level is left, returns `TooDeep` before the count
// is read.
#[cycle(reading)]
#[tactic(auto, unfolding(crate::specs::Reading::nested_at, crate::specs::Reading::counted_at))]
fn read_counted(alloc: Global, levels: usize, reader: &mut DataReader) -> Result<Items, DataFault>
    ensures { Reads (λ items. items) result reader.new (nested_at levels reader.old) }
{
    if levels == 0 {
        return Err(DataFault::TooDeep);
    }
    let count = reader.read_length()?;
    if count > MAX_ITEMS {
        return Err(DataFault::TooLong);
    }
    Ok(Items::from_vec(read_items(alloc, levels - 1, count, reader)?))
}

// Reads `count` consecutive values.
#[cycle(reading)]
#[tactic(auto, using(wire_bytes::proofs::Items::item_loops))]
fn read_items(
    alloc: Global,
    levels: usize,
    count: usize,
    reader: &mut DataReader,
) -> Result<Vec<Data>, DataFault>
    ensures { Reads (λ items. items.items) result reader.new
        (items_read (value_at (nested_at levels)) count reader.old) }
{
    let mut items = Vec::new(alloc);
    'items: for _ in 0..count {
        items.push(read_value(alloc, levels, reader)?)?;
    }
    Ok(items)
}

// Reads the value of a tag that has no items.
#[tactic(auto, unfolding(crate::specs::Reading::leaf_at))]
fn read_leaf(alloc: Global, tag: u8, reader: &mut DataReader) -> Result<Data, DataFault>
    ensures { Reads (λ value. value) result reader.new (leaf_at tag reader.old) }
{
    match tag {
        tag::BIT_STRING => read_bits(alloc, reader),
        tag::OCTET_STRING => Ok(Data::OctetString(read_string(alloc, reader)?)),
        tag::VISIBLE_STRING => Ok(Data::VisibleString(read_string(alloc, reader)?)),
        tag::UTF8_STRING => Ok(Data::Utf8String(read_string(alloc, reader)?)),
        tag => read_fixed(tag, reader),
    }
}

// Reads a value of fixed length, by its tag.
#[tactic(auto, unfolding(crate::specs::Reading::fixed_at))]
fn read_fixed(tag: u8, reader: &mut DataReader) -> Result<Data, DataFault>
    ensures { Reads (λ value. value) result reader.new (fixed_at tag reader.old) }
{
    Ok(match tag {
        tag::NULL_DATA => Data::Null,
        tag::BOOLEAN => Data::Boolean(reader.read_byte()? != 0),
        tag::DOUBLE_LONG => Data::DoubleLong(reader.read_u32()?.cast_signed()),
        tag::DOUBLE_LONG_UNSIGNED => Data::DoubleLongUnsigned(reader.read_u32()?),
        tag::INTEGER => Data::Integer(reader.read_byte()?.cast_signed()),
        tag::LONG => Data::Long(reader.read_u16()?.cast_signed()),
        tag::UNSIGNED => Data::Unsigned(reader.read_byte()?),
        tag::LONG_UNSIGNED => Data::LongUnsigned(reader.read_u16()?),
        tag::LONG64 => Data::Long64(reader.read_u64()?.cast_signed()),
        tag::LONG64_UNSIGNED => Data::Long64Unsigned(reader.read_u64()?),
        tag::ENUM => Data::Enum(reader.read_byte()?),
        tag::DATE_TIME => Data::DateTime(reader.read_array()?),
        tag::DATE => Data::Date(reader.read_array()?),
        tag::TIME => Data::Time(reader.read_array()?),
        _ => return Err(DataFault::UnknownTag),
    })
}

// Reads a string into a newly allocated buffer.
fn read_string(alloc: Global, reader: &mut DataReader) -> Result<Octets, DataFault>
    ensures { Reads (λ octets. octets) result reader.new (string_at reader.old) }
{
    Ok(Octets::from_slice(alloc, reader.read_string()?)?)
}

// Reads a bit-string and sets its unused bits to 0.
#[tactic(auto, unfolding(crate::specs::Reading::bits_at))]
fn read_bits(alloc: Global, reader: &mut DataReader) -> Result<Data, DataFault>
    ensures { Reads (λ value. value) result reader.new (bits_at reader.old) }
{
    let bits = reader.read_length()?;
    let mut bytes = Vec::from_slice(alloc, reader.read_bytes(bytes_for(bits))?)?;
    clear_unused(bits, bytes.as_mut_slice());
    Ok(Data::BitString {
        bits,
        bytes: Octets::from_vec(bytes),
    })
}
