//! Writes a Data in A-XDR (IEC 62056-5-3), with each length in its shortest form.
ghost use Rattle.std.specs.Prelude.{◌≡◌, ◌++◌, OnOk, OnErr};
ghost use Rattle.byteorder.specs.Endian.{big_bytes};
ghost use Rattle.cosem_axdr.specs.Appending.{Extends};
ghost use Rattle.cosem_axdr.specs.Tree.{trees_of, count_of};
ghost use Rattle.cosem_axdr.specs.View.{tree_of, all_trees};
ghost use Rattle.cosem_axdr.specs.Spelling.{text, texts, contents_text, length_text, string_text};

use crate::length::append_length;
use crate::tag::tag_of;
use crate::value::Data;
use byteorder::{BigEndian, ByteOrder};
use std::alloc::{AllocError, Global};
use wire_bytes::Octets;

/// Appends the text of a value to `out`, with each length in its shortest form. If out of memory,
/// appends nothing.
///
/// A value that exceeds the limits of a reader is written in full; a length or count of 2^32 or
/// more is written as its lowest four bytes.
pub fn write(alloc: Global, value: &Data, out: &mut Octets) -> Result<(), AllocError>
    ensures ok { OnOk result (out.new ≡ out.old ++ text (tree_of value.now)) }
    ensures err { OnErr result (out.new ≡ out.old) }
{
    let mut text = Octets::new(alloc);
    put_value(value, &mut text)?;
    out.extend_from_slice(text.as_slice())
}

/// Appends the text that [`write`] appends, in place: only the growth of `out` allocates. If out of
/// memory, appends nothing.
#[tactic(auto, using(crate::proofs::Appending::earlier_again))]
pub fn append(value: &Data, out: &mut Octets) -> Result<(), AllocError>
    ensures ok { OnOk result (out.new ≡ out.old ++ text (tree_of value.now)) }
    ensures unchanged_on_error { OnErr result (out.new ≡ out.old) }
{
    let before = out.len();
    let done = put_value(value, out);
    if done.is_err() {
        out.truncate(before);
    }
    done
}

// Appends a value: its tag, followed by its contents.
#[cycle(writing)]
#[tactic(auto, using(crate::proofs::Appending::extends_same, crate::proofs::Appending::extends_more))]
fn put_value(value: &Data, out: &mut Octets) -> Result<(), AllocError>
    ensures ok { OnOk result (out.new ≡ out.old ++ text (tree_of value.now)) }
    ensures extends { OnErr result (Extends out.old out.new) }
{
    out.push(tag_of(value))?;
    put_contents(value, out)
}

// Appends the contents of a value, which follow its tag.
#[cycle(writing)]
#[tactic(auto, using(crate::proofs::Appending::extends_same, crate::proofs::Appending::extends_more))]
fn put_contents(value: &Data, out: &mut Octets) -> Result<(), AllocError>
    ensures ok { OnOk result (out.new ≡ out.old ++ contents_text (tree_of value.now)) }
    ensures extends { OnErr result (Extends out.old out.new) }
{
    match value {
        Data::Null => Ok(()),
        Data::Array(items) => put_counted(&items.items, out),
        Data::Structure(items) => put_counted(&items.items, out),
        Data::Boolean(value) => out.push(u8::from(*value)),
        Data::BitString { bits, bytes } => {
            append_length(*bits, out)?;
            out.extend_from_slice(bytes.as_slice())
        }
        Data::DoubleLong(value) => put_u32(value.cast_unsigned(), out),
        Data::DoubleLongUnsigned(value) => put_u32(*value, out),
        Data::OctetString(bytes) => put_string(bytes, out),
        Data::VisibleString(bytes) => put_string(bytes, out),
        Data::Utf8String(bytes) => put_string(bytes, out),
        Data::Integer(value) => out.push(value.cast_unsigned()),
        Data::Long(value) => put_u16(value.cast_unsigned(), out),
        Data::Unsigned(value) => out.push(*value),
        Data::LongUnsigned(value) => put_u16(*value, out),
        Data::Long64(value) => put_u64(value.cast_unsigned(), out),
        Data::Long64Unsigned(value) => put_u64(*value, out),
        Data::Enum(value) => out.push(*value),
        Data::DateTime(bytes) => out.extend_from_slice(bytes),
        Data::Date(bytes) => out.extend_from_slice(bytes),
        Data::Time(bytes) => out.extend_from_slice(bytes),
    }
}

// Appends the number of items, followed by the items.
#[cycle(writing)]
#[tactic(auto, using(crate::proofs::Appending::extends_same, crate::proofs::Appending::extends_more))]
fn put_counted(items: &[Data], out: &mut Octets) -> Result<(), AllocError>
    ensures ok { let ts = trees_of (all_trees items.now)
        in OnOk result (out.new ≡ out.old ++ (length_text (count_of ts) ++ texts ts)) }
    ensures extends { OnErr result (Extends out.old out.new) }
{
    append_length(items.len(), out)?;
    for item in items {
        put_value(item, out)?;
    }
    Ok(())
}

// Appends the length of a string, followed by its bytes.
#[tactic(auto, using(crate::proofs::Appending::extends_same, crate::proofs::Appending::extends_more))]
fn put_string(bytes: &Octets, out: &mut Octets) -> Result<(), AllocError>
    ensures ok { OnOk result (out.new ≡ out.old ++ string_text bytes.now) }
    ensures extends { OnErr result (Extends out.old out.new) }
{
    append_length(bytes.len(), out)?;
    out.extend_from_slice(bytes.as_slice())
}

// Appends a number of two bytes, the highest first.
fn put_u16(number: u16, out: &mut Octets) -> Result<(), AllocError>
    ensures ok { OnOk result (out.new ≡ out.old ++ big_bytes 2 number) }
    ensures unchanged_on_error { OnErr result (out.new ≡ out.old) }
{
    let mut text = [0; 2];
    BigEndian::write_u16(&mut text, number);
    out.extend_from_slice(&text)
}

// Appends a number of four bytes, the highest first.
fn put_u32(number: u32, out: &mut Octets) -> Result<(), AllocError>
    ensures ok { OnOk result (out.new ≡ out.old ++ big_bytes 4 number) }
    ensures unchanged_on_error { OnErr result (out.new ≡ out.old) }
{
    let mut text = [0; 4];
    BigEndian::write_u32(&mut text, number);
    out.extend_from_slice(&text)
}

// Appends a number of eight bytes, the highest first.
fn put_u64(number: u64, out: &mut Octets) -> Result<(), AllocError>
    ensures ok { OnOk result (out.new ≡ out.old ++ big_bytes 8 number) }
    ensures unchanged_on_error { OnErr result (out.new ≡ out.old) }
{
    let mut text = [0; 8];
    BigEndian::write_u64(&mut text, number);
    out.extend_from_slice(&text)
}
