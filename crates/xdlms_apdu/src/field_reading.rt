//! Readers of numbers, of lengths and of the parts of the services.
ghost use Rattle.std.specs.Prelude.{◌≡◌};
ghost use Rattle.wire_bytes.specs.Format.{◌&◌};
ghost use Rattle.cosem_axdr.specs.Formats.{count_read};
ghost use Rattle.xdlms_apdu.specs.Parts.{Reads, flag_part, number_part, raw_part, data_part};
ghost use Rattle.xdlms_apdu.specs.Parts.{byte_part, invoke_id_part, code_part, class_part, name_part};
ghost use Rattle.xdlms_apdu.specs.Parts.{attribute_part, method_part, selection_part, target_part};
ghost use Rattle.xdlms_apdu.specs.Parts.{parameter_part, block_part, result_part};

use crate::block::DataBlock;
use crate::choice;
use crate::fault::ApduFault;
use crate::invoke_id::InvokeId;
use byteorder::{BigEndian, ByteOrder};
use cosem_axdr::{Data, DataFault, Octets, number_of};
use cosem_names::{AttrRef, AttributeSelection, ClassId, GetResult, MethodRef, Obis, ResultCode};
use std::alloc::Global;
use wire_bytes::Cursor;

// Reads a byte as a boolean: false for 0, true for any other value.
pub(crate) fn read_flag(reader: &mut Cursor) -> Result<bool, ApduFault>
    ensures { Reads (λ flag. flag) result reader.new (flag_part.read reader.old) }
{
    Ok(reader.read_byte(ApduFault::Unreadable)? != 0)
}

// Reads a block number: four bytes, highest first.
pub(crate) fn read_block_number(reader: &mut Cursor) -> Result<u32, ApduFault>
    ensures { Reads (λ number. number) result reader.new (number_part.read reader.old) }
{
    Ok(BigEndian::read_u32(reader.read_bytes(4, ApduFault::Unreadable)?))
}

// Reads a length or count: one byte below 80 hex, or 81 to 84 hex followed by one to four bytes.
#[tactic(auto, unfolding(cosem_axdr::specs::Formats::count_read))]
pub(crate) fn read_length(reader: &mut Cursor) -> Result<usize, ApduFault>
    ensures { Reads (λ n. n) result reader.new (count_read ApduFault.Unreadable reader.old) }
{
    match reader.read_byte(ApduFault::Unreadable)? {
        short @ 0..=0x7F => Ok(usize::from(short)),
        form @ 0x81..=0x84 => Ok(number_of(reader.read_bytes(
            usize::from(form - 0x80),
            ApduFault::Unreadable,
        )?)),
        _ => Err(ApduFault::Unreadable),
    }
}

// Reads a length and that number of bytes into a newly allocated buffer.
pub(crate) fn read_raw(alloc: Global, reader: &mut Cursor) -> Result<Octets, ApduFault>
    ensures { Reads (λ raw. raw) result reader.new (raw_part.read reader.old) }
{
    let count = read_length(reader)?;
    Ok(Octets::from_slice(alloc, reader.read_bytes(count, ApduFault::Unreadable)?)?)
}

// Reads a Data. Its limit on bytes counts from its own tag.
pub(crate) fn read_data(alloc: Global, reader: &mut Cursor) -> Result<Data, ApduFault>
    ensures { Reads (λ value. value) result reader.new (data_part.read reader.old) }
{
    match cosem_axdr::read(alloc, reader.rest()) {
        Ok((value, count)) => {
            *reader = Cursor::new(&reader.rest()[count..]);
            Ok(value)
        }
        Err(DataFault::Memory) => Err(ApduFault::Memory),
        Err(_) => Err(ApduFault::Unreadable),
    }
}

// Reads an Invoke-Id-And-Priority.
pub(crate) fn read_invoke_id(reader: &mut Cursor) -> Result<InvokeId, ApduFault>
    ensures { Reads (λ id. id) result reader.new (invoke_id_part.read reader.old) }
{
    Ok(InvokeId(reader.read_byte(ApduFault::Unreadable)?))
}

// Reads a Data-Access-Result or an Action-Result.
pub(crate) fn read_code(reader: &mut Cursor) -> Result<ResultCode, ApduFault>
    ensures { Reads (λ code. code) result reader.new (code_part.read reader.old) }
{
    Ok(ResultCode::try_from(reader.read_byte(ApduFault::Unreadable)?)?)
}

// Reads a Cosem-Class-Id.
fn read_class(reader: &mut Cursor) -> Result<ClassId, ApduFault>
    ensures { Reads (λ class. class) result reader.new (class_part.read reader.old) }
{
    Ok(ClassId(BigEndian::read_u16(reader.read_bytes(2, ApduFault::Unreadable)?)))
}

// Reads a Cosem-Object-Instance-Id: a logical name, six bytes.
fn read_name(reader: &mut Cursor) -> Result<Obis, ApduFault>
    ensures { Reads (λ name. name) result reader.new (name_part.read reader.old) }
{
    Ok(Obis(reader.read_array(ApduFault::Unreadable)?))
}

// Reads an invoke-id-and-priority and the number of a block.
pub(crate) fn read_id_and_number(reader: &mut Cursor) -> Result<(InvokeId, u32), ApduFault>
    ensures { Reads (λ pair. pair) result reader.new
        ((invoke_id_part & number_part).read reader.old) }
{
    let id = read_invoke_id(reader)?;
    let number = read_block_number(reader)?;
    Ok((id, number))
}

// Reads a Cosem-Attribute-Descriptor.
pub(crate) fn read_attribute(reader: &mut Cursor) -> Result<AttrRef, ApduFault>
    ensures { Reads (λ attribute. attribute) result reader.new (attribute_part.read reader.old) }
{
    let (class, name, number) = read_descriptor(reader)?;
    Ok(AttrRef {
        class,
        name,
        number,
    })
}

// Reads a Cosem-Method-Descriptor.
pub(crate) fn read_method(reader: &mut Cursor) -> Result<MethodRef, ApduFault>
    ensures { Reads (λ method. method) result reader.new (method_part.read reader.old) }
{
    let (class, name, number) = read_descriptor(reader)?;
    Ok(MethodRef {
        class,
        name,
        number,
    })
}

// Reads a class, a logical name and the number of an attribute or a method.
fn read_descriptor(reader: &mut Cursor) -> Result<(ClassId, Obis, u8), ApduFault>
    ensures { Reads (λ d. (d.0, (d.1, d.2))) result reader.new
        ((class_part & name_part & byte_part).read reader.old) }
{
    let class = read_class(reader)?;
    let name = read_name(reader)?;
    let number = reader.read_byte(ApduFault::Unreadable)?;
    Ok((class, name, number))
}

// Reads an optional Selective-Access-Descriptor and returns whether it is present. Its selector
// and parameters are discarded.
pub(crate) fn read_selection(alloc: Global, reader: &mut Cursor) -> Result<bool, ApduFault>
    ensures { Reads (λ selected. selected) result reader.new (selection_part.read reader.old) }
{
    let selected = read_flag(reader)?;
    if selected {
        let _selector = reader.read_byte(ApduFault::Unreadable)?;
        drop(read_data(alloc, reader)?);
    }
    Ok(selected)
}

// Reads a Cosem-Attribute-Descriptor-With-Selection.
pub(crate) fn read_target(
    alloc: Global,
    reader: &mut Cursor,
) -> Result<AttributeSelection, ApduFault>
    ensures { Reads (λ target. target) result reader.new (target_part.read reader.old) }
{
    Ok(AttributeSelection {
        attr: read_attribute(reader)?,
        selected: read_selection(alloc, reader)?,
    })
}

// Reads the optional parameter of a method.
pub(crate) fn read_parameter(alloc: Global, reader: &mut Cursor) -> Result<Option<Data>, ApduFault>
    ensures { Reads (λ parameter. parameter) result reader.new (parameter_part.read reader.old) }
{
    Ok(if read_flag(reader)? {
        Some(read_data(alloc, reader)?)
    } else {
        None
    })
}

// Reads a DataBlock-SA.
pub(crate) fn read_block(alloc: Global, reader: &mut Cursor) -> Result<DataBlock, ApduFault>
    ensures { Reads (λ block. block) result reader.new (block_part.read reader.old) }
{
    Ok(DataBlock {
        last: read_flag(reader)?,
        number: read_block_number(reader)?,
        raw: read_raw(alloc, reader)?,
    })
}

// Reads a Get-Data-Result.
pub(crate) fn read_result(alloc: Global, reader: &mut Cursor) -> Result<GetResult, ApduFault>
    ensures { Reads (λ result. result) result reader.new (result_part.read reader.old) }
{
    match reader.read_byte(ApduFault::Unreadable)? {
        choice::DATA => Ok(GetResult::Value(read_data(alloc, reader)?)),
        choice::RESULT => Ok(GetResult::Code(read_code(reader)?)),
        _ => Err(ApduFault::Unreadable),
    }
}
