//! Writers of the parts of the services.
ghost use Rattle.std.specs.Prelude.{◌≡◌, ◌++◌, OnOk, OnErr};
ghost use Rattle.cosem_axdr.specs.Appending.{Extends};
ghost use Rattle.wire_bytes.specs.Format.{◌&◌};
ghost use Rattle.xdlms_apdu.specs.Parts.{byte_part, flag_part, number_part, raw_part, class_part};
ghost use Rattle.xdlms_apdu.specs.Parts.{name_part, attribute_part, method_part, selection_part};
ghost use Rattle.xdlms_apdu.specs.Parts.{target_part, parameter_part, block_part, result_part};

use crate::block::DataBlock;
use crate::choice;
use crate::field_value::{ABSENT, PRESENT};
use byteorder::{BigEndian, ByteOrder};
use cosem_axdr::{Data, Octets, append_length};
use cosem_names::{AttrRef, AttributeSelection, ClassId, GetResult, MethodRef, Obis};
use std::alloc::AllocError;

// Appends a flag: 01 for true, 00 for false.
fn put_flag(flag: bool, out: &mut Octets) -> Result<(), AllocError>
    ensures ok { OnOk result (out.new ≡ out.old ++ flag_part.text flag) }
    ensures unchanged_on_error { OnErr result (out.new ≡ out.old) }
{
    out.push(u8::from(flag))
}

// Appends the number of a block.
pub(crate) fn put_number(number: u32, out: &mut Octets) -> Result<(), AllocError>
    ensures ok { OnOk result (out.new ≡ out.old ++ number_part.text number) }
    ensures unchanged_on_error { OnErr result (out.new ≡ out.old) }
{
    let mut text = [0; 4];
    BigEndian::write_u32(&mut text, number);
    out.extend_from_slice(&text)
}

// Appends the length of bytes, followed by the bytes.
#[tactic(auto, using(cosem_axdr::proofs::Appending::extends_same, cosem_axdr::proofs::Appending::extends_more))]
pub(crate) fn put_raw(raw: &Octets, out: &mut Octets) -> Result<(), AllocError>
    ensures ok { OnOk result (out.new ≡ out.old ++ raw_part.text raw.now) }
    ensures extends { OnErr result (Extends out.old out.new) }
{
    append_length(raw.len(), out)?;
    out.extend_from_slice(raw.as_slice())
}

// Appends a Cosem-Attribute-Descriptor.
pub(crate) fn put_attribute(attribute: &AttrRef, out: &mut Octets) -> Result<(), AllocError>
    ensures ok { OnOk result (out.new ≡ out.old ++ attribute_part.text attribute.now) }
    ensures extends { OnErr result (Extends out.old out.new) }
{
    put_descriptor(attribute.class, attribute.name, attribute.number, out)
}

// Appends a Cosem-Method-Descriptor.
pub(crate) fn put_method(method: &MethodRef, out: &mut Octets) -> Result<(), AllocError>
    ensures { OnOk result (out.new ≡ out.old ++ method_part.text method.now) }
{
    put_descriptor(method.class, method.name, method.number, out)
}

// Appends a class, a logical name and the number of an attribute or a method.
#[tactic(auto, using(cosem_axdr::proofs::Appending::extends_same, cosem_axdr::proofs::Appending::extends_more))]
fn put_descriptor(
    class: ClassId,
    name: Obis,
    number: u8,
    out: &mut Octets,
) -> Result<(), AllocError>
    ensures ok { OnOk result (out.new ≡ out.old
        ++ (class_part & name_part & byte_part).text (class, (name, number))) }
    ensures extends { OnErr result (Extends out.old out.new) }
{
    let mut class_text = [0; 2];
    BigEndian::write_u16(&mut class_text, class.0);
    out.extend_from_slice(&class_text)?;
    out.extend_from_slice(&name.0)?;
    out.push(number)
}

// Appends an optional Selective-Access-Descriptor: if it is present, selector 0 with null-data as
// its parameters.
#[tactic(auto, using(cosem_axdr::proofs::Appending::extends_same, cosem_axdr::proofs::Appending::extends_more))]
pub(crate) fn put_selection(selected: bool, out: &mut Octets) -> Result<(), AllocError>
    ensures ok { OnOk result (out.new ≡ out.old ++ selection_part.text selected) }
    ensures extends { OnErr result (Extends out.old out.new) }
{
    if selected {
        out.extend_from_slice(&[PRESENT, NO_SELECTOR, NULL_DATA])
    } else {
        out.push(ABSENT)
    }
}

// Marks selective access as absent.
const NO_SELECTOR: u8 = 0;

// The tag of null-data.
const NULL_DATA: u8 = 0;

// Appends a Cosem-Attribute-Descriptor-With-Selection.
#[tactic(auto, using(cosem_axdr::proofs::Appending::extends_same, cosem_axdr::proofs::Appending::extends_more))]
pub(crate) fn put_target(target: &AttributeSelection, out: &mut Octets) -> Result<(), AllocError>
    ensures ok { OnOk result (out.new ≡ out.old ++ target_part.text target.now) }
    ensures extends { OnErr result (Extends out.old out.new) }
{
    put_attribute(&target.attr, out)?;
    put_selection(target.selected, out)
}

// Appends the optional parameter of a method.
pub(crate) fn put_parameter(parameter: &Option<Data>, out: &mut Octets) -> Result<(), AllocError>
    ensures { OnOk result (out.new ≡ out.old ++ parameter_part.text parameter.now) }
{
    match parameter {
        Some(value) => {
            out.push(PRESENT)?;
            cosem_axdr::append(value, out)
        }
        None => out.push(ABSENT),
    }
}

// Appends a DataBlock-SA.
pub(crate) fn put_block(block: &DataBlock, out: &mut Octets) -> Result<(), AllocError>
    ensures { OnOk result (out.new ≡ out.old ++ block_part.text block.now) }
{
    put_flag(block.last, out)?;
    put_number(block.number, out)?;
    put_raw(&block.raw, out)
}

// Appends a Get-Data-Result.
#[tactic(auto, using(cosem_axdr::proofs::Appending::extends_same, cosem_axdr::proofs::Appending::extends_more))]
pub(crate) fn put_result(outcome: &GetResult, out: &mut Octets) -> Result<(), AllocError>
    ensures ok { OnOk result (out.new ≡ out.old ++ result_part.text outcome.now) }
    ensures extends { OnErr result (Extends out.old out.new) }
{
    match outcome {
        GetResult::Value(value) => {
            out.push(choice::DATA)?;
            cosem_axdr::append(value, out)
        }
        GetResult::Code(code) => {
            out.push(choice::RESULT)?;
            out.push(code.code())
        }
    }
}
