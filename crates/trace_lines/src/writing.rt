//! Appends the words of an event's line: ports, attributes, methods, parameters and samples.
ghost use Rattle.std.specs.Prelude.{◌≡◌, ◌++◌, OnOk, length};
ghost use Rattle.text_lines.specs.Lines.{IsPlain};
ghost use Rattle.trace_words.specs.Parts.{words_before};
ghost use Rattle.trace_words.specs.Writing.{words_after_blanks, all_words};
ghost use Rattle.trace_lines.specs.Parts.{level_part, attribute_part, method_part, selection_part, parameter_part, sample_part, pairs_words};
ghost use Rattle.trace_lines.specs.Reading.{parameter_word};

use cosem_axdr::Data;
use cosem_names::{AttrRef, AttributeSelection, Level, MethodRef};
use std::alloc::{AllocError, Global};
use text_lines::{add_hex, add_number, add_word};
use trace_words::{add_data, add_flag};

// Appends the port of a client.
pub(crate) fn add_level(out: &mut Vec<u8>, level: Level) -> Result<(), AllocError>
    ensures { OnOk result (out.new.items ≡ out.old.items
        ++ words_after_blanks (level_part.text level)) }
{
    add_number(
        out,
        match level {
            Level::Management => 1,
            Level::Public => 16,
        },
    )
}

// Appends an attribute: class, name, number.
pub(crate) fn add_attribute(
    alloc: Global,
    out: &mut Vec<u8>,
    attr: &AttrRef,
) -> Result<(), AllocError>
    ensures { OnOk result (out.new.items ≡ out.old.items
        ++ words_after_blanks (attribute_part.text attr.now)) }
{
    add_number(out, u64::from(attr.class.0))?;
    add_hex(alloc, out, attr.name.0.as_slice())?;
    add_number(out, u64::from(attr.number))
}

// Appends a method: class, name, number.
pub(crate) fn add_method(
    alloc: Global,
    out: &mut Vec<u8>,
    method: &MethodRef,
) -> Result<(), AllocError>
    ensures { OnOk result (out.new.items ≡ out.old.items
        ++ words_after_blanks (method_part.text method.now)) }
{
    add_number(out, u64::from(method.class.0))?;
    add_hex(alloc, out, method.name.0.as_slice())?;
    add_number(out, u64::from(method.number))
}

// Appends an attribute, and whether a part of it is requested (selective access).
fn add_selection(
    alloc: Global,
    out: &mut Vec<u8>,
    item: &AttributeSelection,
) -> Result<(), AllocError>
    ensures { OnOk result (out.new.items ≡ out.old.items
        ++ words_after_blanks (selection_part.text item.now)) }
{
    add_attribute(alloc, out, &item.attr)?;
    add_flag(out, item.selected)
}

// Appends several attributes, each with whether a part of it is requested.
pub(crate) fn add_selections(
    alloc: Global,
    out: &mut Vec<u8>,
    items: &[AttributeSelection],
) -> Result<(), AllocError>
    ensures { OnOk result (out.new.items ≡ out.old.items
        ++ words_after_blanks (all_words (words_before selection_part) items.now)) }
{
    for item in items {
        add_selection(alloc, out, item)?;
    }
    Ok(())
}

// Appends a parameter, or `-` for none.
pub(crate) fn add_parameter(
    alloc: Global,
    out: &mut Vec<u8>,
    parameter: &Option<Data>,
) -> Result<(), AllocError>
    ensures ok { OnOk result (out.new.items ≡ out.old.items
        ++ words_after_blanks (parameter_part.text parameter.now)) }
    ensures plain { OnOk result (IsPlain (parameter_word parameter.now)) }
{
    match parameter {
        Some(value) => add_data(alloc, out, value),
        None => add_word(out, b"-"),
    }
}

// Appends samples.
pub(crate) fn add_values(out: &mut Vec<u8>, values: &[u32]) -> Result<(), AllocError>
    ensures { OnOk result (out.new.items ≡ out.old.items
        ++ words_after_blanks (all_words (words_before sample_part) values.now)) }
{
    for value in values {
        add_number(out, u64::from(*value))?;
    }
    Ok(())
}

// Appends pairs of samples.
pub(crate) fn add_pairs(
    out: &mut Vec<u8>,
    imports: &[u32],
    exports: &[u32],
) -> Result<(), AllocError>
    requires { length imports.now ≡ length exports.now }
    ensures { OnOk result (out.new.items ≡ out.old.items
        ++ words_after_blanks (pairs_words imports.now exports.now)) }
{
    for i in 0..imports.len() {
        add_number(out, u64::from(imports[i]))?;
        add_number(out, u64::from(exports[i]))?;
    }
    Ok(())
}
