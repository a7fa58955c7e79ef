//! Reads attributes and methods from the words of a line, for GET, SET and ACTION events.
ghost use Rattle.wire_bytes.specs.Format.{items_read};
ghost use Rattle.trace_words.specs.Rows.{Reads};
ghost use Rattle.trace_words.specs.Parts.{counted_items};
ghost use Rattle.trace_lines.specs.Parts.{attribute_part, method_part, selection_part};

use crate::words::{next_byte, next_name};
use cosem_names::{AttrRef, AttributeSelection, ClassId, MethodRef};
use std::alloc::Global;
use text_lines::Words;
use trace_words::{RowFault, next_long, next_word, parse_flag, parse_number};

/// The maximum number of items of a GET with list.
pub const MAX_ITEMS: usize = 102;

// Reads an attribute: class, name, number.
fn next_attribute(words: &mut Words) -> Result<AttrRef, RowFault>
    ensures { Reads (λ attr. attr) result words.new (attribute_part.read words.old) }
{
    let class = ClassId(next_long(words)?);
    let name = next_name(words)?;
    let number = next_byte(words)?;
    Ok(AttrRef {
        class,
        name,
        number,
    })
}

// Reads a method: class, name, number.
pub(crate) fn next_method(words: &mut Words) -> Result<MethodRef, RowFault>
    ensures { Reads (λ method. method) result words.new (method_part.read words.old) }
{
    let class = ClassId(next_long(words)?);
    let name = next_name(words)?;
    let number = next_byte(words)?;
    Ok(MethodRef {
        class,
        name,
        number,
    })
}

// Reads an attribute, and whether a part of it is requested (selective access).
pub(crate) fn next_selection(words: &mut Words) -> Result<AttributeSelection, RowFault>
    ensures { Reads (λ item. item) result words.new (selection_part.read words.old) }
{
    let attr = next_attribute(words)?;
    let selected = parse_flag(next_word(words)?)?;
    Ok(AttributeSelection { attr, selected })
}

// Reads a number of attributes, at most 102, and the attributes.
pub(crate) fn read_selections(
    alloc: Global,
    words: &mut Words,
) -> Result<Vec<AttributeSelection>, RowFault>
    ensures { Reads (λ items. items.items) result words.new
        ((counted_items MAX_ITEMS selection_part).read words.old) }
{
    let count = parse_number(next_word(words)?, MAX_ITEMS as u32)?;
    read_selection_items(alloc, count as usize, words)
}

// Reads `count` attributes.
#[tactic(auto, using(wire_bytes::proofs::Items::item_loops))]
fn read_selection_items(
    alloc: Global,
    count: usize,
    words: &mut Words,
) -> Result<Vec<AttributeSelection>, RowFault>
    ensures { Reads (λ items. items.items) result words.new
        (items_read selection_part.read count words.old) }
{
    let mut items = Vec::new(alloc);
    'items: for _ in 0..count {
        items.push(next_selection(words)?)?;
    }
    Ok(items)
}
