//! Which events fit a line. Each event that does is read back. These functions only look at an
//! event, and do not allocate.
ghost use Rattle.std.specs.Prelude.{◌↔◌, IfSome, IsTrue, ◌≡◌, ◌≤◌, length};
ghost use Rattle.hex.specs.Hex.{IsBytes};
ghost use Rattle.relay_events.specs.declared.event.Event.TheVariants as event;
ghost use Rattle.trace_lines.specs.Parts.{attribute_part, method_part, selection_part, sample_part};
ghost use Rattle.trace_lines.specs.Traced.{FitsLine, IsNamed, IsTraced};
ghost use Rattle.trace_words.specs.Parts.{Each};
ghost use Rattle.trace_words.specs.Writing.{IsHeld};

use crate::items::MAX_ITEMS;
use cosem_axdr::{Data, fits};
use cosem_names::{AttrRef, AttributeSelection, MethodRef};
use lane_sampler::Block;
use relay_events::Event;

/// Returns whether an event is within the limits of a line: a list has at most 102 attributes, and
/// [`cosem_axdr::fits`] accepts a value or a parameter. All other events are within the limits.
pub fn fits_line(event: &Event) -> bool
    ensures { IsTrue result ↔ FitsLine event.now }
{
    match event {
        Event::GetList { items, .. } => items.len() <= MAX_ITEMS,
        Event::Set { value, .. } => is_held(value),
        Event::Execute { parameter, .. } => is_parameter_held(parameter),
        _ => true,
    }
}

// Returns whether a value is within the limits of a written Data.
fn is_held(value: &Data) -> bool
    ensures { IsTrue result ↔ IsHeld value.now }
{
    fits(value)
}

// Returns whether a parameter, if there is one, is within the limits of a written Data.
fn is_parameter_held(parameter: &Option<Data>) -> bool
    ensures { IsTrue result ↔ IfSome parameter.now IsHeld }
{
    match parameter {
        Some(value) => is_held(value),
        None => true,
    }
}

/// Proves that the numbers of an event are in the ranges of their types, so an event that fits
/// a line is read back from it.
#[tactic(auto, unfolding(crate::specs::Traced::IsTraced))]
pub fn event_is_traced(event: &Event)
    ensures { FitsLine event.now → IsTraced event.now }
{
    match event {
        Event::Get { attr, .. } => attribute_is_named(attr),
        Event::GetList { items, .. } => attributes_are_named(items.as_slice()),
        Event::Set { attr, .. } => attribute_is_named(attr),
        Event::Execute { method, .. } => method_is_named(method),
        Event::Samples(block) => block_is_traced(block),
        Event::Moment(now) => look_at(*now),
        _ => {}
    }
}

// Proves that the numbers and the bytes of an event's names are in the ranges of their types.
pub(crate) fn event_is_named(event: &Event)
    ensures { IsNamed event.now }
{
    match event {
        Event::Get { attr, .. } => attribute_is_named(attr),
        Event::GetList { items, .. } => {
            let items = items.as_slice();
            attributes_are_named(items);
        }
        Event::Set { attr, .. } => attribute_is_named(attr),
        Event::Execute { method, .. } => method_is_named(method),
        _ => {}
    }
}

// Proves, by a read, that a borrowed number is in the range of its type.
fn look_at(_number: u32) {}

// Proves that the numbers and the bytes of an attribute are in the ranges of their types.
fn attribute_is_named(attr: &AttrRef)
    ensures { attribute_part.Fits attr.now }
{
    is_named(attr.class.0, attr.name.0, attr.number);
}

// Proves that the numbers and the bytes of a method are in the ranges of their types.
fn method_is_named(method: &MethodRef)
    ensures { method_part.Fits method.now }
{
    is_named(method.class.0, method.name.0, method.number);
}

// Proves that a class_id, a logical name and a number are in the ranges of their types.
fn is_named(_class: u16, _name: [u8; 6], _number: u8)
    ensures { (_class ≤ 65535) × ((length _name ≡ 6) × IsBytes _name) × (_number ≤ 255) }
{}

// Proves that the numbers and the bytes of attributes are in the ranges of their types.
fn attributes_are_named(items: &[AttributeSelection])
    ensures { Each selection_part.Fits items.now }
{
    'items: for item in items {
        attribute_is_named(&item.attr);
    }
}

// Proves that samples are numbers of 32 bits.
#[tactic(auto, using(crate::proofs::Ranges::samples_in_range))]
fn are_samples(_values: &[u32])
    ensures { Each sample_part.Fits _values.now }
{}

// Proves that a block of samples is read back from its line.
#[tactic(auto, unfolding(crate::specs::Traced::IsTraced), using(crate::proofs::Ranges::pairs_fit))]
fn block_is_traced(block: &Block)
    ensures { IsTraced (event.Samples block.now) }
{
    are_samples(block.values());
    match block.export() {
        Some(values) => are_samples(values),
        None => {}
    }
}
