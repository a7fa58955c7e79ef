//! Reads an event from the words of a line, by its first word.
ghost use Rattle.std.specs.Prelude.{◌≡◌, IfOk, map};
ghost use Rattle.wire_bytes.specs.Choice.{keyed_read};
ghost use Rattle.wire_bytes.specs.Format.{◌&◌};
ghost use Rattle.wire_bytes.specs.Outcome.{Gives};
ghost use Rattle.wire_bytes.specs.Reading.{read_as};
ghost use Rattle.lane_sampler.specs.Samples.{values_alone, pairs_of};
ghost use Rattle.relay_events.specs.declared.event.Event.TheVariants as event;
ghost use Rattle.text_lines.specs.Words.{words_of};
ghost use Rattle.trace_lines.specs.Events.{event_forms, later_forms, event_of, max_items};
ghost use Rattle.trace_lines.specs.Parts.{level_part, method_part, selection_part, parameter_part, sample_part, pair_part};
ghost use Rattle.trace_lines.specs.Reading.{parameter_in};
ghost use Rattle.trace_words.specs.Parts.{number_part, data_part, counted_items, items_to_end, same_word};
ghost use Rattle.trace_words.specs.Rows.{Reads};
ghost use Rattle.trace_words.specs.declared.fault.RowFault.TheVariants.{Memory};

use crate::items::{next_method, next_selection, read_selections};
use crate::samples::{read_pairs, read_values};
use crate::words::parse_level;
use cosem_axdr::Data;
use cosem_names::Level;
use lane_sampler::{Block, BlockMade};
use relay_events::Event;
use std::alloc::{AllocError, Global};
use text_lines::Words;
use trace_words::{RowFault, Version, expect_end, next_word, parse_data, parse_number};
use wire_bytes::Listed;

// Reads the next word as the port of a client.
fn next_level(words: &mut Words) -> Result<Level, RowFault>
    ensures { Reads (λ level. level) result words.new (level_part.read words.old) }
{
    parse_level(next_word(words)?)
}

// Reads the words of a GET after the first: the client's port, the attribute, and whether a part of
// it is requested.
fn read_get(words: &mut Words) -> Result<Event, RowFault>
    ensures { Reads (λ event. event) result words.new
        (read_as (λ p. event.Get p.0 p.1.attr p.1.selected)
        ((level_part & selection_part).read words.old)) }
{
    let level = next_level(words)?;
    let item = next_selection(words)?;
    Ok(Event::Get {
        level,
        attr: item.attr,
        selected: item.selected,
    })
}

// Reads the words of a GET with list after the first: the client's port, the number of attributes
// and the attributes.
fn read_get_list(alloc: Global, words: &mut Words) -> Result<Event, RowFault>
    ensures { Reads (λ event. event) result words.new
        (read_as (λ p. event.GetList p.0 p.1)
        ((level_part & counted_items max_items selection_part).read words.old)) }
{
    let level = next_level(words)?;
    let items = read_selections(alloc, words)?;
    Ok(Event::GetList {
        level,
        items: Listed::from_vec(items),
    })
}

// Reads the words of a SET after the first: the client's port, the attribute, whether a part of it
// is meant, and the value.
fn read_set(alloc: Global, words: &mut Words) -> Result<Event, RowFault>
    ensures { Reads (λ event. event) result words.new
        (read_as (λ p. event.Set p.0 p.1.0.attr p.1.0.selected p.1.1)
        ((level_part & selection_part & data_part).read words.old)) }
{
    let level = next_level(words)?;
    let item = next_selection(words)?;
    let value = parse_data(alloc, next_word(words)?)?;
    Ok(Event::Set {
        level,
        attr: item.attr,
        selected: item.selected,
        value,
    })
}

// Reads the parameter of a method, or `-` for none.
fn parse_parameter(alloc: Global, word: &[u8]) -> Result<Option<Data>, RowFault>
    ensures { Gives Memory (λ parameter. parameter) result (parameter_in word.now) }
{
    if word == b"-".as_slice() {
        return Ok(None);
    }
    Ok(Some(parse_data(alloc, word)?))
}

// Reads the words of an ACTION after the first: the client's port, the method and its parameter.
fn read_execute(alloc: Global, words: &mut Words) -> Result<Event, RowFault>
    ensures { Reads (λ event. event) result words.new
        (read_as (λ p. event.Execute p.0 p.1.0 p.1.1)
        ((level_part & method_part & parameter_part).read words.old)) }
{
    let level = next_level(words)?;
    let method = next_method(words)?;
    let parameter = parse_parameter(alloc, next_word(words)?)?;
    Ok(Event::Execute {
        level,
        method,
        parameter,
    })
}

// Reads the words of a block of samples after the first: up to 256 samples.
fn read_samples(alloc: Global, words: &mut Words) -> Result<Event, RowFault>
    ensures { Reads (λ event. event) result words.new
        (read_as (λ values. event.Samples (values_alone values))
        ((items_to_end 256 sample_part).read words.old)) }
{
    let values = read_values(alloc, words)?;
    match Block::from_slice(alloc, values.as_slice()) {
        Ok(block) => Ok(Event::Samples(block)),
        Err(_) => Err(RowFault::Memory),
    }
}

// Returns the import values of pairs.
fn copy_imports(alloc: Global, pairs: &[(u32, u32)]) -> Result<Vec<u32>, AllocError>
    ensures { IfOk result (λ values. values.items ≡ map (λ pair. pair.0) pairs.now) }
{
    pairs.iter().map(|pair| pair.0).collect(alloc)
}

// Returns the export values of pairs.
fn copy_exports(alloc: Global, pairs: &[(u32, u32)]) -> Result<Vec<u32>, AllocError>
    ensures { IfOk result (λ values. values.items ≡ map (λ pair. pair.1) pairs.now) }
{
    pairs.iter().map(|pair| pair.1).collect(alloc)
}

// Reads the words of a block of pairs after the first: up to 256 pairs of samples.
fn read_sample_pairs(alloc: Global, words: &mut Words) -> Result<Event, RowFault>
    ensures { Reads (λ event. event) result words.new
        (read_as (λ pairs. event.Samples
        (pairs_of (map (λ pair. pair.0) pairs) (map (λ pair. pair.1) pairs)))
        ((items_to_end 256 pair_part).read words.old)) }
{
    let pairs = read_pairs(alloc, words)?;
    let import = copy_imports(alloc, pairs.as_slice())?;
    let export = copy_exports(alloc, pairs.as_slice())?;
    match Block::from_pairs(alloc, import.as_slice(), export.as_slice()) {
        Ok(block) => Ok(Event::Samples(block)),
        Err(_) => Err(RowFault::Memory),
    }
}

// Reads the word of a moment after the first, in seconds.
fn read_moment(words: &mut Words) -> Result<Event, RowFault>
    ensures { Reads (λ event. event) result words.new
        (read_as event.Moment ((number_part 4294967295).read words.old)) }
{
    Ok(Event::Moment(parse_number(next_word(words)?, u32::MAX)?))
}

// Reads an event that version 1 does not have, by its first word.
fn read_later_event(
    alloc: Global,
    version: Version,
    first: &[u8],
    words: &mut Words,
) -> Result<Event, RowFault>
    ensures { Reads (λ event. event) result words.new
        (keyed_read same_word (later_forms version) first.now words.old) }
{
    match version {
        Version::One => Err(RowFault::Wrong),
        Version::Two => {
            if first == b"pairs".as_slice() {
                read_sample_pairs(alloc, words)
            } else {
                Err(RowFault::Wrong)
            }
        }
    }
}

// Reads an event from the words after the first one. Inlined, the event would be copied in small
// pieces from result to result: a tenth of the time of an event.
#[inline(never)]
fn read_event_after(
    alloc: Global,
    version: Version,
    first: &[u8],
    words: &mut Words,
) -> Result<Event, RowFault>
    ensures { Reads (λ event. event) result words.new
        (keyed_read same_word (event_forms (later_forms version)) first.now words.old) }
{
    if first == b"get".as_slice() {
        read_get(words)
    } else if first == b"getlist".as_slice() {
        read_get_list(alloc, words)
    } else if first == b"set".as_slice() {
        read_set(alloc, words)
    } else if first == b"execute".as_slice() {
        read_execute(alloc, words)
    } else if first == b"button".as_slice() {
        Ok(Event::Button)
    } else if first == b"moment".as_slice() {
        read_moment(words)
    } else if first == b"samples".as_slice() {
        read_samples(alloc, words)
    } else {
        read_later_event(alloc, version, first, words)
    }
}

// Reads the event of a line of words.
#[tactic(auto, unfolding(crate::specs::Events::event_of))]
pub(crate) fn read_event_words(
    alloc: Global,
    version: Version,
    words: &mut Words,
) -> Result<Event, RowFault>
    ensures { Gives Memory (λ event. event) result (event_of version words.old) }
{
    let first = next_word(words)?;
    let read = read_event_after(alloc, version, first, words);
    match expect_end(words) {
        Ok(()) => read,
        Err(fault) => match read {
            Ok(event) => {
                drop(event);
                Err(fault)
            }
            Err(earlier) => Err(earlier),
        },
    }
}

/// Reads the event of a line, which is passed without the byte 0A that ends it. Errors: `Wrong` if
/// it is not the line of an event in this version; `Memory`.
pub fn read_event(alloc: Global, version: Version, line: &[u8]) -> Result<Event, RowFault>
    ensures { Gives Memory (λ event. event) result (event_of version (words_of line.now)) }
{
    let mut words = Words::new(line);
    read_event_words(alloc, version, &mut words)
}
