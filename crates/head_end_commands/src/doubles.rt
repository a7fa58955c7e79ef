//! `find_double`: the lines of a list of passwords that have one name.
ghost use Rattle.std.specs.Prelude.{◌≡◌, ◌≢◌, ◌<◌, ◌≤◌, ◌↔◌, ℕ, List, Some, true, IsTrue};
ghost use Rattle.std.specs.Prelude.{MatchOption, length};
ghost use Rattle.std.specs.Option.{option_copied};
ghost use Rattle.text_lines.specs.Lines.{lines_of};
ghost use Rattle.head_end_commands.specs.Doubles.{AreDouble, HasDouble, HasNames, name_at, name_of};
ghost use Rattle.head_end_commands.specs.Filters.{has_place};
ghost use Rattle.head_end.specs.Jobs.{job_lines};

use crate::text_filter::TextFilter;
use text_lines::{Words, split_line};

// Returns the name of a line of a list of passwords, or `None` if the line is empty.
fn name_of(line: &[u8]) -> Option<&[u8]>
    ensures { option_copied result ≡ name_of line.now }
{
    if line.is_empty() {
        return None;
    }
    Words::new(line).next()
}

// Returns whether a line has this name.
fn has_name(line: &[u8], name: &[u8]) -> bool
    ensures { IsTrue result ↔ (name_of line.now ≡ Some name.now) }
{
    match name_of(line) {
        Some(own) => own == name,
        None => false,
    }
}

// Returns the place of the first line with this name, if it is before another place. Places are
// counted from 0.
fn find_name(text: &[u8], name: &[u8], end: usize) -> Option<usize>
    requires { end ≤ length (lines_of text.now) }
    ensures { MatchOption result
        ((place : ℕ) → place < end → name_at (job_lines text.now) place ≢ Some name.now)
        (λ place. (place < end) × (name_at (job_lines text.now) place ≡ Some name.now)) }
{
    let mut rest = text;
    'lines: for place in 0..end {
        let Some((line, next_rest)) = split_line(rest) else {
            return None;
        };
        if has_name(line, name) {
            return Some(place);
        }
        rest = next_rest;
    }
    None
}

// Returns the place of the first line with the name of the line at this place, if it is an earlier
// one. The filter has the names of the earlier lines.
fn find_earlier(text: &[u8], names: &TextFilter, line: &[u8], place: usize) -> Option<usize>
    requires bound { place ≤ length (lines_of text.now) }
    requires line { name_at (job_lines text.now) place ≡ name_of line.now }
    requires names { HasNames names.now (job_lines text.now) place }
    ensures { MatchOption result ((first : ℕ) → ¬ (AreDouble (job_lines text.now) first place))
        (λ first. AreDouble (job_lines text.now) first place) }
{
    let Some(name) = name_of(line) else {
        return None;
    };
    if !names.may_have(name) {
        return None;
    }
    find_name(text, name, place)
}

// Adds the name of a line to a filter, if it has one.
fn add_name(names: &mut TextFilter, line: &[u8])
    ensures added { (name : List ℕ) → name_of line.now ≡ Some name
        → has_place names.new name ≡ true }
    ensures kept { (name : List ℕ) → has_place names.old name ≡ true
        → has_place names.new name ≡ true }
{
    if let Some(name) = name_of(line) {
        names.add(name);
    }
}

// Returns the places of two lines of a list of passwords that have one name, the earlier one first,
// or `None` if no two have. The later one is the first whose name an earlier line has. Places are
// counted from 0.
pub(crate) fn find_double(text: &[u8]) -> Option<(usize, usize)>
    ensures { MatchOption result (¬ (HasDouble (job_lines text.now)))
        (λ places. AreDouble (job_lines text.now) places.0 places.1) }
{
    let mut names = TextFilter::new();
    let mut rest = text;
    let mut place: usize = 0;
    'lines: while let Some((line, next_rest)) = split_line(rest) {
        if let Some(first) = find_earlier(text, &names, line, place) {
            return Some((first, place));
        }
        add_name(&mut names, line);
        place += 1;
        rest = next_rest;
    }
    match find_earlier(text, &names, rest, place) {
        Some(first) => Some((first, place)),
        None => None,
    }
}
