//! Reads the values of a limiter from the words of each line: thresholds, durations, profile,
//! groups, actions and runs.
ghost use Rattle.std.specs.Prelude.{◌≡◌, ◌≤◌, IfOk, nat_eq, length};
ghost use Rattle.std.specs.Cmp.Lexicographic.{pointwise};
ghost use Rattle.wire_bytes.specs.Outcome.{Gives};
ghost use Rattle.limiter_core.specs.Counting.{cap};
ghost use Rattle.limiter_core.specs.State.{IsFit};
ghost use Rattle.limiter_core.specs.declared.settings.TheConstants.{MAX_GROUPS};
ghost use Rattle.trace_words.specs.Labels.{words_after, labelled_value};
ghost use Rattle.trace_openings.specs.OpeningFields.{label, start_in, id_from, profile_from, groups_from, actions_from, count_from, over_from, under_from};
ghost use Rattle.trace_words.specs.Reading.{number_in, value_in};
ghost use Rattle.trace_words.specs.Rows.{Reads, all_at};
ghost use Rattle.trace_words.specs.declared.fault.RowFault.TheVariants.{Memory};

use cosem_datetime::{DateTimeField, read_date_time};
use cosem_names::Which;
use limiter_core::{Actions, Count, MAX_GROUPS, Profile, RUN_LIMIT, are_fit};
use std::alloc::Global;
use text_lines::{Words, read_number};
use trace_words::{
    RowFault, expect_end, last_word, next_long, next_word, parse_bytes, parse_flag, parse_long,
    parse_number,
};
use wire_bytes::Listed;

// Returns whether `word` is the label `name` of one of the limiters. Labels of the export limiter
// are preceded by an x.
fn is_label(which: Which, name: &[u8], word: &[u8]) -> bool
    ensures { result ≡ pointwise nat_eq word.now (label which name.now) }
{
    match which {
        Which::Import => word == name,
        Which::Export => match word {
            [b'x', bare @ ..] => bare == name,
            _ => false,
        },
    }
}

// Reads the first word of a limiter's line, which must be the label `name`. Errors: `Wrong`.
#[tactic(auto, unfolding(trace_words::specs::Labels::words_after))]
fn read_label_of(which: Which, name: &[u8], words: &mut Words) -> Result<(), RowFault>
    ensures { Reads (λ done. done) result words.new (words_after (label which name.now) words.old) }
{
    if is_label(which, name, next_word(words)?) {
        Ok(())
    } else {
        Err(RowFault::Wrong)
    }
}

// Reads a line of one value, in watts or seconds.
pub(crate) fn read_labelled_number(
    which: Which,
    name: &[u8],
    words: &mut Words,
) -> Result<u32, RowFault>
    ensures { Gives Memory (λ value. value) result
        (labelled_value (label which name.now) value_in words.old) }
{
    read_label_of(which, name, words)?;
    parse_number(last_word(words)?, u32::MAX)
}

// Reads a date-time, twelve bytes in hexadecimal.
#[tactic(auto, unfolding(crate::specs::OpeningFields::start_in))]
fn parse_start(alloc: Global, word: &[u8]) -> Result<DateTimeField, RowFault>
    ensures { Gives Memory (λ start. start) result (start_in word.now) }
{
    let bytes = parse_bytes(alloc, word)?;
    match read_date_time(bytes.as_slice()) {
        Ok(start) => Ok(start),
        Err(_) => Err(RowFault::Wrong),
    }
}

// Reads the line of the emergency profile: id, start and duration.
#[tactic(auto, unfolding(crate::specs::OpeningFields::profile_from))]
pub(crate) fn read_profile(
    alloc: Global,
    which: Which,
    words: &mut Words,
) -> Result<Profile, RowFault>
    ensures { Gives Memory (λ profile. profile) result (profile_from which words.old) }
{
    read_label_of(which, b"profile", words)?;
    let id = next_long(words)?;
    let start = parse_start(alloc, next_word(words)?)?;
    let duration = parse_number(next_word(words)?, u32::MAX)?;
    expect_end(words)?;
    Ok(Profile {
        id,
        start,
        duration,
    })
}

// Reads group ids up to the end of the line, at most 32.
fn read_ids(alloc: Global, words: &mut Words) -> Result<Vec<u16>, RowFault>
    ensures ids { Gives Memory (λ ids. ids.items) result (all_at id_from MAX_GROUPS words.old) }
    ensures within_max { IfOk result (λ ids. length ids.items ≤ MAX_GROUPS) }
{
    let mut ids = Vec::new(alloc);
    'items: while let Some(word) = words.next() {
        if ids.len() == MAX_GROUPS {
            return Err(RowFault::Wrong);
        }
        ids.push(parse_long(word)?)?;
    }
    Ok(ids)
}

// Reads the line of the group ids, at most 32.
#[tactic(auto, unfolding(crate::specs::OpeningFields::groups_from))]
pub(crate) fn read_groups(
    alloc: Global,
    which: Which,
    words: &mut Words,
) -> Result<Listed<u16>, RowFault>
    ensures groups { Gives Memory (λ groups. groups) result (groups_from which words.old) }
    ensures within_max { IfOk result (λ groups. length groups ≤ 32) }
{
    read_label_of(which, b"groups", words)?;
    let ids = read_ids(alloc, words)?;
    Ok(Listed::from_vec(ids))
}

// Reads the line of the actions: the script selectors over and under the threshold.
#[tactic(auto, unfolding(crate::specs::OpeningFields::actions_from))]
pub(crate) fn read_actions(which: Which, words: &mut Words) -> Result<Actions, RowFault>
    ensures { Gives Memory (λ actions. actions) result (actions_from which words.old) }
{
    read_label_of(which, b"actions", words)?;
    let over = next_long(words)?;
    let under = next_long(words)?;
    expect_end(words)?;
    Ok(Actions { over, under })
}

// Reads the length of a run, in samples.
fn parse_run(word: &[u8]) -> Result<u64, RowFault>
    ensures { result ≡ number_in cap word.now }
{
    read_number(word, RUN_LIMIT).ok_or(RowFault::Wrong)
}

// Reads a line of a run: its length in samples, and whether it has fired.
#[tactic(auto, unfolding(crate::specs::OpeningFields::count_from))]
fn read_count(which: Which, name: &[u8], words: &mut Words) -> Result<Count, RowFault>
    ensures { Gives Memory (λ count. count) result (count_from (label which name.now) words.old) }
{
    read_label_of(which, name, words)?;
    let run = parse_run(next_word(words)?)?;
    let fired = parse_flag(next_word(words)?)?;
    expect_end(words)?;
    Ok(Count { run, fired })
}

// Reads the line of the run over the threshold. Errors: `Wrong` if the last sample contradicts the
// run; `Memory`.
#[tactic(auto, unfolding(crate::specs::OpeningFields::over_from))]
pub(crate) fn read_over(which: Which, last: u32, words: &mut Words) -> Result<Count, RowFault>
    ensures { Gives Memory (λ over. over) result (over_from which last words.old) }
{
    let over = read_count(which, b"over", words)?;
    if are_fit(last, over, Count::zero()) {
        Ok(over)
    } else {
        Err(RowFault::Wrong)
    }
}

// Reads the line of the run under the threshold. Errors: `Wrong` if the last sample or the run
// over the threshold contradicts it; `Memory`.
#[tactic(auto, unfolding(crate::specs::OpeningFields::under_from))]
pub(crate) fn read_under(
    which: Which,
    last: u32,
    over: Count,
    words: &mut Words,
) -> Result<Count, RowFault>
    ensures under { Gives Memory (λ under. under) result (under_from which last over words.old) }
    ensures fit { IfOk result (λ under. IsFit last over under) }
{
    let under = read_count(which, b"under", words)?;
    if are_fit(last, over, under) {
        Ok(under)
    } else {
        Err(RowFault::Wrong)
    }
}
