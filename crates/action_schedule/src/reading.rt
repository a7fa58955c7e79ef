//! Validates and reads the Data that a client writes to executed_script, type and execution_time
//! (IEC 62056-6-2, class 22).
ghost use Rattle.std.specs.Prelude.{◌≡◌, ◌≤◌, length, IfOk, IsErrOf};
ghost use Rattle.std.specs.List.{All, list_any};
ghost use Rattle.cosem_names.specs.WriteFault.{values};
ghost use Rattle.action_schedule.specs.Reading.{selector_of, kind_of, entry_of, max_entries, judged_entries};
ghost use Rattle.action_schedule.specs.Schedule.{IsEntry};

use crate::forms::entry_parts;
use crate::kind::ScheduleType;
use crate::schedule::MAX_ENTRIES;
use cosem_axdr::Data;
use cosem_datetime::{EntryPattern, read_date, read_time};
use cosem_names::{NamedScript, WriteFault, judge_each};
use std::alloc::{AllocError, Global};
use wire_bytes::Listed;

// Reads the selector of the script to run: `Unmatched` if a type differs, then `Value` if the
// script is of another script table.
#[tactic(auto, unfolding(crate::specs::Reading::selector_of))]
pub(crate) fn read_selector(value: &Data) -> Result<u16, WriteFault>
    ensures exact { result ≡ selector_of value.now }
    ensures no_memory { ¬ IsErrOf result WriteFault.Memory }
{
    let script = NamedScript::from_data(value).ok_or(WriteFault::Unmatched)?;
    if !script.is_of_the_table() {
        return Err(WriteFault::Value);
    }
    Ok(script.selector)
}

// Reads the type of a schedule: `Unmatched` if the Data is not an enum, then `Value` if its number
// is not 1 to 5.
#[tactic(auto, unfolding(crate::specs::Reading::kind_of))]
pub(crate) fn read_kind(value: &Data) -> Result<ScheduleType, WriteFault>
    ensures exact { result ≡ kind_of value.now }
    ensures no_memory { ¬ IsErrOf result WriteFault.Memory }
{
    let number = value.enumerated().ok_or(WriteFault::Unmatched)?;
    Ok(ScheduleType::try_from(number)?)
}

// Reads an entry: `Unmatched` if a type or length differs, then `Value` if a field of the time or
// date is out of its range.
#[tactic(auto, unfolding(crate::specs::Reading::entry_of))]
fn read_entry(value: &Data) -> Result<EntryPattern, WriteFault>
    ensures exact { result ≡ entry_of value.now }
    ensures fit { IfOk result IsEntry }
{
    let (time, date) = entry_parts(value).ok_or(WriteFault::Unmatched)?;
    let time = read_time(time).ok().ok_or(WriteFault::Value)?;
    let date = read_date(date).ok().ok_or(WriteFault::Value)?;
    Ok(EntryPattern { time, date })
}

// Judges entries: `Unmatched` if any has a wrong type, then `Value` if any has a wrong value or
// there are more than `MAX_ENTRIES`.
#[tactic(auto, unfolding(crate::specs::Reading::judged_entries))]
pub(crate) fn judge_entries(items: &[Data]) -> Result<(), WriteFault>
    ensures exact { result ≡ judged_entries items.now }
    ensures no_memory { ¬ IsErrOf result WriteFault.Memory }
    ensures within_max { IfOk result (λ _. length items.now ≤ max_entries) }
{
    judge_each(items, |item| read_entry(item))?;
    if items.len() > MAX_ENTRIES {
        return Err(WriteFault::Value);
    }
    Ok(())
}

// Returns the entries that have no fault.
pub(crate) fn read_entries(
    alloc: Global,
    items: &[Data],
) -> Result<Listed<EntryPattern>, AllocError>
    ensures entries { IfOk result (λ entries. entries ≡ values entry_of items.now) }
    ensures fit { IfOk result (λ entries. All IsEntry entries) }
    ensures within_max { IfOk result (λ entries. length entries ≤ length items.now) }
{
    let mut entries = Vec::new(alloc);
    for item in items {
        let Ok(entry) = read_entry(item) else {
            continue;
        };
        entries.push(entry)?;
    }
    Ok(Listed::from_vec(entries))
}
