//! Converts executed_script and execution_time to the Data that a client reads (IEC 62056-6-2,
//! class 22).
ghost use Rattle.std.specs.Prelude.{◌≡◌, IfOk};
ghost use Rattle.cosem_names.specs.Scripts.{script_data, script_at};
ghost use Rattle.action_schedule.specs.Writing.{entry_data, entries_data};

use cosem_axdr::{Data, Items, Octets};
use cosem_datetime::EntryPattern;
use cosem_names::NamedScript;
use std::alloc::{AllocError, Global};

// Returns the Data of a script of the script table: a structure of a logical name and a selector.
pub(crate) fn script_to_data(alloc: Global, selector: u16) -> Result<Data, AllocError>
    ensures { IfOk result (λ value. value ≡ script_data (script_at selector)) }
{
    NamedScript::in_the_table(selector).to_data(alloc)
}

// Returns the Data of an entry: a structure of two octet-strings, time and date.
#[tactic(auto, unfolding(crate::specs::Writing::entry_data))]
fn write_entry(alloc: Global, entry: &EntryPattern) -> Result<Data, AllocError>
    ensures { IfOk result (λ value. value ≡ entry_data entry.now) }
{
    let time = Octets::from_slice(alloc, &entry.time.bytes())?;
    let date = Octets::from_slice(alloc, &entry.date.bytes())?;
    Ok(Data::Structure(Items::from_vec(vec![in alloc;
        Data::OctetString(time),
        Data::OctetString(date),
    ]?)))
}

// Returns the array of the entries as Data.
#[tactic(auto, unfolding(crate::specs::Writing::entries_data))]
pub(crate) fn write_entries(alloc: Global, entries: &[EntryPattern]) -> Result<Data, AllocError>
    ensures { IfOk result (λ value. value ≡ entries_data entries.now) }
{
    let mut items = Vec::new(alloc);
    for entry in entries {
        items.push(write_entry(alloc, entry)?)?;
    }
    Ok(Data::Array(Items::from_vec(items)))
}
