//! Decodes the list that a SET stores before the event is applied, so that applying it does not
//! allocate.
ghost use Rattle.std.specs.Prelude.{◌≡◌, IfOk, IsOk, IsTrue};
ghost use Rattle.action_schedule.specs.Reading.{entries_of};
ghost use Rattle.limiter_attributes.specs.Reading.{groups_of};
ghost use Rattle.relay_core.specs.Machine.{is_sure};
ghost use Rattle.relay_core.specs.Memory.{writes_plainly, writes_plainly_in};
ghost use Rattle.relay_core.specs.Moving.{scripts_part, entries_part, groups_part, list_numbered, list_read, parts_read, set_parts, parts_of};
ghost use Rattle.script_steps.specs.Reading.{table_of};

use crate::access::write_target;
use crate::relay::RelayCore;
use crate::written_groups::WrittenGroups;
use action_schedule::ActionSchedule;
use cosem_axdr::Data;
use cosem_names::{AttrRef, Instance, Level, ResultCode, ScheduleNumber, Which, WriteFault};
use limiter_attributes::read_groups;
use relay_events::Event;
use script_steps::ScriptTable;
use std::alloc::{AllocError, Global};

/// The decoded list that an event's write stores. Decoding it is all that such a write needs
/// memory for.
#[derive(Debug, Drop)]
pub enum Parts {
    /// No list: the event does not write one, or the write is refused.
    Plain,
    /// The scripts of the script table.
    Scripts(ScriptTable),
    /// The group ids of a limiter, in an otherwise new limiter.
    Groups(WrittenGroups),
    /// The entries of a schedule, in an otherwise new schedule.
    Entries(ActionSchedule),
}

// The attributes that are lists: only writes to these allocate.
#[derive(Clone, Copy)]
pub(crate) enum WrittenList {
    // `scripts` of the script table (IEC 62056-6-2, class 9, attribute 2).
    Scripts,
    // `execution_time` of a schedule (class 22, attribute 4).
    Entries(ScheduleNumber),
    // `emergency_profile_group_id_list` of a limiter (class 71, attribute 9).
    Groups(Which),
}

impl WrittenList {
    // Returns the list that an attribute is, or `None` if it is not one.
    pub(crate) fn new(instance: Instance, number: u8) -> Option<WrittenList>
        ensures { result ≡ list_numbered instance number }
    {
        match (instance, number) {
            (Instance::ScriptTable, 2) => Some(WrittenList::Scripts),
            (Instance::Schedule(which), 4) => Some(WrittenList::Entries(which)),
            (Instance::Limiter(which), 9) => Some(WrittenList::Groups(which)),
            _ => None,
        }
    }
}

// Decodes scripts. The inner result is the refusal's code.
fn read_scripts(alloc: Global, value: &Data) -> Result<Result<Parts, ResultCode>, AllocError>
    ensures { IfOk result (λ parts. parts ≡ scripts_part (table_of value.now)) }
{
    Ok(match ScriptTable::from_data(alloc, value) {
        Ok(scripts) => Ok(Parts::Scripts(scripts)),
        Err(WriteFault::Unmatched) => Err(ResultCode::TypeUnmatched),
        Err(WriteFault::Value) => Err(ResultCode::OtherReason),
        Err(WriteFault::Memory) => return Err(AllocError),
    })
}

// Decodes the entries of a schedule. The inner result is the refusal's code.
fn read_entries(alloc: Global, value: &Data) -> Result<Result<Parts, ResultCode>, AllocError>
    ensures { IfOk result (λ parts. parts ≡ entries_part (entries_of value.now)) }
{
    let mut schedule = ActionSchedule::new(alloc);
    Ok(match schedule.set_entries(alloc, value) {
        Ok(()) => Ok(Parts::Entries(schedule)),
        Err(WriteFault::Unmatched) => Err(ResultCode::TypeUnmatched),
        Err(WriteFault::Value) => Err(ResultCode::OtherReason),
        Err(WriteFault::Memory) => return Err(AllocError),
    })
}

// Decodes the group ids of a limiter. The inner result is the refusal's code.
fn read_group_ids(alloc: Global, value: &Data) -> Result<Result<Parts, ResultCode>, AllocError>
    ensures { IfOk result (λ parts. parts ≡ groups_part (groups_of value.now)) }
{
    Ok(match read_groups(alloc, value) {
        Ok(limiter) => Ok(Parts::Groups(WrittenGroups::new(alloc, limiter)?)),
        Err(WriteFault::Unmatched) => Err(ResultCode::TypeUnmatched),
        Err(WriteFault::Value) => Err(ResultCode::OtherReason),
        Err(WriteFault::Memory) => return Err(AllocError),
    })
}

// Decodes a list that is written. The inner result is the refusal's code.
pub(crate) fn read_list(
    alloc: Global,
    list: WrittenList,
    value: &Data,
) -> Result<Result<Parts, ResultCode>, AllocError>
    ensures { IfOk result (λ parts. parts ≡ list_read list value.now) }
{
    match list {
        WrittenList::Scripts => read_scripts(alloc, value),
        WrittenList::Entries(_) => read_entries(alloc, value),
        WrittenList::Groups(_) => read_group_ids(alloc, value),
    }
}

// Decodes the list that a write of an attribute stores, if any.
pub(crate) fn read_parts(
    alloc: Global,
    instance: Instance,
    number: u8,
    value: &Data,
) -> Result<Parts, AllocError>
    ensures parts { IfOk result (λ parts. parts
        ≡ parts_read (list_numbered instance number) value.now) }
    ensures plain { IsTrue (writes_plainly_in instance number) → IsOk result }
{
    let Some(list) = WrittenList::new(instance, number) else {
        return Ok(Parts::Plain);
    };
    match read_list(alloc, list, value)? {
        Ok(parts) => Ok(parts),
        Err(_refusal) => Ok(Parts::Plain),
    }
}

// Decodes the list that a client's SET stores, if any.
#[tactic(auto, unfolding(crate::specs::Moving::set_parts, crate::specs::Memory::writes_plainly))]
fn read_set_parts(
    alloc: Global,
    level: Level,
    attr: &AttrRef,
    selected: bool,
    value: &Data,
) -> Result<Parts, AllocError>
    ensures parts { IfOk result (λ parts. parts ≡ set_parts level attr.now selected value.now) }
    ensures plain { IsTrue (writes_plainly level attr.now selected) → IsOk result }
{
    match write_target(level, attr, selected) {
        Ok(instance) => read_parts(alloc, instance, attr.number, value),
        Err(_refusal) => Ok(Parts::Plain),
    }
}

impl RelayCore {
    /// Decodes the list that an event's write stores, for [`advance`](RelayCore::advance). Fails
    /// if out of memory; never fails for a sure event.
    #[tactic(auto, unfolding(crate::specs::Machine::is_sure))]
    pub fn parts(alloc: Global, event: &Event) -> Result<Parts, AllocError>
        ensures parts { IfOk result (λ parts. parts ≡ parts_of event.now) }
        ensures sure { IsTrue (is_sure event.now) → IsOk result }
    {
        match event {
            Event::Set {
                level,
                attr,
                selected,
                value,
            } => read_set_parts(alloc, *level, attr, *selected, value),
            _ => Ok(Parts::Plain),
        }
    }
}
