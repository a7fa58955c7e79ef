//! Reads emergency_profile_group_id_list (IEC 62056-6-2, class 71), the one attribute of a limiter
//! whose write allocates.
ghost use Rattle.std.specs.Prelude.{◌≡◌, ◌↔◌, ◌≤◌, length, Ok, Err, IsOk, IfOk, IsErrOf};
ghost use Rattle.std.specs.List.{filter_map};
ghost use Rattle.cosem_axdr.specs.Forms.{long_unsigned_of};
ghost use Rattle.cosem_names.specs.declared.write_fault.WriteFault.TheVariants.{Unmatched, Value};
ghost use Rattle.limiter_attributes.specs.Reading.{are_ids, max_groups, judged_groups, groups_of};
ghost use Rattle.limiter_attributes.specs.Settings.{limiter_with_groups};

use cosem_axdr::Data;
use cosem_names::WriteFault;
use limiter_core::{Limiter, MAX_GROUPS};
use std::alloc::{AllocError, Global};

// Returns whether each item is a long-unsigned.
fn are_ids(items: &[Data]) -> bool
    ensures { result ≡ are_ids items.now }
{
    items.iter().all(|item| item.long_unsigned().is_some())
}

// Judges the items of a written group id list: `Unmatched` if one is not a long-unsigned, then
// `Value` if there are more than `MAX_GROUPS`.
#[tactic(auto, unfolding(crate::specs::Reading::judged_groups))]
fn judge_groups(items: &[Data]) -> Result<(), WriteFault>
    ensures exact { result ≡ judged_groups items.now }
    ensures no_memory { ¬ IsErrOf result WriteFault.Memory }
    ensures within_max { IfOk result (λ _. length items.now ≤ max_groups) }
{
    if !are_ids(items) {
        Err(WriteFault::Unmatched)
    } else if items.len() > MAX_GROUPS {
        Err(WriteFault::Value)
    } else {
        Ok(())
    }
}

// Returns the numbers of the items that are long-unsigned.
fn read_ids(alloc: Global, items: &[Data]) -> Result<Vec<u16>, AllocError>
    ensures ids { IfOk result (λ ids. ids.items ≡ filter_map long_unsigned_of items.now) }
    ensures within_max { IfOk result (λ ids. length ids.items ≤ length items.now) }
{
    items
        .iter()
        .filter_map(|item| item.long_unsigned())
        .collect(alloc)
}

/// Reads emergency_profile_group_id_list (attribute 9) from the Data that a client writes: an array
/// of at most 32 long-unsigned. The ids are those of a new limiter, so that `Limiter::swap_groups`
/// can move them into the meter's without allocating.
///
/// Errors, judged in this order: `Unmatched` if the value is not an array or an item is not a
/// long-unsigned, `Value` if there are more than 32 items, `Memory` if out of memory.
#[tactic(auto, unfolding(crate::specs::Reading::groups_of))]
pub fn read_groups(alloc: Global, value: &Data) -> Result<Limiter, WriteFault>
    ensures groups { IfOk result (λ limiter. groups_of value.now ≡ Ok limiter.settings.groups) }
    ensures limiter { IfOk result (λ limiter. limiter
        ≡ limiter_with_groups limiter.settings.groups) }
    ensures unmatched { IsErrOf result WriteFault.Unmatched
        ↔ (groups_of value.now ≡ Err Unmatched) }
    ensures value { IsErrOf result WriteFault.Value ↔ (groups_of value.now ≡ Err Value) }
    ensures memory { IsErrOf result WriteFault.Memory → IsOk (groups_of value.now) }
{
    let items = value.array().ok_or(WriteFault::Unmatched)?;
    judge_groups(items)?;
    let ids = read_ids(alloc, items)?;
    let mut limiter = Limiter::new(alloc);
    limiter.set_groups(alloc, ids.as_slice())?;
    Ok(limiter)
}
