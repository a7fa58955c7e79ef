//! Validates each item of a written list and returns one fault: a wrong type first, then a wrong
//! value.
ghost use Rattle.std.specs.Prelude.{◌≡◌, Result, IsErrOf};
ghost use Rattle.cosem_names.specs.Judging.{IsReader};
ghost use Rattle.cosem_names.specs.WriteFault.{is_unmatched, fault_of_items};

use crate::write_fault::WriteFault;
use cosem_axdr::Data;

// Returns whether reading failed because of a wrong type.
fn is_unmatched<X>(given: &Result<X, WriteFault>) -> bool
    ensures { result ≡ is_unmatched given.now }
{
    matches!(given, Err(WriteFault::Unmatched))
}

/// Judges several items by reading each: `Unmatched` if any has a wrong type, then `Value` if
/// reading any fails for another reason. That order is a rule of this meter.
#[tactic(auto, unfolding(crate::specs::WriteFault::fault_of_items))]
pub fn judge_each<X: Drop, F: Fn(&Data) -> Result<X, WriteFault>>(
    items: &[Data],
    read: F,
) -> Result<(), WriteFault>
    requires { F.IsAlwaysCallable read }
    ensures fault { (of_item : Data → Result X WriteFault) → IsReader F.Fn read of_item
        → result ≡ fault_of_items of_item items.now }
    ensures no_memory { ¬ IsErrOf result WriteFault.Memory }
{
    let mut unmatched = false;
    let mut faulty = false;
    for item in items {
        let given = read(item);
        unmatched |= is_unmatched(&given);
        faulty |= given.is_err();
        drop(given);
    }
    if unmatched {
        Err(WriteFault::Unmatched)
    } else if faulty {
        Err(WriteFault::Value)
    } else {
        Ok(())
    }
}
