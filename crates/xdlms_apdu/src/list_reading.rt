//! The reader of a list of parts of the services.
ghost use Rattle.std.specs.Prelude.{◌≡◌};
ghost use Rattle.wire_bytes.specs.Format.{items_read};
ghost use Rattle.xdlms_apdu.specs.Parts.{Reads, list_part};

use crate::fault::ApduFault;
use crate::field_reading::read_length;
use crate::list_item::ListItem;
use std::alloc::Global;
use wire_bytes::{Cursor, Listed};

// Reads a count and that number of items.
pub(crate) fn read_list<T: ListItem>(
    alloc: Global,
    reader: &mut Cursor,
) -> Result<Listed<T>, ApduFault>
    ensures { Reads (λ items. items) result reader.new ((list_part T.part).read reader.old) }
{
    let count = read_length(reader)?;
    Ok(Listed::from_vec(read_items(alloc, count, reader)?))
}

// Reads `count` items.
#[tactic(auto, using(wire_bytes::proofs::Items::item_loops))]
fn read_items<T: ListItem>(
    alloc: Global,
    count: usize,
    reader: &mut Cursor,
) -> Result<Vec<T>, ApduFault>
    ensures { Reads (λ items. items.items) result reader.new
        (items_read T.part.read count reader.old) }
{
    let capacity = T::capacity(reader.rest().len());
    let mut items = Vec::with_capacity(alloc, count.min(capacity))?;
    'items: for _ in 0..count {
        items.push(T::read(alloc, reader)?)?;
    }
    Ok(items)
}
