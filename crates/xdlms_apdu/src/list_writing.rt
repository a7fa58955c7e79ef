//! The writer of a list of parts of the services.
ghost use Rattle.std.specs.Prelude.{◌≡◌, ◌++◌, OnOk, OnErr};
ghost use Rattle.cosem_axdr.specs.Appending.{Extends};
ghost use Rattle.xdlms_apdu.specs.Parts.{list_part};

use crate::list_item::ListItem;
use cosem_axdr::{Octets, append_length};
use std::alloc::AllocError;

// Appends the number of items, followed by the items.
#[tactic(auto, using(cosem_axdr::proofs::Appending::extends_same, cosem_axdr::proofs::Appending::extends_more))]
pub(crate) fn put_list<T: ListItem>(items: &[T], out: &mut Octets) -> Result<(), AllocError>
    ensures ok { OnOk result (out.new ≡ out.old ++ (list_part T.part).text items.now) }
    ensures extends { OnErr result (Extends out.old out.new) }
{
    append_length(items.len(), out)?;
    for item in items {
        item.put(out)?;
    }
    Ok(())
}
