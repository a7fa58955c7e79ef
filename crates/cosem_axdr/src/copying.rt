//! Fallible copies of a Data and its items.
ghost use Rattle.std.specs.Prelude.{◌≡◌, IfOk};
ghost use Rattle.cosem_axdr.specs.Tree.{trees_of};
ghost use Rattle.cosem_axdr.specs.View.{all_trees};

use crate::value::{Data, Items};
use std::alloc::{AllocError, Global};

impl Data {
    /// Returns a newly allocated copy of the value.
    #[cycle(copying)]
    pub fn try_clone(&self, alloc: Global) -> Result<Data, AllocError>
        ensures { IfOk result (λ copy. copy ≡ self.now) }
    {
        Ok(match self {
            Data::Null => Data::Null,
            Data::Array(items) => Data::Array(clone_items(alloc, &items.items)?),
            Data::Structure(items) => Data::Structure(clone_items(alloc, &items.items)?),
            Data::Boolean(value) => Data::Boolean(*value),
            Data::BitString { bits, bytes } => Data::BitString {
                bits: *bits,
                bytes: bytes.try_clone(alloc)?,
            },
            Data::DoubleLong(value) => Data::DoubleLong(*value),
            Data::DoubleLongUnsigned(value) => Data::DoubleLongUnsigned(*value),
            Data::OctetString(bytes) => Data::OctetString(bytes.try_clone(alloc)?),
            Data::VisibleString(bytes) => Data::VisibleString(bytes.try_clone(alloc)?),
            Data::Utf8String(bytes) => Data::Utf8String(bytes.try_clone(alloc)?),
            Data::Integer(value) => Data::Integer(*value),
            Data::Long(value) => Data::Long(*value),
            Data::Unsigned(value) => Data::Unsigned(*value),
            Data::LongUnsigned(value) => Data::LongUnsigned(*value),
            Data::Long64(value) => Data::Long64(*value),
            Data::Long64Unsigned(value) => Data::Long64Unsigned(*value),
            Data::Enum(value) => Data::Enum(*value),
            Data::DateTime(value) => Data::DateTime(*value),
            Data::Date(value) => Data::Date(*value),
            Data::Time(value) => Data::Time(*value),
        })
    }
}

// Returns a newly allocated copy of items.
#[cycle(copying)]
fn clone_items(alloc: Global, items: &[Data]) -> Result<Items, AllocError>
    ensures { IfOk result (λ copies. copies ≡ trees_of (all_trees items.now)) }
{
    let mut copies = Vec::new(alloc);
    for item in items {
        copies.push(item.try_clone(alloc)?)?;
    }
    Ok(Items::from_vec(copies))
}
