//! Equality of Data and of items: two values are equal if their trees are equal.
ghost use Rattle.std.specs.Prelude.{◌≡◌, ◌↔◌, IsTrue};
ghost use Rattle.cosem_axdr.specs.declared.value.Data.{Data};

use crate::value::{Data, Items};

impl PartialEq for Data {
    ghost use Rattle.std.specs.Cmp.{partial_equiv_from_equiv};
    ghost use Rattle.cosem_axdr.specs.Equality.{is_same};
    ghost use Rattle.cosem_axdr.specs.EqualityLaws.{is_same-equivalence};

    ghost eq = { is_same };

    ghost laws = { partial_equiv_from_equiv is_same-equivalence };

    fn eq(&self, other: &Data) -> bool {
        is_same(self, other)
    }
}

impl Eq for Data {
    ghost use Rattle.cosem_axdr.specs.EqualityLaws.{is_same-equivalence};

    ghost laws = { is_same-equivalence };
}

impl PartialEq for Items {
    ghost use Rattle.std.specs.Cmp.{partial_equiv_from_equiv};
    ghost use Rattle.cosem_axdr.specs.Equality.{are_same};
    ghost use Rattle.cosem_axdr.specs.EqualityLaws.{are_same-equivalence};

    ghost eq = { are_same };

    ghost laws = { partial_equiv_from_equiv are_same-equivalence };

    fn eq(&self, other: &Items) -> bool {
        items_are_same(self, other)
    }
}

impl Eq for Items {
    ghost use Rattle.cosem_axdr.specs.EqualityLaws.{are_same-equivalence};

    ghost laws = { are_same-equivalence };
}

// Returns whether two values of type Data are equal.
#[cycle(comparing)]
fn is_same(value: &Data, other: &Data) -> bool
    ensures { IsTrue result ↔ (value.now ≡ other.now) }
{
    match value {
        Data::Null => matches!(other, Data::Null),
        Data::Array(a) => matches!(other, Data::Array(b) if items_are_same(a, b)),
        Data::Structure(a) => matches!(other, Data::Structure(b) if items_are_same(a, b)),
        Data::Boolean(a) => matches!(other, Data::Boolean(b) if a == b),
        Data::BitString { bits, bytes } =>
            matches!(other, Data::BitString { bits: b, bytes: c } if bits == b && bytes == c),
        Data::DoubleLong(a) => matches!(other, Data::DoubleLong(b) if a == b),
        Data::DoubleLongUnsigned(a) => matches!(other, Data::DoubleLongUnsigned(b) if a == b),
        Data::OctetString(a) => matches!(other, Data::OctetString(b) if a == b),
        Data::VisibleString(a) => matches!(other, Data::VisibleString(b) if a == b),
        Data::Utf8String(a) => matches!(other, Data::Utf8String(b) if a == b),
        Data::Integer(a) => matches!(other, Data::Integer(b) if a == b),
        Data::Long(a) => matches!(other, Data::Long(b) if a == b),
        Data::Unsigned(a) => matches!(other, Data::Unsigned(b) if a == b),
        Data::LongUnsigned(a) => matches!(other, Data::LongUnsigned(b) if a == b),
        Data::Long64(a) => matches!(other, Data::Long64(b) if a == b),
        Data::Long64Unsigned(a) => matches!(other, Data::Long64Unsigned(b) if a == b),
        Data::Enum(a) => matches!(other, Data::Enum(b) if a == b),
        Data::DateTime(a) => matches!(other, Data::DateTime(b) if a == b),
        Data::Date(a) => matches!(other, Data::Date(b) if a == b),
        Data::Time(a) => matches!(other, Data::Time(b) if a == b),
    }
}

// Returns whether two sequences of items are equal.
#[cycle(comparing)]
fn items_are_same(items: &Items, others: &Items) -> bool
    ensures { IsTrue result ↔ (items.now ≡ others.now) }
{
    all_are_same(&items.items, &others.items)
}

// Returns whether two lists have the same length and equal values at each index.
#[cycle(comparing)]
fn all_are_same(values: &[Data], others: &[Data]) -> bool
    ensures { IsTrue result ↔ (values.now ≡ others.now) }
{
    if values.len() != others.len() {
        return false;
    }
    for (i, value) in values.iter().enumerate() {
        if !is_same(value, &others[i]) {
            return false;
        }
    }
    true
}
