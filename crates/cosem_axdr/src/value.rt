//! The type `Data` (IEC 62056-6-2, common data types): twenty types of values, nested in arrays and
//! structures.
ghost use Rattle.std.specs.Prelude.{◌≡◌, ◌↔◌, IsTrue};
ghost use Rattle.cosem_axdr.specs.Tree.{trees_of, count_of, no_trees};
ghost use Rattle.cosem_axdr.specs.View.{all_trees, list_of};

use std::marker::Model;
use wire_bytes::Octets;

/// A value of the DLMS/COSEM type Data (IEC 62056-6-2, common data types). Two values are equal if
/// their trees are equal.
#[cycle(value)]
#[derive(Debug, Drop)]
pub enum Data {
    /// null-data, tag 00: no value
    Null,
    /// array, tag 01: its items
    Array(Items),
    /// structure, tag 02: its items
    Structure(Items),
    /// boolean, tag 03: false for 0, true for any other byte
    Boolean(bool),
    /// bit-string, tag 04: the number of bits, and the bytes that hold them; the first bit is the
    /// highest bit of the first byte
    BitString { bits: usize, bytes: Octets },
    /// double-long, tag 05: a signed number of four bytes
    DoubleLong(i32),
    /// double-long-unsigned, tag 06: an unsigned number of four bytes
    DoubleLongUnsigned(u32),
    /// octet-string, tag 09: any bytes
    OctetString(Octets),
    /// visible-string, tag 0A: any bytes
    VisibleString(Octets),
    /// utf8-string, tag 0C: any bytes
    Utf8String(Octets),
    /// integer, tag 0F: a signed number of one byte
    Integer(i8),
    /// long, tag 10: a signed number of two bytes
    Long(i16),
    /// unsigned, tag 11: an unsigned number of one byte
    Unsigned(u8),
    /// long-unsigned, tag 12: an unsigned number of two bytes
    LongUnsigned(u16),
    /// long64, tag 14: a signed number of eight bytes
    Long64(i64),
    /// long64-unsigned, tag 15: an unsigned number of eight bytes
    Long64Unsigned(u64),
    /// enum, tag 16: the number of an enumerated value
    Enum(u8),
    /// date-time, tag 19: any bytes
    DateTime([u8; 12]),
    /// date, tag 1A: any bytes
    Date([u8; 5]),
    /// time, tag 1B: any bytes
    Time([u8; 4]),
}

/// The items of an array or structure, in order. Contracts refer to their trees, so that equal
/// values have equal trees wherever they are stored.
#[cycle(value)]
#[derive(Debug, Drop)]
pub struct Items {
    /// The items, in order.
    pub items: Vec<Data>,
}

impl Model for Items {
    ghost use Rattle.cosem_axdr.specs.Tree.{Trees, trees_of, nests};
    ghost use Rattle.cosem_axdr.specs.Stored.{coded_trees};

    ghost Value = { Trees };

    ghost coded = { coded_trees };

    ghost use Rattle.cosem_axdr.specs.View.{all_trees};

    ghost view = { λ items. trees_of (all_trees items.items.items) };

    ghost size = { nests };

    ghost use Rattle.cosem_axdr.specs.Falls.{falls};

    ghost size_decreases = { λ items h. falls items.items.items };
}

impl Items {
    /// Creates items from a `Vec`. Does not allocate.
    #[tactic(auto, using(crate::proofs::OneTree::list_of_trees))]
    pub fn from_vec(items: Vec<Data>) -> Items
        ensures trees { result ≡ trees_of (all_trees items.items) }
        ensures list { list_of result ≡ items.items }
    {
        Items { items }
    }

    /// Returns the items as a `Vec`. Does not allocate.
    #[tactic(auto, using(crate::proofs::OneTree::list_of_trees))]
    pub fn into_vec(self) -> Vec<Data>
        ensures trees { trees_of (all_trees result.items) ≡ self }
        ensures list { result.items ≡ list_of self }
    {
        let Items { items } = self;
        items
    }

    /// Returns the items as a slice.
    #[tactic(auto, using(crate::proofs::OneTree::list_of_trees))]
    pub fn as_slice(&self) -> &[Data]
        ensures trees { trees_of (all_trees result.now) ≡ self.now }
        ensures list { result.now ≡ list_of self.now }
    {
        self.items.as_slice()
    }

    /// Returns the number of items.
    #[tactic(auto, using(crate::proofs::OneTree::counted))]
    pub fn len(&self) -> usize
        ensures { result ≡ count_of self.now }
    {
        self.items.len()
    }

    /// Returns whether there are no items.
    #[tactic(auto, using(crate::proofs::OneTree::counted))]
    pub fn is_empty(&self) -> bool
        ensures { IsTrue result ↔ (self.now ≡ no_trees) }
    {
        self.len() == 0
    }
}
