//! Logical names (IEC 62056-6-1), class ids, and references to attributes and methods (IEC
//! 62056-5-3).
ghost use Rattle.std.specs.Prelude.{◌≡◌, [], ◌∷◌, bytes_eq};
ghost use Rattle.std.specs.Int.{w64, from_be_bytes, to_be_bytes};

/// A logical name: the value groups A to F of an OBIS code (IEC 62056-6-1).
#[derive(Clone, Copy, Debug, PartialEq, Eq)]
pub struct Obis(pub [u8; 6]);

impl Obis {
    // Returns whether two logical names are equal. They are compared as numbers, so the compiler
    // makes a search of the table a binary search: some 25 instructions, 150 byte by byte.
    #[inline(always)]
    #[tactic(auto, using(crate::proofs::Names::compared_as_numbers))]
    pub(crate) fn equals(self, other: Obis) -> bool
        ensures { result ≡ bytes_eq self.0 other.0 }
    {
        self.number() == other.number()
    }

    // Returns the number whose bytes are two zeros and the value groups, A first.
    #[inline(always)]
    fn number(self) -> u64
        ensures number { result ≡ from_be_bytes w64 (0 ∷ 0 ∷ self.0) }
        ensures bytes { to_be_bytes w64 result ≡ 0 ∷ 0 ∷ self.0 }
    {
        let Obis([a, b, c, d, e, f]) = self;
        number_of(a, b, c, d, e, f)
    }
}

// Returns the number whose bytes are two zeros and these six.
#[inline(always)]
#[tactic(auto, using(crate::proofs::Names::eight_written))]
fn number_of(a: u8, b: u8, c: u8, d: u8, e: u8, f: u8) -> u64
    ensures number { result ≡ from_be_bytes w64 (0 ∷ 0 ∷ a ∷ b ∷ c ∷ d ∷ e ∷ f ∷ []) }
    ensures bytes { to_be_bytes w64 result ≡ 0 ∷ 0 ∷ a ∷ b ∷ c ∷ d ∷ e ∷ f ∷ [] }
{
    u64::from_be_bytes([0, 0, a, b, c, d, e, f])
}

/// The class_id of an interface class (IEC 62056-6-2).
#[derive(Clone, Copy, Debug, PartialEq, Eq)]
pub struct ClassId(pub u16);

/// A COSEM attribute descriptor: the attribute that a GET or a SET names (IEC 62056-5-3).
#[derive(Clone, Copy, Debug, PartialEq, Eq)]
pub struct AttrRef {
    /// The class_id of the object.
    pub class: ClassId,
    /// The logical name of the object.
    pub name: Obis,
    /// The number of the attribute; 1 is the logical name.
    pub number: u8,
}

/// A COSEM method descriptor: the method that an ACTION names (IEC 62056-5-3).
#[derive(Clone, Copy, Debug, PartialEq, Eq)]
pub struct MethodRef {
    /// The class_id of the object.
    pub class: ClassId,
    /// The logical name of the object.
    pub name: Obis,
    /// The number of the method; 1 is the first.
    pub number: u8,
}
