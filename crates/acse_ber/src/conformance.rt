//! The conformance block (IEC 62056-5-3): one bit for each service of an association.
ghost use Rattle.std.specs.Prelude.{⊤, [], ◌∷◌, codes};
ghost use Rattle.acse_ber.specs.Conformance.{get_in_blocks, set_in_blocks, action_in_blocks, multiple_references, get_service, set_service, action_service};

use bitflags::{Flag, Flags, bitflag_items};

/// A conformance block of 24 bits, of which bit 0 is the highest. Bits without a name are
/// preserved.
#[derive(Clone, Copy, Debug, PartialEq, Eq)]
pub struct Conformance(pub u32);

bitflag_items! {
    impl Conformance: u32 {
        // Block transfer with GET: bit 11, block-transfer-with-get-or-read.
        const BLOCK_TRANSFER_WITH_GET_OR_READ = 1 << (23 - 11);
        // Block transfer with SET: bit 12, block-transfer-with-set-or-write.
        const BLOCK_TRANSFER_WITH_SET_OR_WRITE = 1 << (23 - 12);
        // Block transfer with ACTION: bit 13, block-transfer-with-action.
        const BLOCK_TRANSFER_WITH_ACTION = 1 << (23 - 13);
        // Lists of attributes or methods: bit 14, multiple-references.
        const MULTIPLE_REFERENCES = 1 << (23 - 14);
        // The service GET: bit 19, get.
        const GET = 1 << (23 - 19);
        // The service SET: bit 20, set.
        const SET = 1 << (23 - 20);
        // The service ACTION: bit 23, action.
        const ACTION = 1 << (23 - 23);
    }
}

impl Flags for Conformance {
    type Bits = u32;

    ghost exact = { ⊤ };

    ghost table = { (codes "BLOCK_TRANSFER_WITH_GET_OR_READ", get_in_blocks)
        ∷ (codes "BLOCK_TRANSFER_WITH_SET_OR_WRITE", set_in_blocks)
        ∷ (codes "BLOCK_TRANSFER_WITH_ACTION", action_in_blocks)
        ∷ (codes "MULTIPLE_REFERENCES", multiple_references)
        ∷ (codes "GET", get_service)
        ∷ (codes "SET", set_service)
        ∷ (codes "ACTION", action_service)
        ∷ [] };

    ghost set_of = { λ conformance. conformance.0 };

    fn flags<'a>() -> &'a [Flag<Conformance>] {
        Conformance::FLAGS
    }

    fn bits(&self) -> u32 {
        self.0
    }

    fn from_bits_retain(bits: u32) -> Conformance {
        Conformance(bits)
    }
}
