//! A filter of texts: it knows of most texts that they were not added.
ghost use Rattle.std.specs.Prelude.{◌≡◌, ℕ, List, true};
ghost use Rattle.head_end_commands.specs.Filters.{hash_of, has_place, place_of};

// The number of places of a filter.
const PLACES: usize = 16_384;

// A set of texts without the texts: each marks one of 16,384 places, by its hash. It allocates
// nothing.
#[derive(Drop)]
pub(crate) struct TextFilter {
    marks: [bool; PLACES],
}

impl TextFilter {
    // Returns a filter without texts.
    pub(crate) fn new() -> TextFilter {
        TextFilter {
            marks: [false; PLACES],
        }
    }

    // Adds a text to the set.
    pub(crate) fn add(&mut self, text: &[u8])
        ensures added { has_place self.new text.now ≡ true }
        ensures kept { (other : List ℕ) → has_place self.old other ≡ true
            → has_place self.new other ≡ true }
    {
        self.marks[place_of(text)] = true;
    }

    // Returns whether a text may have been added. `false` is certain.
    pub(crate) fn may_have(&self, text: &[u8]) -> bool
        ensures { result ≡ has_place self.now text.now }
    {
        self.marks[place_of(text)]
    }
}

// Returns the place of a text.
fn place_of(text: &[u8]) -> usize
    ensures { result ≡ place_of text.now }
{
    hash_of(text) as usize % PLACES
}

// Returns the hash of a text by the function FNV-1a of 64 bits.
fn hash_of(text: &[u8]) -> u64
    ensures { result ≡ hash_of text.now }
{
    let mut hash: u64 = 0xCBF2_9CE4_8422_2325;
    'bytes: for byte in text {
        hash = (hash ^ u64::from(*byte)).wrapping_mul(0x0100_0000_01B3);
    }
    hash
}
