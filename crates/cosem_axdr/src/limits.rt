//! The limits of a Data, and the unused bits of a bit-string.
ghost use Rattle.std.specs.Prelude.{◌≡◌, length};
ghost use Rattle.cosem_axdr.specs.Limits.{bytes_for, without_unused_bits};

// The maximum length of the text of a Data, in bytes.
pub(crate) const MAX_TEXT: usize = 8192;

// The maximum number of items of an array or structure.
pub(crate) const MAX_ITEMS: usize = 255;

// The maximum number of arrays and structures nested in each other.
pub(crate) const MAX_NESTING: usize = 8;

// The number of bits of a byte.
pub(crate) const BITS_OF_BYTE: usize = 8;

// Returns the number of bytes that hold `bits` bits.
pub(crate) fn bytes_for(bits: usize) -> usize
    ensures { result ≡ bytes_for bits }
{
    bits.div_ceil(BITS_OF_BYTE)
}

// Sets the bits past the bit count of a bit-string to 0.
pub(crate) fn clear_unused(bits: usize, bytes: &mut [u8])
    requires { length bytes.old ≡ bytes_for bits }
    ensures { bytes.new ≡ without_unused_bits bits bytes.old }
{
    let used = bits % BITS_OF_BYTE;
    if used > 0 {
        let unused = BITS_OF_BYTE - used;
        let last = bits / BITS_OF_BYTE;
        bytes[last] = bytes[last] >> unused << unused;
    }
}
