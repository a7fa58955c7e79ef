//! Splits bytes at the first occurrence of a byte.
ghost use Rattle.std.specs.Prelude.{◌≡◌, [], ◌∷◌, MatchOption};
ghost use Rattle.text_lines.specs.Parts.{parts_at};

use memchr::memchr;

// Returns the bytes before and after the first byte equal to `byte`, or `None` if there is none.
#[tactic(auto, using(crate::proofs::Cuts::parts_whole, crate::proofs::Cuts::parts_cut))]
#[inline(always)]
pub(crate) fn cut_at(bytes: &[u8], byte: u8) -> Option<(&[u8], &[u8])>
    ensures { MatchOption result (parts_at byte bytes.now ≡ bytes.now ∷ [])
        (λ parts. parts_at byte bytes.now ≡ parts.0.now ∷ parts_at byte parts.1.now) }
{
    match memchr(byte, bytes) {
        Some(at) => Some((&bytes[..at], &bytes[at + 1..])),
        None => None,
    }
}
