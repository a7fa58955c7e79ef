//! Splits a text into its lines.
ghost use Rattle.std.specs.Prelude.{◌≡◌, ◌∷◌, [], MatchOption};
ghost use Rattle.text_lines.specs.Parts.{parts_at};

use memchr::memchr;

// Returns the first line of a text, without the byte 0A that ends it, and the text after it.
// Returns `None` if the text has no such byte.
#[tactic(auto, using(text_lines::proofs::Cuts::parts_whole, text_lines::proofs::Cuts::parts_cut))]
pub(crate) fn cut_line(text: &[u8]) -> Option<(&[u8], &[u8])>
    ensures { MatchOption result (parts_at 10 text.now ≡ text.now ∷ [])
        (λ parts. parts_at 10 text.now ≡ parts.0.now ∷ parts_at 10 parts.1.now) }
{
    match memchr(b'\n', text) {
        Some(end) => Some((&text[..end], &text[end + 1..])),
        None => None,
    }
}
