//! Laws of texts of lines, and examples. Each function is a law: its contract states it, and a call
//! makes it known to the prover.
ghost use Rattle.std.specs.Prelude.{◌≡◌, ◌++◌, ◌∷◌, [], ℕ, List, codes};
ghost use Rattle.std.specs.List.{AllByRecursion};
ghost use Rattle.durable_lines.specs.Holding.{Holds};
ghost use Rattle.durable_lines.specs.Lines.{lines_in, text_of, IsPlain, IsText};

/// Proves that lines without the bytes 0 and 0A are read back from their text, whatever bytes
/// follow it, and that the lines of any bytes are such lines.
#[tactic(auto, using(crate::proofs::TextLaws::text_laws))]
pub fn text_of_lines_is_read()
    ensures read_back { (lines : List (List ℕ)) (rest : List ℕ) → AllByRecursion IsPlain lines
        → lines_in (text_of lines ++ rest) ≡ lines ++ lines_in rest }
    ensures text { (lines : List (List ℕ)) → AllByRecursion IsPlain lines → IsText (text_of lines) }
    ensures plain { (bytes : List ℕ) → AllByRecursion IsPlain (lines_in bytes) }
    ensures same { (bytes : List ℕ) → lines_in (text_of (lines_in bytes)) ≡ lines_in bytes }
    ensures append { (lines more : List (List ℕ))
        → text_of (lines ++ more) ≡ text_of lines ++ text_of more }
{}

/// Proves that two texts, one after the other, are a text, and that its lines are those of both.
#[tactic(auto, using(crate::proofs::TextLaws::append_laws))]
pub fn texts_are_appended()
    ensures text { (text more : List ℕ) → IsText text → IsText more → IsText (text ++ more) }
    ensures lines { (text rest : List ℕ) → IsText text
        → lines_in (text ++ rest) ≡ lines_in text ++ lines_in rest }
{}

/// Examples of the lines of bytes: whole lines, an unfinished one, a byte 0 inside a line, and no
/// line at all.
#[tactic(auto, unfolding(text_lines::specs::Lines::text_of))]
pub fn examples_of_lines()
    ensures whole { lines_in (codes "ab\n\nc\n") ≡ codes "ab" ∷ [] ∷ codes "c" ∷ [] }
    ensures unfinished { lines_in (codes "ab\ncd") ≡ codes "ab" ∷ [] }
    ensures zero { lines_in (codes "ab\nc\0d\nef\n") ≡ codes "ab" ∷ [] }
    ensures zero_first { lines_in (codes "\0\nab\n") ≡ [] }
    ensures empty { lines_in [] ≡ [] }
    ensures text { text_of (codes "ab" ∷ [] ∷ []) ≡ codes "ab\n\n" }
{}

/// Proves what it means that a file holds lines. A file of a type that is never renewed has them,
/// after those that it had first, and a file that has them holds them. A file that had the line `a`
/// first, got `b`, was renewed as `c`, and then got `d` holds `b` and `d`.
#[tactic(auto, using(crate::proofs::HoldingLemmas::holding_laws))]
pub fn files_hold_their_lines()
    ensures plain { (first lines : List (List ℕ)) (bytes : List ℕ)
        → Holds (λ _ _. ⊥) first lines bytes → lines_in bytes ≡ first ++ lines }
    ensures whole { (first lines : List (List ℕ)) (bytes : List ℕ)
        → lines_in bytes ≡ first ++ lines → Holds (λ _ _. ⊥) first lines bytes }
    ensures example { Holds (λ old new. (old ≡ codes "a\nb\n") × (new ≡ codes "c\n"))
        (codes "a" ∷ []) (codes "b" ∷ codes "d" ∷ []) (codes "c\nd\n") }
{}
