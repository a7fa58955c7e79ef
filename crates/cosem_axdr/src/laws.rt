//! Laws of spellings. The contract of each function states a law; calling the function makes it
//! known to the caller's proof.
ghost use Rattle.std.specs.Prelude.{◌≡◌, ℕ, List, [], ◌++◌};
ghost use Rattle.cosem_axdr.specs.Tree.{Tree};
ghost use Rattle.cosem_axdr.specs.Spelling.{IsSpelling, IsFit, text};

/// Proves that no spelling is a proper prefix of another, and that no bytes spell two values.
pub fn no_spelling_begins_another()
    ensures { (bytes rest : List ℕ) (s t : Tree) → IsSpelling bytes s → IsSpelling (bytes ++ rest) t
        → (rest ≡ []) × (s ≡ t) }
{}

/// Proves that the text of a value that fits spells it.
pub fn text_of_fit_spells()
    ensures { (t : Tree) → IsFit t → IsSpelling (text t) t }
{}
