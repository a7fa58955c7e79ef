//! Laws of these texts. Each function is a law: its contract states it, and a call makes it known
//! to the prover.
ghost use Rattle.std.specs.Prelude.{◌≡◌, ◌<◌, ◌≤◌, ◌^◌, ◌*◌, ◌++◌, ◌∷◌, ℕ, List, [], length, decimal, Some, IsTrue};
ghost use Rattle.std.specs.List.{list_all};
ghost use Rattle.hex.specs.Hex.{encode_upper, IsBytes};
ghost use Rattle.text_lines.specs.Hexadecimal.{bytes_of};
ghost use Rattle.text_lines.specs.Numbers.{number_of};
ghost use Rattle.text_lines.specs.Words.{words_of, line_of, is_word};
ghost use Rattle.text_lines.specs.Lines.{is_row, lines_of, rows_of, rows_text, unended_of};

/// Proves that a number that is written is a word and is read back, and that no other word is read
/// as that number.
#[tactic(auto, using(crate::proofs::Known::numbers))]
pub fn written_number_is_read()
    ensures word { (n : ℕ) → n < 2 ^ 64 → IsTrue (is_word (decimal n)) }
    ensures read_back { (n limit : ℕ) → n ≤ limit → limit < 2 ^ 64
        → number_of limit (decimal n) ≡ Some n }
    ensures unique { (word : List ℕ) (n limit : ℕ) → limit < 2 ^ 64 → number_of limit word ≡ Some n
        → word ≡ decimal n }
    ensures limited { (word : List ℕ) (n limit : ℕ) → limit < 2 ^ 64 → number_of limit word ≡ Some n
        → n ≤ limit }
{}

/// Proves that bytes that are written are a word and are read back, and that no other word is read
/// as these bytes.
#[tactic(auto, using(crate::proofs::Known::hexes))]
pub fn written_bytes_are_read()
    ensures word { (bytes : List ℕ) → 0 < length bytes → IsBytes bytes
        → IsTrue (is_word (encode_upper bytes)) }
    ensures read_back { (bytes : List ℕ) → 0 < length bytes → IsBytes bytes
        → bytes_of (encode_upper bytes) ≡ Some bytes }
    ensures unique { (word bytes : List ℕ) → bytes_of word ≡ Some bytes → word
        ≡ encode_upper bytes }
    ensures bytes { (word bytes : List ℕ) → bytes_of word ≡ Some bytes → IsBytes bytes }
    ensures non_empty { (word bytes : List ℕ) → bytes_of word ≡ Some bytes → 0 < length bytes }
    ensures len { (word bytes : List ℕ) → bytes_of word ≡ Some bytes
        → length word ≡ 2 * length bytes }
{}

/// Proves that the words of a line that is written are read back, that each line is the line of its
/// words, and that one more word follows a blank.
#[tactic(auto, using(crate::proofs::Known::words))]
pub fn written_words_are_read()
    ensures read_back { (words : List (List ℕ)) → IsTrue (is_row words)
        → words_of (line_of words) ≡ words }
    ensures written_back { (line : List ℕ) → line_of (words_of line) ≡ line }
    ensures push { (words : List (List ℕ)) (word : List ℕ) → 0 < length words
        → line_of (words ++ word ∷ []) ≡ line_of words ++ 32 ∷ word }
{}

/// Proves that lines of words that are written are read back, whatever text follows them. Each text
/// is the text of its lines followed by the text after its last byte 0A. Texts are written and read
/// line by line.
#[tactic(auto, using(crate::proofs::Known::rows))]
pub fn written_lines_are_read()
    ensures read_back { (rows : List (List (List ℕ))) → IsTrue (list_all is_row rows)
        → rows_of (rows_text rows) ≡ rows }
    ensures ended { (rows : List (List (List ℕ))) → IsTrue (list_all is_row rows)
        → unended_of (rows_text rows) ≡ [] }
    ensures rows_first { (rows : List (List (List ℕ))) (rest : List ℕ)
        → IsTrue (list_all is_row rows)
        → rows_of (rows_text rows ++ rest) ≡ rows ++ rows_of rest }
    ensures unended_rest { (rows : List (List (List ℕ))) (rest : List ℕ)
        → IsTrue (list_all is_row rows)
        → unended_of (rows_text rows ++ rest) ≡ unended_of rest }
    ensures written_back { (text : List ℕ) → rows_text (rows_of text) ++ unended_of text ≡ text }
    ensures append { (rows others : List (List (List ℕ)))
        → rows_text (rows ++ others) ≡ rows_text rows ++ rows_text others }
    ensures single_row { (words : List (List ℕ)) → rows_text (words ∷ [])
        ≡ line_of words ++ 10 ∷ [] }
    ensures taken { (text line rest : List ℕ) → lines_of text ≡ line ∷ lines_of rest
        → rows_of text ≡ words_of line ∷ rows_of rest }
    ensures none { (text : List ℕ) → lines_of text ≡ [] → rows_of text ≡ [] }
{}

/// Proves that a text whose last line is ended can be split from the text that follows: the lines
/// of the whole are those of both parts, in order.
#[tactic(auto, using(crate::proofs::JoinedTexts::lines_joined, crate::proofs::JoinedTexts::unended_joined))]
pub fn text_may_be_cut_after_a_line()
    ensures lines { (text rest : List ℕ) → unended_of text ≡ []
        → lines_of (text ++ rest) ≡ lines_of text ++ lines_of rest }
    ensures unended_rest { (text rest : List ℕ) → unended_of text ≡ []
        → unended_of (text ++ rest) ≡ unended_of rest }
{}
