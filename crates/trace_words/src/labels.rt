//! Reads a line that begins with an expected label, such as `device`.
ghost use Rattle.std.specs.Prelude.{Result, Ok, Err, IfOk, IsErrOf};
ghost use Rattle.std.specs.Fn.{FnOnceReturnsAt};
ghost use Rattle.wire_bytes.specs.Outcome.{Gives};
ghost use Rattle.trace_words.specs.Labels.{IsWordReader, words_after, labelled_value};
ghost use Rattle.trace_words.specs.Rows.{Word, Reads};
ghost use Rattle.trace_words.specs.declared.fault.RowFault.{RowFault};
ghost use Rattle.trace_words.specs.declared.fault.RowFault.TheVariants.{Memory};

use crate::fault::RowFault;
use crate::words::{last_word, next_word};
use text_lines::Words;

/// Reads the next word, which must be `label`. Errors: `Wrong` if it is missing or another word.
#[tactic(auto, unfolding(crate::specs::Labels::words_after))]
pub fn read_label(label: &[u8], words: &mut Words) -> Result<(), RowFault>
    ensures reads { Reads (λ done. done) result words.new (words_after label.now words.old) }
    ensures no_memory { ¬ IsErrOf result RowFault.Memory }
{
    if next_word(words)? == label {
        Ok(())
    } else {
        Err(RowFault::Wrong)
    }
}

/// Reads a line of two words: `label`, and a value that `parse` reads. Errors: `Wrong` if the
/// words are others, else the error of `parse`: out of memory only if `parse` is.
pub fn read_labelled<X: Drop, F: FnOnce(&[u8]) -> Result<X, RowFault>>(
    label: &[u8],
    words: &mut Words,
    parse: F,
) -> Result<X, RowFault>
    requires { F.IsAlwaysCallable parse }
    ensures reads { (of_word : Word → Result X RowFault) → IsWordReader F.FnOnce parse of_word
        → Gives Memory (λ x. x) result (labelled_value label.now of_word words.old) }
    ensures answered { IfOk result (λ x. (word : Word)
        × FnOnceReturnsAt F.FnOnce parse word (Ok x)) }
    ensures memory { IsErrOf result RowFault.Memory → (word : Word)
        × FnOnceReturnsAt F.FnOnce parse word (Err RowFault.Memory) }
{
    read_label(label, words)?;
    parse(last_word(words)?)
}
