//! Appends a flag or a Data as a word, or a line of a label and a number.
ghost use Rattle.std.specs.Prelude.{◌≡◌, ◌++◌, ◌∷◌, [], OnOk, OnErr, decimal};
ghost use Rattle.hex.specs.Hex.{encode_upper};
ghost use Rattle.text_lines.specs.Lines.{rows_text, IsPlain};
ghost use Rattle.trace_words.specs.Labels.{number_row};
ghost use Rattle.trace_words.specs.Writing.{words_after_blanks, data_word, flag_number};

use cosem_axdr::{Data, Octets, write};
use std::alloc::{AllocError, Global};
use text_lines::{add_hex, add_number, end_line};

/// Appends the word `1` for true, `0` for false. On an error nothing is appended.
pub fn add_flag(out: &mut Vec<u8>, flag: bool) -> Result<(), AllocError>
    ensures ok { OnOk result (out.new.items ≡ out.old.items
        ++ words_after_blanks (decimal (flag_number flag) ∷ [])) }
    ensures err { OnErr result (out.new.items ≡ out.old.items) }
{
    add_number(out, if flag { 1 } else { 0 })
}

/// Appends a Data as a word: its A-XDR encoding in hexadecimal. On an error nothing is appended.
pub fn add_data(alloc: Global, out: &mut Vec<u8>, value: &Data) -> Result<(), AllocError>
    ensures ok { OnOk result (out.new.items ≡ out.old.items
        ++ words_after_blanks (data_word value.now ∷ [])) }
    ensures err { OnErr result (out.new.items ≡ out.old.items) }
    ensures plain { OnOk result (IsPlain (data_word value.now)) }
{
    let mut text = Octets::new(alloc);
    write(alloc, value, &mut text)?;
    // (no effect: the contract needs this law)
    digits_are_plain(text.as_slice());
    add_hex(alloc, out, text.as_slice())
}

// Proves that the hexadecimal digits of bytes have neither a byte 0 nor a byte 0A.
#[tactic(auto, using(text_lines::proofs::PlainLemmas::hex_is_plain))]
fn digits_are_plain(_bytes: &[u8])
    ensures { IsPlain (encode_upper _bytes.now) }
{}

/// Appends a line of a first word and a number, with the byte 0A that ends it. On an error a part
/// of it may have been appended.
#[tactic(auto, unfolding(text_lines::specs::Lines::rows_text, text_lines::specs::Lines::text_of, text_lines::specs::Words::line_of))]
pub fn write_number_line(out: &mut Vec<u8>, name: &[u8], number: u64) -> Result<(), AllocError>
    ensures { OnOk result (out.new.items ≡ out.old.items
        ++ rows_text (number_row name.now number ∷ [])) }
{
    out.extend_from_slice(name)?;
    add_number(out, number)?;
    end_line(out)
}
