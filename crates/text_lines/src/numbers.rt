//! Reads and writes decimal numbers without signs and leading zeros.
ghost use Rattle.std.specs.Prelude.{◌≡◌, ◌≤◌, ◌+◌, ◌-◌, ◌*◌, ◌++◌, decimal, IfSome, IsTrue, SomeIff, OnOk, OnErr};
ghost use Rattle.std.specs.Char.{is_ascii_digit};
ghost use Rattle.text_lines.specs.Numbers.{begins_number, value_of, number_of};

use itoa::Buffer;
use std::alloc::AllocError;

/// Returns the number that a word writes in decimal digits without leading zeros, or `None` if the
/// word has another form or the number is above `limit`. The empty word and a word with a sign are
/// not numbers.
#[tactic(auto, using(crate::proofs::NumbersLemmas::reading))]
pub fn read_number(word: &[u8], limit: u64) -> Option<u64>
    ensures value { result ≡ number_of limit word.now }
    ensures within { IfSome result (λ number. number ≤ limit) }
{
    if !begins_number(word) {
        return None;
    }
    value_of(word, limit)
}

// Returns whether a word can begin a number: it has one byte, or several of which the first is not
// the digit 0.
fn begins_number(word: &[u8]) -> bool
    ensures { result ≡ begins_number word.now }
{
    match word {
        [] => false,
        [_] => true,
        [first, ..] => *first != b'0',
    }
}

// Returns the number that a word of digits writes, or `None` if it is above `limit`. Returns as
// soon as the digits so far exceed `limit`.
fn value_of(word: &[u8], limit: u64) -> Option<u64>
    ensures { result ≡ value_of limit word.now }
{
    let mut number = 0;
    'digits: for i in 0..word.len() {
        number = with_digit(number, word[i], limit)?;
    }
    Some(number)
}

// Returns the number with one more digit appended, or `None` if it is above `limit`.
fn with_digit(number: u64, digit: u8, limit: u64) -> Option<u64>
    ensures { SomeIff result (IsTrue (is_ascii_digit digit)
        × (number * 10 + (digit - 48) ≤ limit)) (number * 10 + (digit - 48)) }
{
    if !digit.is_ascii_digit() {
        return None;
    }
    let longer = number
        .checked_mul(10)?
        .checked_add(u64::from(digit - b'0'))?;
    if longer <= limit { Some(longer) } else { None }
}

/// Appends a number in decimal digits. On an error nothing is appended.
pub fn write_number(out: &mut Vec<u8>, number: u64) -> Result<(), AllocError>
    ensures ok { OnOk result (out.new.items ≡ out.old.items ++ decimal number) }
    ensures err { OnErr result (out.new.items ≡ out.old.items) }
{
    let mut buffer = Buffer::new();
    out.extend_from_slice(buffer.format(number).as_bytes())
}
