//! The masks of up to 256 values against a threshold, computed sixteen lanes at a time or value by
//! value.

ghost use Rattle.std.specs.Prelude.{◌≡◌, ◌+◌, ◌*◌, ◌≤◌, length, map, take, drop};
ghost use Rattle.lane_sampler.specs.Masks.{AreMasks, is_over, is_under, masks_of, word_for, word_of};

use std::simd::prelude::*;

// The number of values in one vector.
const LANES: usize = 16;

// The number of values in one word of a mask.
const WORD_BITS: usize = 64;

/// Which of up to 256 values are over a threshold, and which under it. Bit `i % 64` of word `i /
/// 64` is for value `i`. A value equal to the threshold has neither bit set, and no bit after the
/// last value is set.
#[derive(Clone, Copy, Debug, PartialEq, Eq)]
pub struct Masks {
    /// The values greater than the threshold.
    pub over: [u64; 4],
    /// The values less than the threshold.
    pub under: [u64; 4],
    /// The number of values, 0 to 256.
    pub len: u16,
}

// The two words for up to 64 values: bit `i` is for value `i`.
#[derive(Clone, Copy)]
struct Word {
    over: u64,
    under: u64,
}

/// Returns the masks of at most 256 values against a threshold, computed sixteen lanes at a time.
#[tactic(auto, unfolding(crate::specs::Masks::words_of))]
pub fn classify(values: &[u32], threshold: u32) -> Masks
    requires { length values.now ≤ 256 }
    ensures bits { AreMasks values.now threshold result }
    ensures words { result ≡ masks_of values.now threshold }
{
    let words = [
        word_by_lanes(part(values, 0), threshold),
        word_by_lanes(part(values, 1), threshold),
        word_by_lanes(part(values, 2), threshold),
        word_by_lanes(part(values, 3), threshold),
    ];
    join_words(words, values.len() as u16)
}

/// Returns the masks of at most 256 values against a threshold, computed value by value.
#[tactic(auto, unfolding(crate::specs::Masks::words_of))]
pub fn classify_plain(values: &[u32], threshold: u32) -> Masks
    requires { length values.now ≤ 256 }
    ensures bits { AreMasks values.now threshold result }
    ensures words { result ≡ masks_of values.now threshold }
{
    let words = [
        word_plainly(part(values, 0), threshold),
        word_plainly(part(values, 1), threshold),
        word_plainly(part(values, 2), threshold),
        word_plainly(part(values, 3), threshold),
    ];
    join_words(words, values.len() as u16)
}

// Returns the values that one word of a mask is for.
fn part(values: &[u32], word: usize) -> &[u32]
    requires { word ≤ 3 }
    ensures values { result.now ≡ take 64 (drop (64 * word) values.now) }
    ensures within_max { length result.now ≤ 64 }
{
    let from = (WORD_BITS * word).min(values.len());
    let upto = (from + WORD_BITS).min(values.len());
    &values[from..upto]
}

// Returns the masks of these four words, for a block of `len` values.
fn join_words(words: [Word; 4], len: u16) -> Masks
    ensures over { result.over ≡ map (λ word. word.over) words }
    ensures under { result.under ≡ map (λ word. word.under) words }
    ensures len { result.len ≡ len }
{
    let [first, second, third, fourth] = words;
    Masks {
        over: [first.over, second.over, third.over, fourth.over],
        under: [first.under, second.under, third.under, fourth.under],
        len,
    }
}

// Returns the bits of at most 64 values, sixteen values at a time.
fn word_by_lanes(values: &[u32], threshold: u32) -> Word
    requires { length values.now ≤ 64 }
    ensures { result ≡ word_for values.now threshold }
{
    let mut word = Word { over: 0, under: 0 };
    let mut at = 0;
    while at + LANES <= values.len() {
        let lanes = lanes_at(values, at, threshold);
        word.over |= lanes.over << at;
        word.under |= lanes.under << at;
        at += LANES;
    }
    with_tail(word, values, at, threshold)
}

// Returns the bits of the sixteen values from `at` on.
fn lanes_at(values: &[u32], at: usize, threshold: u32) -> Word
    requires { at + LANES ≤ length values.now }
    ensures over { result.over ≡ word_of (is_over threshold) (take LANES (drop at values.now)) }
    ensures under { result.under ≡ word_of (is_under threshold) (take LANES (drop at values.now)) }
{
    let lanes = u32x16::from_slice(&values[at..]);
    let level = u32x16::splat(threshold);
    Word {
        over: lanes.simd_gt(level).to_bitmask(),
        under: lanes.simd_lt(level).to_bitmask(),
    }
}

// Returns the bits of at most 64 values, one value at a time.
fn word_plainly(values: &[u32], threshold: u32) -> Word
    requires { length values.now ≤ 64 }
    ensures { result ≡ word_for values.now threshold }
{
    with_tail(Word { over: 0, under: 0 }, values, 0, threshold)
}

// Returns the words for all values, given those for the values before `from`.
fn with_tail(mut word: Word, values: &[u32], from: usize, threshold: u32) -> Word
    requires within_max { length values.now ≤ 64 }
    requires within { from ≤ length values.now }
    requires earlier_bits { word ≡ word_for (take from values.now) threshold }
    ensures { result ≡ word_for values.now threshold }
{
    for at in from..values.len() {
        let value = values[at];
        word.over |= u64::from(value > threshold) << at;
        word.under |= u64::from(value < threshold) << at;
    }
    word
}
