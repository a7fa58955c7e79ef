//! The length of a run of ones in a mask.

ghost use Rattle.std.specs.Prelude.{◌≡◌, ◌≤◌, ◌<◌, ◌-◌, ◌%◌, ◌+◌, ℕ, Bool, List, IsTrue, All, length, take, drop};
ghost use Rattle.std.specs.List.{prefix_len};
ghost use Rattle.lane_sampler.specs.Masks.{IsMask, mask_bit};
ghost use Rattle.lane_sampler.specs.Runs.{AreOnes, EndsAt, IsRun};

/// Returns the number of ones in a mask from bit `at` up to the first zero or to `len`, which is at
/// most 256. Returns 0 if `at` is not below `len`.
pub fn run_from(words: &[u64; 4], len: u16, at: u16) -> u16
    requires { len ≤ 256 }
    ensures run { IsRun words.now len at result }

    // For the mask of a test over values, this is the number of consecutive values from `at` on
    // that pass.
    ensures passing { (test : ℕ → Bool) (values : List ℕ) →
        IsMask test values words.now → length values ≡ len →
        result ≡ prefix_len test (drop at values) }
    ensures all_pass { (test : ℕ → Bool) (values : List ℕ) →
        IsMask test values words.now → All (λ v. IsTrue (test v)) (take result (drop at values)) }
{
    end_of_run(words, len, at).min(len).saturating_sub(at)
}

// Returns where the ones from bit `at` end: at a zero, or at a word's end that is not before `len`.
fn end_of_run(words: &[u64; 4], len: u16, at: u16) -> u16
    requires { len ≤ 256 }
    ensures { EndsAt words.now len at result }
{
    let mut end = at;
    while end < len {
        let left_in_word = 64 - end % 64;
        let ones = ones_in_word(words, end);
        end += ones;
        if ones < left_in_word {
            return end;
        }
    }
    end
}

// Returns the number of ones from bit `at` up to the first zero or to the end of its word.
fn ones_in_word(words: &[u64; 4], at: u16) -> u16
    requires { at < 256 }
    ensures within { result ≤ 64 - at % 64 }
    ensures set_bits { AreOnes words.now at result }
    ensures stops { result < 64 - at % 64 → mask_bit words.now (at + result) ≡ 0 }
{
    let word = words[usize::from(at / 64)] >> (at % 64);
    word.trailing_ones() as u16
}
