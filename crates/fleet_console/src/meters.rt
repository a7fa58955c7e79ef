//! `Meters`: the meters that a line means.
ghost use Rattle.std.specs.Prelude.{◌≡◌, ◌<◌, ◌≤◌, IfSome};
ghost use Rattle.fleet_console.specs.Commands.{max_meter, meter_number, meters_of, range};

use crate::words::split_at;
use text_lines::read_number;

/// The greatest number of a meter: that of the address 127.255.255.255.
pub const MAX_METER: u32 = 16_777_215;

/// The meters with the numbers from `first` to `last`.
#[derive(Clone, Copy, Debug, PartialEq, Eq)]
pub struct Meters {
    /// The number of the first meter, 1 to `MAX_METER`. No fleet has a meter 0.
    pub first: u32,
    /// The number of the last meter, not less than `first`.
    pub last: u32,
}

// Returns the number of a meter that a word writes, 1 to `MAX_METER`.
fn meter_number(word: &[u8]) -> Option<u32>
    ensures number { result ≡ meter_number word.now }
    ensures positive { IfSome result (λ number. (0 < number) × (number ≤ max_meter)) }
{
    match read_number(word, u64::from(MAX_METER)) {
        Some(number) if number > 0 => Some(number as u32),
        _ => None,
    }
}

// Returns the meters from the first number to the last, if both are numbers and in order.
fn range(first: Option<u32>, last: Option<u32>) -> Option<Meters>
    ensures { result ≡ range first last }
{
    match (first, last) {
        (Some(first), Some(last)) if first <= last => Some(Meters { first, last }),
        _ => None,
    }
}

/// Returns the meters that a word means: `all`, a number, or two numbers with a dash between them.
#[tactic(auto, unfolding(crate::specs::Commands::meters_of))]
pub(crate) fn read_meters(word: &[u8]) -> Option<Meters>
    ensures { result ≡ meters_of word.now }
{
    if word == b"all".as_slice() {
        return Some(Meters {
            first: 1,
            last: MAX_METER,
        });
    }
    if let Some(number) = meter_number(word) {
        return Some(Meters {
            first: number,
            last: number,
        });
    }
    let (first, last) = split_at(word, b'-');
    range(meter_number(first), meter_number(last))
}
