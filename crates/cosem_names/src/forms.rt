//! Reads logical names from Data, and dates and times in the two types in which clients may write
//! them (IEC 62056-6-2).
ghost use Rattle.std.specs.Prelude.{◌≡◌, ℕ, option_map};
ghost use Rattle.cosem_names.specs.Forms.{bytes_of_length, name_of, date_time_bytes_of, date_bytes_of, time_bytes_of};

use crate::name::Obis;
use cosem_axdr::Data;

// The length in bytes of a date-time (IEC 62056-6-2, date and time formats).
const DATE_TIME_LEN: usize = 12;

// The length in bytes of a date.
const DATE_LEN: usize = 5;

// The length in bytes of a time.
const TIME_LEN: usize = 4;

/// Returns the logical name in an octet-string of six bytes (IEC 62056-6-2, logical_name), or
/// `None` for any other Data.
pub fn name_in(value: &Data) -> Option<Obis>
    ensures { result ≡ name_of value.now }
{
    let [a, b, c, d, e, f] = value.octets()? else {
        return None;
    };
    Some(Obis([*a, *b, *c, *d, *e, *f]))
}

// Returns the bytes, or `None` if their number is not `length`.
fn of_length(bytes: &[u8], length: usize) -> Option<&[u8]>
    ensures { option_map (λ bytes. bytes.now) result ≡ bytes_of_length length bytes.now }
{
    if bytes.len() == length {
        Some(bytes)
    } else {
        None
    }
}

/// Returns the twelve bytes of a date-time, in Data of that type or in an octet-string (IEC
/// 62056-6-2, date and time formats), or `None` for any other Data.
pub fn date_time_bytes(value: &Data) -> Option<&[u8]>
    ensures { option_map (λ bytes. bytes.now) result ≡ date_time_bytes_of value.now }
{
    match value {
        Data::OctetString(octets) => of_length(octets.as_slice(), DATE_TIME_LEN),
        Data::DateTime(bytes) => of_length(bytes.as_slice(), DATE_TIME_LEN),
        _ => None,
    }
}

/// Returns the five bytes of a date, in Data of that type or in an octet-string (IEC 62056-6-2,
/// date and time formats), or `None` for any other Data.
pub fn date_bytes(value: &Data) -> Option<&[u8]>
    ensures { option_map (λ bytes. bytes.now) result ≡ date_bytes_of value.now }
{
    match value {
        Data::OctetString(octets) => of_length(octets.as_slice(), DATE_LEN),
        Data::Date(bytes) => of_length(bytes.as_slice(), DATE_LEN),
        _ => None,
    }
}

/// Returns the four bytes of a time, in Data of that type or in an octet-string (IEC 62056-6-2,
/// date and time formats), or `None` for any other Data.
pub fn time_bytes(value: &Data) -> Option<&[u8]>
    ensures { option_map (λ bytes. bytes.now) result ≡ time_bytes_of value.now }
{
    match value {
        Data::OctetString(octets) => of_length(octets.as_slice(), TIME_LEN),
        Data::Time(bytes) => of_length(bytes.as_slice(), TIME_LEN),
        _ => None,
    }
}
