//! Values of JSON that may be missing.
ghost use Rattle.std.specs.Prelude.{◌≡◌, option_map, string_bytes};
ghost use Rattle.serde_json.specs.Data.{number, string, unsigned};
ghost use Rattle.serde_json.specs.View.{view};
ghost use Rattle.record_parts.specs.Values.{nullable};

use serde_json::Value;

/// Returns a number, or null if there is none.
pub fn number_value(given: Option<u32>) -> Value
    ensures { view result ≡ nullable (option_map (λ n. number (unsigned n)) given) }
{
    match given {
        Some(number) => Value::from(number),
        None => Value::from(()),
    }
}

/// Returns a text as a string, or null if there is none.
pub fn text_value(text: Option<String>) -> Value
    ensures { view result ≡ nullable (option_map (λ t. string (string_bytes t)) text) }
{
    match text {
        Some(text) => Value::from(text),
        None => Value::from(()),
    }
}
