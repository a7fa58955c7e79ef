//! Text of ASCII bytes.
ghost use Rattle.std.specs.Prelude.{◌≡◌, string_bytes};
ghost use Rattle.std.specs.Str.{IsAscii};

/// Returns ASCII bytes as text.
#[tactic(auto, using(crate::proofs::AsciiTexts::ascii_is_utf8))]
pub fn text_of(bytes: Vec<u8>) -> String
    requires { IsAscii bytes.items }
    ensures { string_bytes result ≡ bytes.items }
{
    match String::from_utf8(bytes) {
        Ok(text) => text,
        Err(_) => unreachable!(),
    }
}
