//! The release of an association (IEC 62056-5-3, RLRQ and RLRE).
ghost use Rattle.std.specs.Prelude.{◌≡◌, ◌↔◌, IsTrue};
ghost use Rattle.acse_ber.specs.Reading.{is_release_text};
ghost use Rattle.acse_ber.specs.Spelling.{SpellsRelease};

use crate::field::{are_fields, read_tagged};
use crate::tag;

/// The RLRQ that a client sends, with the reason normal.
pub const RELEASE_REQUEST: [u8; 5] = [0x62, 0x03, 0x80, 0x01, 0x00];

/// The RLRE that answers an RLRQ, with the reason normal.
pub const RELEASE_RESPONSE: [u8; 5] = [0x63, 0x03, 0x80, 0x01, 0x00];

/// Returns whether bytes are an RLRQ: a length that ends at the last byte, filled by any fields.
pub fn is_release(bytes: &[u8]) -> bool
    // True exactly if the bytes spell an RLRQ.
    ensures spelled { IsTrue result ↔ SpellsRelease bytes.now }
    ensures exact { result ≡ is_release_text bytes.now }
{
    is_whole_release(bytes)
}

// Returns what `is_release` returns; its contract refers to the definition `is_release_text` alone.
#[tactic(auto, unfolding(crate::specs::Reading::is_release_text))]
fn is_whole_release(bytes: &[u8]) -> bool
    ensures { result ≡ is_release_text bytes.now }
{
    match read_tagged(tag::RLRQ, bytes) {
        Ok(body) => are_fields(body),
        Err(_) => false,
    }
}
