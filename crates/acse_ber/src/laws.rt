//! Laws of spellings and written texts. The contract of each function states a law; calling the
//! function makes it known to the caller's proof.
ghost use Rattle.std.specs.Prelude.{◌≡◌, ◌≢◌, ◌⊎◌, ℕ, ◌^◌, ◌<◌, ◌≤◌, Some, List, [], ◌++◌, length, bit_and, Ok};
ghost use Rattle.cosem_axdr.specs.Spelling.{IsBytes, length_text};
ghost use Rattle.acse_ber.specs.Fit.{IsFitAarq, IsFitAare};
ghost use Rattle.acse_ber.specs.Parts.{IsLength};
ghost use Rattle.acse_ber.specs.Reading.{aarq_of, aare_of};
ghost use Rattle.acse_ber.specs.Spelling.{SpellsAarq, SpellsAare, SpellsRelease};
ghost use Rattle.acse_ber.specs.Text.{low_level, low_level_aarq, aarq_text, aare_text, release_request, release_response};
ghost use Rattle.acse_ber.specs.Verdict.{offered_services, verdict_of};
ghost use Rattle.acse_ber.specs.declared.aarq.Aarq.{Aarq};
ghost use Rattle.acse_ber.specs.declared.aare.Aare.{Aare};
ghost use Rattle.acse_ber.specs.declared.verdict.Verdict.TheVariants.{Accepted};
ghost use Rattle.cosem_names.specs.declared.level.Level.TheVariants.{Public, Management};

use crate::release::{RELEASE_REQUEST, RELEASE_RESPONSE};

/// Proves that the written text of an AARQ that fits spells it and is read back. An AARQ fits if
/// its fields have at most 65,535 bytes.
pub fn text_of_fit_aarq_spells()
    ensures fit { (aarq : Aarq) → IsFitAarq aarq → SpellsAarq (aarq_text aarq) aarq }
    ensures read_back { (aarq : Aarq) → IsFitAarq aarq → aarq_of (aarq_text aarq) ≡ Ok aarq }
{}

/// Proves that every AARQ spelled by at most 65,535 bytes fits, so that its written text spells it.
/// A frame's header can announce no more bytes.
///
/// If a longer AARQ names a mechanism without the ACSE requirements, its written text may be too
/// long by the four bytes of these requirements.
pub fn spelled_aarq_is_fit()
    ensures fit { (bytes : List ℕ) (aarq : Aarq) → IsBytes bytes → length bytes ≤ 65535
        → SpellsAarq bytes aarq → IsFitAarq aarq }
    ensures spelled { (bytes : List ℕ) (aarq : Aarq) → IsBytes bytes → length bytes ≤ 65535
        → SpellsAarq bytes aarq → SpellsAarq (aarq_text aarq) aarq }
{}

/// Proves that the written text of an AARE that fits spells it and is read back. An AARE fits if
/// its numbers are in the ranges of their fields and, if it accepts, it has an InitiateResponse.
pub fn text_of_fit_aare_spells()
    ensures fit { (aare : Aare) → IsFitAare aare → SpellsAare (aare_text aare) aare }
    ensures read_back { (aare : Aare) → IsFitAare aare → aare_of (aare_text aare) ≡ Ok aare }
{}

/// Proves that every AARE spelled by bytes fits, so that its written text spells it.
pub fn spelled_aare_is_fit()
    ensures fit { (bytes : List ℕ) (aare : Aare) → IsBytes bytes → SpellsAare bytes aare
        → IsFitAare aare }
    ensures spelled { (bytes : List ℕ) (aare : Aare) → IsBytes bytes → SpellsAare bytes aare
        → SpellsAare (aare_text aare) aare }
{}

/// Proves that no spelling is a proper prefix of another, and that no bytes spell two values.
pub fn no_spelling_begins_another()
    ensures aarq { (bytes rest : List ℕ) (one other : Aarq) → SpellsAarq bytes one
        → SpellsAarq (bytes ++ rest) other → (rest ≡ []) × (one ≡ other) }
    ensures aare { (bytes rest : List ℕ) (one other : Aare) → SpellsAare bytes one
        → SpellsAare (bytes ++ rest) other → (rest ≡ []) × (one ≡ other) }
    ensures release { (bytes rest : List ℕ) → SpellsRelease bytes → SpellsRelease (bytes ++ rest)
        → rest ≡ [] }
{}

/// Proves that no form of a length is shorter than the written one.
pub fn written_length_is_shortest()
    ensures { (bytes : List ℕ) (n : ℕ) → IsBytes bytes → IsLength bytes n
        → length (length_text n) ≤ length bytes }
{}

/// Proves that a management association is opened only from port 1, with low-level security and the
/// password, and a public client's association only from port 16.
///
/// The AARQ of a management client with the password is accepted if it proposes a service that the
/// meter offers and a size that is large enough or unlimited.
pub fn management_needs_the_password()
    ensures management { (aarq : Aarq) (sap : ℕ) (password : List ℕ) (bits limit : ℕ)
        → verdict_of aarq sap password ≡ Accepted Management bits limit
        → (sap ≡ 1) × (aarq.mechanism ≡ low_level) × (aarq.password ≡ Some password) }
    ensures public { (aarq : Aarq) (sap : ℕ) (password : List ℕ) (bits limit : ℕ)
        → verdict_of aarq sap password ≡ Accepted Public bits limit → sap ≡ 16 }
    ensures accepted { (password : List ℕ) (bits limit : ℕ) → bits < 2 ^ 24 → limit < 2 ^ 16
        → bit_and offered_services bits ≢ 0 → (limit ≡ 0) ⊎ (64 ≤ limit)
        → verdict_of (low_level_aarq password bits limit) 1 password
        ≡ Accepted Management (bit_and offered_services bits) limit }
{}

/// Proves that the RLRQ that a client sends and the RLRE that answers it have the reason normal,
/// and that the former is a valid RLRQ.
pub fn release_is_normal()
    ensures request { RELEASE_REQUEST ≡ release_request }
    ensures response { RELEASE_RESPONSE ≡ release_response }
    ensures spelled { SpellsRelease release_request }
{}
