//! The words of a line.
ghost use Rattle.std.specs.Prelude.{◌≡◌, ◌==◌};
ghost use Rattle.std.specs.List.{before_first, after_first};
ghost use Rattle.fleet_console.specs.Commands.{state_word, state_of};

use disconnect_control::ControlState;
use memchr::memchr;

/// Returns the bytes before and after the first byte equal to `byte`; all bytes and none if there
/// is no such byte.
#[tactic(auto, using(crate::proofs::Cuts::whole_before, crate::proofs::Cuts::none_after, crate::proofs::Cuts::part_before, crate::proofs::Cuts::part_after))]
pub(crate) fn split_at(bytes: &[u8], byte: u8) -> (&[u8], &[u8])
    ensures first { result.0.now ≡ before_first (λ b. b == byte) bytes.now }
    ensures rest { result.1.now ≡ after_first (λ b. b == byte) bytes.now }
{
    match memchr(byte, bytes) {
        Some(at) => (&bytes[..at], &bytes[at + 1..]),
        None => (bytes, &[]),
    }
}

/// Returns the control state that a word means: `disconnected`, `connected` or `ready`.
#[tactic(auto, unfolding(crate::specs::Commands::state_of))]
pub(crate) fn control_state(word: &[u8]) -> Option<ControlState>
    ensures { result ≡ state_of word.now }
{
    if word == b"disconnected".as_slice() {
        Some(ControlState::Disconnected)
    } else if word == b"connected".as_slice() {
        Some(ControlState::Connected)
    } else if word == b"ready".as_slice() {
        Some(ControlState::ReadyForReconnection)
    } else {
        None
    }
}

/// Returns the word of a control state.
pub(crate) fn state_word(state: ControlState) -> &'static [u8]
    ensures { result.now ≡ state_word state }
{
    match state {
        ControlState::Disconnected => b"disconnected",
        ControlState::Connected => b"connected",
        ControlState::ReadyForReconnection => b"ready",
    }
}
