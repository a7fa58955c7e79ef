//! Tests for `tests/refused_memory.py`, which runs each once for every allocation that it makes and
//! refuses that one.
//!
//! With enough memory each test succeeds. If the tested call runs out of memory, the test checks
//! the state, continues as if nothing had happened, and fails with `RefusedAndStood`. If an
//! allocation outside the tested call is refused, it fails with `AllocError`.

mod page;
mod ports;
mod recorders;
mod servers;
mod sessions;
mod traces;

/// The tested call ran out of memory, and the state afterwards was the required one.
#[derive(Debug, Drop)]
pub(crate) struct RefusedAndStood;
