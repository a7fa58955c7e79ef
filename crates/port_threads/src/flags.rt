//! Flags by which the threads of sessions and the accepting thread communicate.
ghost use Rattle.std.specs.Prelude.{◌<◌};

use std::sync::atomic::{AtomicBool, Ordering};

/// The maximum number of concurrent sessions.
pub const SESSIONS: usize = 8;

// Two flags for each session's place. They are needed because the handle of a thread does not show
// whether the thread has ended, and because the closure of a thread that cannot be started keeps
// its values until it is called.
#[derive(Drop)]
pub(crate) struct Flags {
    ended: [AtomicBool; SESSIONS],
    refused: [AtomicBool; SESSIONS],
}

impl Flags {
    // Returns cleared flags for all places.
    pub(crate) fn new() -> Flags {
        Flags {
            ended: new_flags(),
            refused: new_flags(),
        }
    }

    // Clears both flags of a place, before its session is started.
    pub(crate) fn begin(&self, key: usize)
        requires { key < SESSIONS }
    {
        self.ended[key].store(false, Ordering::SeqCst);
        self.refused[key].store(false, Ordering::SeqCst);
    }

    // Records that the session at this place has ended.
    pub(crate) fn end(&self, key: usize)
        requires { key < SESSIONS }
    {
        self.ended[key].store(true, Ordering::SeqCst);
    }

    // Returns whether the session at this place has ended.
    pub(crate) fn has_ended(&self, key: usize) -> bool
        requires { key < SESSIONS }
    {
        self.ended[key].load(Ordering::SeqCst)
    }

    // Records that no thread could be started for the session at this place.
    pub(crate) fn refuse(&self, key: usize)
        requires { key < SESSIONS }
    {
        self.refused[key].store(true, Ordering::SeqCst);
    }

    // Returns whether no thread could be started for the session at this place.
    pub(crate) fn is_refused(&self, key: usize) -> bool
        requires { key < SESSIONS }
    {
        self.refused[key].load(Ordering::SeqCst)
    }
}

// Returns a cleared flag for each place.
fn new_flags() -> [AtomicBool; SESSIONS] {
    [
        AtomicBool::new(false),
        AtomicBool::new(false),
        AtomicBool::new(false),
        AtomicBool::new(false),
        AtomicBool::new(false),
        AtomicBool::new(false),
        AtomicBool::new(false),
        AtomicBool::new(false),
    ]
}
