//! Which errors of a connect pass once another connection is closed.
use std::io;

// The system has no memory.
const ENOMEM: i32 = 12;

// The system has no descriptor.
const ENFILE: i32 = 23;

// The process has no descriptor.
const EMFILE: i32 = 24;

// The address has no local port left.
const EADDRNOTAVAIL: i32 = 99;

// The system has no memory for sockets.
const ENOBUFS: i32 = 105;

// Returns whether a connect may succeed once another connection is closed.
pub(crate) fn is_shortage(error: &io::Error) -> bool {
    matches!(
        error.raw_os_error(),
        Some(ENOMEM | ENFILE | EMFILE | EADDRNOTAVAIL | ENOBUFS)
    )
}
