//! What an error of `accept` means for the listener. The numbers of errors are those of Linux, on
//! x86-64 and aarch64.
ghost use Rattle.std.specs.Prelude.{◌≡◌};
ghost use Rattle.server_io.specs.Accepting.{error_meaning};

use std::io;

// What an error of `accept` means for the listener.
#[derive(Clone, Copy, Debug, PartialEq, Eq)]
pub(crate) enum AcceptError {
    // One client is gone, or a signal came: the next call may succeed.
    Transient,
    // A call after a while may succeed.
    Passing,
    // No later call succeeds.
    Final,
}

// A rule of a firewall forbids the connection.
const EPERM: u32 = 1;

// A signal came.
const EINTR: u32 = 4;

// The system has no memory.
const ENOMEM: u32 = 12;

// The system has no descriptor.
const ENFILE: u32 = 23;

// The process has no descriptor.
const EMFILE: u32 = 24;

// The machine is not on the network.
const ENONET: u32 = 64;

// The protocol failed.
const EPROTO: u32 = 71;

// The protocol lacks an option.
const ENOPROTOOPT: u32 = 92;

// The protocol lacks an operation.
const EOPNOTSUPP: u32 = 95;

// The network is down.
const ENETDOWN: u32 = 100;

// The network can't be reached.
const ENETUNREACH: u32 = 101;

// The client closed the connection.
const ECONNABORTED: u32 = 103;

// The system has no memory for sockets.
const ENOBUFS: u32 = 105;

// The client's machine is down.
const EHOSTDOWN: u32 = 112;

// The client's machine can't be reached.
const EHOSTUNREACH: u32 = 113;

// Returns what the error of this number means: those that are not listed are final.
fn meaning_of_number(number: u32) -> AcceptError
    ensures { result ≡ error_meaning number }
{
    match number {
        EINTR | ECONNABORTED => AcceptError::Transient,
        ENOMEM | ENFILE | EMFILE | ENOBUFS | EPERM => AcceptError::Passing,
        ENONET | EPROTO | ENOPROTOOPT | EOPNOTSUPP => AcceptError::Passing,
        ENETDOWN | ENETUNREACH | EHOSTDOWN | EHOSTUNREACH => AcceptError::Passing,
        _ => AcceptError::Final,
    }
}

// Returns what an error of `accept` means. One without a number is final.
pub(crate) fn meaning_of(error: &io::Error) -> AcceptError {
    match error.raw_os_error() {
        Some(number) => meaning_of_number(number.unsigned_abs()),
        None => AcceptError::Final,
    }
}
