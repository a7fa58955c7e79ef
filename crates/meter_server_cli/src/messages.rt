//! The message of `serve --verbose` about an address that it cannot listen on.
use std::io::ErrorKind;

// Returns why the server cannot listen on an address.
pub(crate) fn why_not_listening(address: &str, kind: ErrorKind) -> &'static str {
    if address.rfind(':') == Some(0) {
        return "expected HOST:PORT, found no host (0.0.0.0:PORT listens on all addresses)";
    }
    match kind {
        ErrorKind::AddrInUse => "the address is in use",
        ErrorKind::AddrNotAvailable => "the address is not one of this machine",
        ErrorKind::PermissionDenied => "permission denied",
        ErrorKind::InvalidInput => "expected HOST:PORT with a port of at most 65535",
        _ => "listening failed",
    }
}
