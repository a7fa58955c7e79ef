//! The fault of each invalid request or response, and encodings that are read but never written.
use crate::apdu::{is_request, is_response};
use xdlms_apdu::ApduFault;

// Bytes that are not a request, each with the fault of reading them.
static REQUEST_FAULTS: [(&[u8], ApduFault); 11] = [
    (&[], ApduFault::UnknownTag),
    (&[0x60, 0x01], ApduFault::UnknownTag),
    (&[0xC2], ApduFault::UnknownTag),
    (&[0xC4, 0x01, 0xC1, 0x00, 0x16, 0x01], ApduFault::UnknownTag),
    (&[0xC0, 0x00], ApduFault::UnknownForm),
    (&[0xC0, 0x04, 0xC1], ApduFault::UnknownForm),
    (&[0xC1, 0x04], ApduFault::UnknownForm),
    (&[0xC3, 0x02], ApduFault::UnknownForm),
    (&[0xC3, 0x05], ApduFault::UnknownForm),
    // Lengths with no byte and with five bytes after the first.
    (
        &[
            0xC1, 0x03, 0xC1, 0x01, 0x00, 0x00, 0x00, 0x02, 0x80, 0x00, 0x00, 0x00, 0x00, 0x00,
        ],
        ApduFault::Unreadable,
    ),
    (
        &[
            0xC1, 0x03, 0xC1, 0x01, 0x00, 0x00, 0x00, 0x02, 0x85, 0x00, 0x00, 0x00, 0x00, 0x00,
        ],
        ApduFault::Unreadable,
    ),
];

// Bytes that are not a response, each with the fault of reading them.
static RESPONSE_FAULTS: [(&[u8], ApduFault); 12] = [
    (&[], ApduFault::UnknownTag),
    (&[0x61, 0x01], ApduFault::UnknownTag),
    (
        &[
            0xC0, 0x01, 0xC1, 0x00, 0x46, 0x00, 0x00, 0x60, 0x03, 0x0A, 0xFF, 0x03, 0x00,
        ],
        ApduFault::UnknownTag,
    ),
    (&[0xD9, 0x01, 0x01], ApduFault::UnknownTag),
    (&[0xC4, 0x04], ApduFault::UnknownForm),
    (&[0xC5, 0x04], ApduFault::UnknownForm),
    (&[0xC7, 0x02], ApduFault::UnknownForm),
    (&[0xC7, 0x03, 0xC1], ApduFault::UnknownForm),
    (&[0xC5, 0x01, 0xC1, 0x05], ApduFault::Unreadable),
    (&[0xC4, 0x01, 0xC1, 0x02, 0x00], ApduFault::Unreadable),
    (&[0xC7, 0x01, 0xC1, 0x00, 0x01], ApduFault::Unreadable),
    (&[0xD8, 0x02, 0x01], ApduFault::Unreadable),
];

#[test]
fn a_request_fault_says_how_far_the_bytes_are_known(rt: HostRuntime) {
    for (bytes, fault) in &REQUEST_FAULTS {
        assert!(rt;
            is_request(rt.alloc(), bytes, bytes) == Err(*fault),
            "{bytes:?}"
        );
    }
}

#[test]
fn a_response_fault_says_how_far_the_bytes_are_known(rt: HostRuntime) {
    for (bytes, fault) in &RESPONSE_FAULTS {
        assert!(rt; is_response(rt.alloc(), bytes) == Err(*fault), "{bytes:?}");
    }
}

// Other spellings than those written: a length in a longer form, any byte for true, and any
// selector with any parameters.
static OTHER_SPELLINGS: [(&[u8], &[u8]); 2] = [
    (
        &[
            0xC1, 0x03, 0xC1, 0xFF, 0x00, 0x00, 0x00, 0x02, 0x82, 0x00, 0x02, 0x1B, 0x58,
        ],
        &[
            0xC1, 0x03, 0xC1, 0x01, 0x00, 0x00, 0x00, 0x02, 0x02, 0x1B, 0x58,
        ],
    ),
    (
        &[
            0xC0, 0x01, 0xC1, 0x00, 0x46, 0x00, 0x00, 0x60, 0x03, 0x0A, 0xFF, 0x03, 0x05, 0x02,
            0x02, 0x02, 0x11, 0x01, 0x11, 0x02,
        ],
        &[
            0xC0, 0x01, 0xC1, 0x00, 0x46, 0x00, 0x00, 0x60, 0x03, 0x0A, 0xFF, 0x03, 0x01, 0x00,
            0x00,
        ],
    ),
];

#[test]
fn other_spellings_are_read_and_not_written(rt: HostRuntime) {
    for (bytes, written) in &OTHER_SPELLINGS {
        assert!(rt;
            is_request(rt.alloc(), bytes, written) == Ok(true),
            "{bytes:?}"
        );
    }
}
