//! The bytes of a wrapper frame (IEC 62056-4-7). tests/unproved/long_tests has frames byte by byte,
//! and payloads of each length; tests/sessions.py and tests/codec_rows.py play frames in other
//! pieces and wrong headers over the proved executable.
use std::test::Fail;
use wrapper_frame::{WrapperFault, frame, put_frame};

/// A payload, and its frame from port 1 to port 16.
static WRITTEN: ([u8; 6], [u8; 14]) = (
    [0xC4, 0x01, 0xC1, 0x00, 0x16, 0x01],
    [
        0x00, 0x01, 0x00, 0x01, 0x00, 0x10, 0x00, 0x06, 0xC4, 0x01, 0xC1, 0x00, 0x16, 0x01,
    ],
);

#[test]
fn a_frame_has_the_written_text(rt: HostRuntime) -> Result<(), Fail> {
    let text = frame(rt.alloc(), 1, 16, &WRITTEN.0)?;
    let same = text.as_slice() == WRITTEN.1.as_slice();
    drop(text);
    let fault = frame(rt.alloc(), 16, 1, &[0xAB; 1025]).err();
    assert!(rt; same && fault == Some(WrapperFault::TooLong));
    Ok(())
}

#[test]
fn a_frame_is_put_into_a_buffer_that_is_long_enough(rt: HostRuntime) {
    let mut buffer = [0xEE; 16];
    let count = put_frame(1, 16, &WRITTEN.0, &mut buffer);
    let is_put = count == Some(14) && &buffer[..14] == WRITTEN.1.as_slice();
    let is_kept = buffer[14] == 0xEE && buffer[15] == 0xEE;
    let mut short = [0xEE; 13];
    let is_refused = put_frame(1, 16, &WRITTEN.0, &mut short).is_none();
    assert!(rt; is_put && is_kept && is_refused && short == [0xEE; 13]);
}
