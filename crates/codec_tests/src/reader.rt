//! Tests of the byte cursor: its order, the fault that its caller passes, and values that are
//! dropped on an error.
use std::process::Abort;
use wire_bytes::{Cursor, and_keep};
use xdlms_apdu::ApduFault;

// A response to a GET with the value 1 of an enumeration.
const GOT: [u8; 6] = [0xC4, 0x01, 0xC1, 0x00, 0x16, 0x01];

#[test]
fn a_reader_goes_from_left_to_right(rt: HostRuntime) {
    let fault = ApduFault::Unreadable;
    let mut reader = Cursor::new(&GOT);
    assert!(rt;
        reader.read_byte(fault) == Ok(0xC4)
            && reader.read_array(fault) == Ok([0x01, 0xC1, 0x00])
            && reader.rest() == [0x16, 0x01].as_slice()
            && reader.finish(0x16, fault) == Err(fault)
            && reader.read_bytes(2, fault) == Ok([0x16, 0x01].as_slice())
            && reader.is_empty()
            && reader.finish(0x16, fault) == Ok(0x16)
    );
}

#[test]
fn a_reader_answers_the_fault_that_it_is_given(rt: HostRuntime) {
    let (tag, form) = (ApduFault::UnknownTag, ApduFault::UnknownForm);
    let array: Result<[u8; 7], ApduFault> = Cursor::new(&GOT).read_array(ApduFault::Unreadable);
    assert!(rt;
        Cursor::new(&[]).read_byte(tag) == Err(tag)
            && Cursor::new(&GOT).read_bytes(7, form) == Err(form)
            && array == Err(ApduFault::Unreadable)
    );
}

#[test]
fn what_was_read_before_is_let_go_at_a_fault(rt: HostRuntime) {
    let fault = ApduFault::Unreadable;
    assert!(rt;
        and_keep(0xC4u8, Cursor::new(&GOT).read_byte(fault)) == Ok((0xC4, 0xC4))
            && and_keep(0xC4u8, Cursor::new(&[]).read_byte(fault)) == Err(fault)
    );
}
