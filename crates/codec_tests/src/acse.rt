//! Association requests and responses of the Green Book, read, judged and written.
//! tests/codec_rows.py plays many more requests over the proved executable.
ghost use Rattle.std.specs.Prelude.{IfSome};
ghost use Rattle.acse_ber.specs.Password.{IsPassword};

use acse_ber::{
    Aare, Aarq, AcseFault, Info, RELEASE_REQUEST, RELEASE_RESPONSE, Verdict, is_release, judge,
    low_level_aarq, read_aare, read_aarq, write_aare, write_aarq,
};
use cosem_axdr::Octets;
use cosem_names::Level;
use std::alloc::{AllocError, Global};
use std::test::Fail;

// The AARQ of a management client with its password, in the form of the Green Book.
static MANAGEMENT_AARQ: [u8; 56] = [
    0x60, 0x36, 0xA1, 0x09, 0x06, 0x07, 0x60, 0x85, 0x74, 0x05, 0x08, 0x01, 0x01, 0x8A, 0x02, 0x07,
    0x80, 0x8B, 0x07, 0x60, 0x85, 0x74, 0x05, 0x08, 0x02, 0x01, 0xAC, 0x0A, 0x80, 0x08, 0x31, 0x32,
    0x33, 0x34, 0x35, 0x36, 0x37, 0x38, 0xBE, 0x10, 0x04, 0x0E, 0x01, 0x00, 0x00, 0x00, 0x06, 0x5F,
    0x1F, 0x04, 0x00, 0x00, 0x1C, 0x19, 0x04, 0x00,
];

// Returns whether an AARQ's context (logical names without ciphering), mechanism (low-level
// security), password and user information are those of the management client.
fn parts_found(aarq: &Aarq) -> [bool; 4] {
    let has_password = match &aarq.password {
        Some(password) => password.as_slice() == b"12345678".as_slice(),
        None => false,
    };
    [
        aarq.context.as_slice() == &MANAGEMENT_AARQ[6..13],
        aarq.mechanism.as_slice() == &MANAGEMENT_AARQ[19..26],
        has_password,
        aarq.user.as_slice() == &MANAGEMENT_AARQ[42..],
    ]
}

// Returns whether an AARQ is written as that of the management client.
fn is_written(alloc: Global, aarq: &Aarq) -> Result<bool, AllocError> {
    let text = write_aarq(alloc, aarq)?;
    let is_same = text.as_slice() == MANAGEMENT_AARQ.as_slice();
    drop(text);
    Ok(is_same)
}

// Returns whether Debug writes each field of the management client's AARQ except the password.
fn is_shown_without_its_password(alloc: Global, aarq: &Aarq) -> Result<bool, AllocError> {
    let text = format!(in alloc; "{aarq:?}")?;
    let is_same = text.as_str()
        == "Aarq { context: Octets { bytes: [96, 133, 116, 5, 8, 1, 1] }, \
            mechanism: Octets { bytes: [96, 133, 116, 5, 8, 2, 1] }, \
            user: Octets { bytes: [1, 0, 0, 0, 6, 95, 31, 4, 0, 0, 28, 25, 4, 0] }, .. }";
    drop(text);
    Ok(is_same)
}

#[test]
fn an_aarq_is_read_and_written_and_does_not_show_its_password(rt: HostRuntime) -> Result<(), Fail> {
    let aarq = read_aarq(rt.alloc(), &MANAGEMENT_AARQ)?;
    let found = parts_found(&aarq);
    let written = is_written(rt.alloc(), &aarq);
    let shown = is_shown_without_its_password(rt.alloc(), &aarq);
    drop(aarq);
    assert!(rt; found == [true; 4], "{found:?}");
    assert!(rt; written == Ok(true) && shown == Ok(true));
    Ok(())
}

#[test]
fn a_clients_aarq_is_made(rt: HostRuntime) -> Result<(), Fail> {
    let aarq = low_level_aarq(rt.alloc(), b"12345678", 0x1C19, 1024)?;
    let written = is_written(rt.alloc(), &aarq);
    drop(aarq);
    assert!(rt; written == Ok(true));
    Ok(())
}

// Returns a password of 1 to 32 bytes.
fn password_of(alloc: Global, bytes: &[u8]) -> Option<Octets>
    ensures { IfSome result IsPassword }
{
    if bytes.is_empty() || bytes.len() > 32 {
        return None;
    }
    Octets::from_slice(alloc, bytes).ok()
}

// Returns the verdict on an AARQ from port 1.
fn verdict_on(alloc: Global, aarq: &Aarq, password: &[u8]) -> Option<Verdict> {
    let password = password_of(alloc, password)?;
    let verdict = judge(aarq, 1, &password);
    drop(password);
    Some(verdict)
}

#[test]
fn the_management_client_needs_its_password(rt: HostRuntime) -> Result<(), Fail> {
    let aarq = read_aarq(rt.alloc(), &MANAGEMENT_AARQ)?;
    let accepted = verdict_on(rt.alloc(), &aarq, b"12345678");
    let rejected = verdict_on(rt.alloc(), &aarq, b"12345679");
    drop(aarq);
    let expected = Verdict::Accepted {
        level: Level::Management,
        bits: 0x1C19,
        limit: 1024,
    };
    assert!(rt; accepted == Some(expected) && rejected == Some(Verdict::Rejected(13)));
    Ok(())
}

#[test]
fn releases_are_known(rt: HostRuntime) {
    assert!(rt; is_release(&RELEASE_REQUEST) && !is_release(&RELEASE_RESPONSE));
}

// AAREs with the bytes that they are written as: one that accepts the public client, one with the
// diagnostic 14, and one with the initiate error 1.
static AARES: [(Aare, &[u8]); 3] = [
    (
        Aare {
            result: 0,
            diagnostic: 0,
            info: Info::Response {
                bits: 0x1E19,
                limit: 1024,
            },
        },
        &[
            0x61, 0x29, 0xA1, 0x09, 0x06, 0x07, 0x60, 0x85, 0x74, 0x05, 0x08, 0x01, 0x01, 0xA2,
            0x03, 0x02, 0x01, 0x00, 0xA3, 0x05, 0xA1, 0x03, 0x02, 0x01, 0x00, 0xBE, 0x10, 0x04,
            0x0E, 0x08, 0x00, 0x06, 0x5F, 0x1F, 0x04, 0x00, 0x00, 0x1E, 0x19, 0x04, 0x00, 0x00,
            0x07,
        ],
    ),
    (
        Aare {
            result: 1,
            diagnostic: 14,
            info: Info::Absent,
        },
        &[
            0x61, 0x17, 0xA1, 0x09, 0x06, 0x07, 0x60, 0x85, 0x74, 0x05, 0x08, 0x01, 0x01, 0xA2,
            0x03, 0x02, 0x01, 0x01, 0xA3, 0x05, 0xA1, 0x03, 0x02, 0x01, 0x0E,
        ],
    ),
    (
        Aare {
            result: 1,
            diagnostic: 1,
            info: Info::InitiateError(1),
        },
        &[
            0x61, 0x1F, 0xA1, 0x09, 0x06, 0x07, 0x60, 0x85, 0x74, 0x05, 0x08, 0x01, 0x01, 0xA2,
            0x03, 0x02, 0x01, 0x01, 0xA3, 0x05, 0xA1, 0x03, 0x02, 0x01, 0x01, 0xBE, 0x06, 0x04,
            0x04, 0x0E, 0x01, 0x06, 0x01,
        ],
    ),
];

// Returns whether an AARE is written as these bytes.
fn is_text_of(alloc: Global, aare: &Aare, bytes: &[u8]) -> Result<bool, AllocError> {
    let text = write_aare(alloc, aare)?;
    let is_same = text.as_slice() == bytes;
    drop(text);
    Ok(is_same)
}

#[test]
fn an_aare_is_read_and_written(rt: HostRuntime) {
    for (aare, bytes) in &AARES {
        assert!(rt; read_aare(bytes) == Ok(*aare), "{bytes:?}");
        assert!(rt;
            is_text_of(rt.alloc(), aare, bytes) == Ok(true),
            "{bytes:?}"
        );
    }
}

// Bytes of AAREs that are written in no other form, with what is read from them.
static READ_AARES: [(&[u8], Result<Aare, AcseFault>); 5] = [
    // The fields in another order, the context twice, the length of the result in the long form,
    // and another field; then the same with a byte after the last field.
    (
        &[
            0x61, 0x81, 0x20, 0xBE, 0x06, 0x04, 0x04, 0x0E, 0x01, 0x06, 0x03, 0xA3, 0x05, 0xA2,
            0x03, 0x02, 0x01, 0x02, 0xA1, 0x00, 0xA1, 0x02, 0x06, 0x00, 0x80, 0x02, 0x07, 0x80,
            0xA2, 0x82, 0x00, 0x03, 0x02, 0x01, 0x02,
        ],
        Ok(Aare {
            result: 2,
            diagnostic: 2,
            info: Info::InitiateError(3),
        }),
    ),
    (
        &[
            0x61, 0x81, 0x20, 0xBE, 0x06, 0x04, 0x04, 0x0E, 0x01, 0x06, 0x03, 0xA3, 0x05, 0xA2,
            0x03, 0x02, 0x01, 0x02, 0xA1, 0x00, 0xA1, 0x02, 0x06, 0x00, 0x80, 0x02, 0x07, 0x80,
            0xA2, 0x82, 0x00, 0x03, 0x02, 0x01, 0x02, 0xFF,
        ],
        Err(AcseFault::Unreadable),
    ),
    // The tag of a response is wrong; the kind of an error is unknown; the user information is not
    // an octet-string.
    (
        &[
            0x61, 0x1F, 0xA1, 0x09, 0x06, 0x07, 0x60, 0x85, 0x74, 0x05, 0x08, 0x01, 0x01, 0xA2,
            0x03, 0x02, 0x01, 0x00, 0xA3, 0x05, 0xA1, 0x03, 0x02, 0x01, 0x01, 0xBE, 0x06, 0x04,
            0x04, 0x0E, 0x01, 0x06, 0x01,
        ],
        Err(AcseFault::Unreadable),
    ),
    (
        &[
            0x61, 0x1F, 0xA1, 0x09, 0x06, 0x07, 0x60, 0x85, 0x74, 0x05, 0x08, 0x01, 0x01, 0xA2,
            0x03, 0x02, 0x01, 0x01, 0xA3, 0x05, 0xA1, 0x03, 0x02, 0x01, 0x01, 0xBE, 0x06, 0x04,
            0x04, 0x0E, 0x01, 0x07, 0x01,
        ],
        Ok(Aare {
            result: 1,
            diagnostic: 1,
            info: Info::Absent,
        }),
    ),
    (
        &[
            0x61, 0x1F, 0xA1, 0x09, 0x06, 0x07, 0x60, 0x85, 0x74, 0x05, 0x08, 0x01, 0x01, 0xA2,
            0x03, 0x02, 0x01, 0x01, 0xA3, 0x05, 0xA1, 0x03, 0x02, 0x01, 0x01, 0xBE, 0x06, 0x09,
            0x04, 0x0E, 0x01, 0x06, 0x01,
        ],
        Err(AcseFault::Unreadable),
    ),
];

#[test]
fn other_forms_of_an_aare_are_read(rt: HostRuntime) {
    for (bytes, expected) in &READ_AARES {
        assert!(rt; read_aare(bytes) == *expected, "{bytes:?}");
    }
}
