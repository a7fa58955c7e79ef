//! Sessions whose bytes are written in hexadecimal. tests/sessions.py plays many more, and
//! tests/failing_streams.py has each read and each write fail.
ghost use Rattle.acse_ber.specs.Password.{IsPassword};
ghost use Rattle.relay_core.specs.World.{IsDeviceName};

use crate::streams::{Input, Output};
use cosem_axdr::Octets;
use counted_io::Counted;
use session_io::{HexFault, TextFault, read_hex, run_hex};
use std::alloc::{AllocError, Global};
use std::test::Fail;

/// The result of a text.
#[derive(Drop)]
struct Ran {
    lines: Vec<u8>,
    result: Result<(), HexFault>,
}

/// Plays a text on a meter with this device name and password.
fn play(alloc: Global, text: &str, device: &Octets, password: &Octets) -> Ran
    requires device { IsDeviceName device.now }
    requires password { IsPassword password.now }
{
    let mut reader = Counted::new(Input {
        rest: text.as_bytes(),
        piece: 1_024,
        reads: 0,
        failing: 0,
    });
    let mut writer = Counted::new(Output {
        bytes: Vec::new(alloc),
        writes: 0,
        failing: 0,
    });
    let result = run_hex(alloc, &mut reader, &mut writer, device, password);
    drop(reader);
    Ran {
        lines: writer.into_inner().bytes,
        result,
    }
}

/// Plays a text on the meter RELAY1, whose management client has the password 12345678. Returns
/// whether it has these lines as its output and this result.
fn has_output(
    alloc: Global,
    text: &str,
    lines: &str,
    expected: Result<(), HexFault>,
) -> Result<bool, AllocError> {
    let device = Octets::from_slice(alloc, b"RELAY1")?;
    let password = Octets::from_slice(alloc, b"12345678")?;
    let ran = play(alloc, text, &device, &password);
    drop(device);
    drop(password);
    let is_so = ran.result == expected && ran.lines.as_slice() == lines.as_bytes();
    drop(ran);
    Ok(is_so)
}

/// The AARQ of a public client at port 16 and its GET of the state of the switch, with blanks and a
/// line end.
const ASKED: &str =
    "0001 0010 0001 001F 601da109060760857405080101be10040e01000000065f1f0400007e1f04b0\r\n\
        000100100001000DC001C10046000060030AFF0300";

/// The AARE that accepts the client, and the response: state 1.
const ANSWERED: &str =
    "000100010010002B6129A109060760857405080101A203020100A305A103020100BE10040E0800065F1F0400001E19\
        04000007\n0001000100100006C401C1001601\n";

#[test]
fn each_frame_is_a_line(rt: HostRuntime) -> Result<(), Fail> {
    let is_played = has_output(rt.alloc(), ASKED, ANSWERED, Ok(()))?;
    assert!(rt; is_played && has_output(rt.alloc(), "0G", "", Err(HexFault::Digits))?);
    Ok(())
}

/// Returns the result of decoding a text that is read byte by byte.
fn read(alloc: Global, text: &str) -> Result<Vec<u8>, TextFault> {
    let mut reader = Counted::new(Input {
        rest: text.as_bytes(),
        piece: 1,
        reads: 0,
        failing: 0,
    });
    let bytes = read_hex(alloc, &mut reader);
    drop(reader);
    bytes
}

/// Returns whether a text is decoded to these bytes.
fn reads(alloc: Global, text: &str, expected: &[u8]) -> bool {
    match read(alloc, text) {
        Ok(bytes) => {
            let is_so = bytes.as_slice() == expected;
            drop(bytes);
            is_so
        }
        Err(_) => false,
    }
}

/// Returns the fault of decoding a text, or `None` if it is decoded.
fn fault_of(alloc: Global, text: &str) -> Option<TextFault> {
    match read(alloc, text) {
        Ok(bytes) => {
            drop(bytes);
            None
        }
        Err(fault) => Some(fault),
    }
}

/// Texts that are not decoded, and why. A wrong character is reported before an odd number of
/// digits.
static WRONG_TEXTS: [(&str, TextFault); 5] = [
    ("0", TextFault::OddDigits),
    ("00 0\r\n", TextFault::OddDigits),
    ("G", TextFault::Digit(1)),
    ("0001001000010001CA0G", TextFault::Digit(20)),
    ("00 \r\n0\t0G", TextFault::Digit(7)),
];

#[test]
fn the_first_wrong_character_is_reported(rt: HostRuntime) {
    for (text, fault) in &WRONG_TEXTS {
        let is_found = fault_of(rt.alloc(), text) == Some(*fault);
        assert!(rt;
            is_found && u8::from(HexFault::from(*fault)) == 1,
            "in {text:?}"
        );
    }
}

#[test]
fn digits_are_read_in_pairs(rt: HostRuntime) {
    let are_read = reads(rt.alloc(), " 0a\r\nFf 1\n2", &[0x0A, 0xFF, 0x12])
        && reads(rt.alloc(), "", &[]);
    assert!(rt; are_read && HexFault::from(TextFault::TooLong) == HexFault::TooLong);
}
