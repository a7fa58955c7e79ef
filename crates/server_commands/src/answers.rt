//! The answers of a meter, a line of hexadecimal each.
ghost use Rattle.std.specs.Prelude.{◌≡◌, ◌++◌, ◌*◌, [], length, IfOk, OnOk};
ghost use Rattle.hex.specs.Hex.{encode_upper};
ghost use Rattle.session_io.specs.Hexadecimal.{hex_line};
ghost use Rattle.server_commands.specs.Apdu.{AddsAnswer, AnswersOn, new_answers};

use crate::requests::Requests;
use cosem_axdr::Octets;
use relay_core::RelayCore;
use session_io::answer_apdu;
use std::alloc::{AllocError, Global};

// Writes the digits of bytes, in capitals.
#[tactic(auto, using(crate::proofs::Digits::capitals))]
fn write_digits(bytes: &[u8], digits: &mut [u8])
    requires { length digits.old ≡ 2 * length bytes.now }
    ensures { digits.new ≡ encode_upper bytes.now }
{
    match hex::encode_to_slice(bytes, digits) {
        Ok(()) => {}
        Err(_) => unreachable!(),
    }
    digits.make_ascii_uppercase();
}

// Appends bytes as a line of hexadecimal in capitals. `digits` is a buffer that calls reuse.
fn add_line(bytes: &[u8], digits: &mut Vec<u8>, lines: &mut Vec<u8>) -> Result<(), AllocError>
    ensures { OnOk result (lines.new.items ≡ lines.old.items ++ hex_line bytes.now) }
{
    let count = bytes.len().checked_mul(2).ok_or(AllocError)?;
    digits.resize(count, 0)?;
    write_digits(bytes, digits.as_mut_slice());
    lines.extend_from_slice(digits.as_slice())?;
    lines.push(b'\n')?;
    Ok(())
}

// Appends a core's answer to a request as a line of hexadecimal.
fn add_answer(
    alloc: Global,
    core: &mut RelayCore,
    request: &[u8],
    digits: &mut Vec<u8>,
    lines: &mut Vec<u8>,
) -> Result<(), AllocError>
    ensures { OnOk result
        (AddsAnswer request.now core.old core.new lines.old.items lines.new.items) }
{
    let answer = answer_apdu(alloc, core, request)?;
    add_line(answer.as_slice(), digits, lines)
}

// Appends a core's answers to requests, a line of hexadecimal each.
fn add_answers(
    alloc: Global,
    core: &mut RelayCore,
    requests: &Requests,
    lines: &mut Vec<u8>,
) -> Result<(), AllocError>
    ensures { OnOk result
        (AnswersOn requests.now [] core.old core.new lines.old.items lines.new.items) }
{
    let (bytes, lengths) = requests.parts();
    let mut digits = Vec::new(alloc);
    let mut left = bytes;
    'requests: for count in lengths {
        let (request, after) = left.split_at(*count);
        add_answer(alloc, core, request, &mut digits, lines)?;
        left = after;
    }
    Ok(())
}

// Returns the answers of a new meter to requests, a line of hexadecimal each.
pub(crate) fn answers(alloc: Global, requests: &Requests) -> Result<Vec<u8>, AllocError>
    ensures { IfOk result (λ lines. lines.items ≡ new_answers requests.now) }
{
    let device = Octets::from_slice(alloc, b"RELAY1")?;
    let mut core = RelayCore::new(alloc, &device)?;
    let mut lines = Vec::new(alloc);
    let added = add_answers(alloc, &mut core, requests, &mut lines);
    drop(core);
    added?;
    Ok(lines)
}
