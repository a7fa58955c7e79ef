//! Reads the requests of the command `apdu`, one line of hexadecimal for each.
ghost use Rattle.std.specs.Prelude.{◌≡◌, ◌≤◌, ◌++◌, ◌∷◌, [], length, not, position, ◌⊎◌, Ok, Err, IfErr, OnOk, OnErr};
ghost use Rattle.hex.specs.declared.error.FromHexError.TheVariants.{OutOfMemory};
ghost use Rattle.hex.specs.Hex.{decode_of, is_hex_digit};
ghost use Rattle.server_commands.specs.Requests.{AddsLine, AddsRequest, IsRequestFault, ReadsRequests, character_fault, pieces_of, request_fault, total};

use crate::lines::cut_line;
use crate::messages::{CommandFault, RequestFault};
use hex::FromHexError;
use std::alloc::{AllocError, Global};
use std::marker::Model;

// Requests in order. Their bytes are adjacent, in one allocation. Contracts see the list of their
// bytes.
#[derive(Drop)]
pub(crate) struct Requests {
    bytes: Vec<u8>,
    lengths: Vec<usize>,
}

impl Model for Requests {
    ghost use Rattle.std.specs.Prelude.{◌≡◌, List, ℕ, length};
    ghost use Rattle.server_commands.specs.Requests.{pieces_of, total};

    ghost Value = { List (List ℕ) };

    ghost view = { λ requests. pieces_of requests.lengths.items requests.bytes.items };

    ghost invariant = { λ requests. total requests.lengths.items ≡ length requests.bytes.items };
}

impl Requests {
    // Returns an empty list.
    pub(crate) fn new(alloc: Global) -> Requests
        ensures { result ≡ [] }
    {
        Requests {
            bytes: Vec::new(alloc),
            lengths: Vec::new(alloc),
        }
    }

    // Appends a request. If out of memory, nothing changes.
    fn push(&mut self, request: &[u8]) -> Result<(), AllocError>
        ensures ok { OnOk result (self.new ≡ self.old ++ request.now ∷ []) }
        ensures err { OnErr result (self.new ≡ self.old) }
    {
        let before = self.bytes.len();
        self.bytes.extend_from_slice(request)?;
        match self.lengths.push(request.len()) {
            Ok(()) => Ok(()),
            Err(_) => {
                self.bytes.truncate(before);
                Err(AllocError)
            }
        }
    }

    // Returns the bytes of all requests, concatenated, and the length of each.
    pub(crate) fn parts(&self) -> (&[u8], &[usize])
        ensures pieces { self.now ≡ pieces_of result.1.now result.0.now }
        ensures lengths { total result.1.now ≡ length result.0.now }
    {
        (self.bytes.as_slice(), self.lengths.as_slice())
    }
}

// Returns the index of the first character of a line that is not a hexadecimal digit.
fn first_wrong(line: &[u8]) -> Option<usize>
    ensures { result ≡ position (λ character. not (is_hex_digit character)) line.now }
{
    line.iter()
        .position(|character| !character.is_ascii_hexdigit())
}

// Returns why a character of a line is not a digit. `place` is its number, counted from 1.
fn character_fault(character: u8, place: usize, is_last: bool) -> RequestFault
    ensures { result ≡ character_fault character place is_last }
{
    if character == b'\r' && is_last {
        RequestFault::CarriageReturn
    } else if character == b' ' {
        RequestFault::Blank(place)
    } else {
        RequestFault::Character(place)
    }
}

// Returns why a line is not pairs of hexadecimal digits.
fn request_fault(line: &[u8]) -> RequestFault
    ensures { result ≡ request_fault line.now }
{
    match first_wrong(line) {
        Some(index) => character_fault(line[index], index + 1, index + 1 == line.len()),
        None => RequestFault::Odd,
    }
}

// Decodes the pairs of digits of a line into `bytes`.
#[tactic(auto, using(crate::proofs::Decoded::line_decoded, crate::proofs::Decoded::line_undecoded))]
fn decode_line(line: &[u8], bytes: &mut Vec<u8>) -> Result<(), FromHexError>
    ensures ok { OnOk result (decode_of line.now ≡ Ok bytes.new.items) }
    ensures err { IfErr result (λ error. (error ≡ OutOfMemory) ⊎ (decode_of line.now ≡ Err error)) }
{
    match bytes.resize(line.len() / 2, 0) {
        Ok(()) => hex::decode_to_slice(line, bytes.as_mut_slice()),
        Err(_) => Err(FromHexError::OutOfMemory),
    }
}

// Returns the fault of the line with this number, whose decoding failed with this error.
#[tactic(auto, using(crate::proofs::Decoded::request_wrong))]
fn line_fault(number: usize, line: &[u8], error: FromHexError) -> CommandFault
    requires { (error ≡ OutOfMemory) ⊎ (decode_of line.now ≡ Err error) }
    ensures { IsRequestFault number line.now result }
{
    match error {
        FromHexError::OutOfMemory => CommandFault::Memory,
        FromHexError::OddLength
        | FromHexError::InvalidStringLength
        | FromHexError::InvalidHexCharacter { .. } => {
            CommandFault::Line(number, request_fault(line))
        }
    }
}

// Appends the request of the line with this number. `bytes` is a buffer that calls reuse.
#[tactic(auto, using(crate::proofs::Decoded::request_added))]
fn add_request(
    number: usize,
    line: &[u8],
    bytes: &mut Vec<u8>,
    requests: &mut Requests,
) -> Result<(), CommandFault>
    ensures { AddsRequest number line.now requests.old result requests.new }
{
    match decode_line(line, bytes) {
        Ok(()) => {}
        Err(error) => return Err(line_fault(number, line, error)),
    }
    match requests.push(bytes.as_slice()) {
        Ok(()) => Ok(()),
        Err(_) => Err(CommandFault::Memory),
    }
}

// Appends the request of the line with this number, unless the line is empty.
fn add_line(
    number: usize,
    line: &[u8],
    bytes: &mut Vec<u8>,
    requests: &mut Requests,
) -> Result<(), CommandFault>
    ensures { AddsLine number line.now requests.old result requests.new }
{
    if line.is_empty() {
        return Ok(());
    }
    add_request(number, line, bytes, requests)
}

// Reads the requests of a text, one on each line that is not empty. The last line need not end with
// the byte 0A.
//
// Errors: `Line` for the first line that is not pairs of hexadecimal digits; `Memory`, which can
// occur at any line.
pub(crate) fn read_requests(alloc: Global, text: &[u8]) -> Result<Requests, CommandFault>
    requires { length text.now ≤ 1048576 }
    ensures { ReadsRequests text.now result }
{
    let mut requests = Requests::new(alloc);
    let mut bytes = Vec::new(alloc);
    let mut number = 1;
    let mut rest = text;
    'lines: while let Some((line, after)) = cut_line(rest) {
        match add_line(number, line, &mut bytes, &mut requests) {
            Ok(()) => {}
            Err(fault) => return Err(fault),
        }
        number += 1;
        rest = after;
    }
    match add_line(number, rest, &mut bytes, &mut requests) {
        Ok(()) => Ok(requests),
        Err(fault) => Err(fault),
    }
}
