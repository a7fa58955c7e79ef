//! Lines that are read from an input: at the end, over the limit, and after a failed read.
ghost use Rattle.std.specs.Prelude.{◌<◌, ◌^◌};

use counted_io::{InputFault, Monitored, read_line_within};
use std::alloc::Global;
use std::io;
use std::io::{BufReader, ErrorKind, Read};

// Returns the lengths of two lines and of the rest of an input.
fn read_three(
    input: &mut BufReader<Monitored<&[u8]>>,
    text: &mut Vec<u8>,
    limit: usize,
) -> Result<[usize; 3], InputFault>
    requires { limit < 2 ^ 32 }
{
    let first = read_line_within(input, text, limit)?;
    let second = read_line_within(input, text, limit)?;
    let third = read_line_within(input, text, limit)?;
    Ok([first, second, third])
}

// Returns the lengths of two lines and of the rest, read from `ab`, a line end and `c`.
fn lengths(alloc: Global, limit: usize) -> Result<[usize; 3], InputFault>
    requires { limit < 2 ^ 32 }
{
    let stream = Monitored::new(b"ab\nc".as_slice());
    let Ok(mut input) = BufReader::new(alloc, stream) else {
        return Err(InputFault::Memory);
    };
    let mut text = Vec::new(alloc);
    let lengths = read_three(&mut input, &mut text, limit);
    drop(input);
    drop(text);
    lengths
}

/// A stream whose reads fail.
#[derive(Drop)]
struct Failing;

impl Read for Failing {
    fn read(&mut self, _buffer: &mut [u8]) -> io::Result<usize> {
        Err(io::Error::from(ErrorKind::ConnectionReset))
    }
}

// Returns whether the read of a line of a failing stream fails, and the stream has failed then.
fn is_recorded(alloc: Global) -> bool {
    let Ok(mut input) = BufReader::new(alloc, Monitored::new(Failing)) else {
        return false;
    };
    let mut text = Vec::new(alloc);
    let read = read_line_within(&mut input, &mut text, 4);
    let has_failed = input.get_ref().has_failed();
    drop(input);
    drop(text);
    read == Err(InputFault::Read) && has_failed
}

#[test]
fn lines_are_read_up_to_their_limit_or_a_failed_read(rt: HostRuntime) {
    for limit in 0..4 {
        assert!(rt; lengths(rt.alloc(), limit) == Err(InputFault::TooLong));
    }
    assert!(rt; lengths(rt.alloc(), 4) == Ok([3, 1, 0]) && is_recorded(rt.alloc()));
}
