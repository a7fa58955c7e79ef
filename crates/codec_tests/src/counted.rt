//! Streams of `std` that are read and written, and inputs within a limit. tests/failing_streams.py
//! makes each read and write of the programs fail, or be interrupted.
ghost use Rattle.std.specs.Prelude.{◌≡◌, false};

use counted_io::{Counted, InputFault, Reader, StreamFault, Writer, read_to_end_within};
use std::alloc::Global;
use std::io::Write;
use std::test::Fail;

// The input of these tests.
static FIVE: [u8; 5] = [1, 2, 3, 4, 5];

// Returns whether a slice is read to its end, three bytes at a time.
fn reads_slice() -> Result<bool, StreamFault> {
    let bytes: &[u8] = &FIVE;
    let mut reader = Counted::new(bytes);
    let mut buffer = [0; 3];
    let first = (reader.read(&mut buffer)?, buffer);
    let second = (reader.read(&mut buffer)?, buffer);
    let third = reader.read(&mut buffer)?;
    let told = (reader.has_failed(), reader.reads());
    let is_read = first == (3, [1, 2, 3]) && second == (2, [4, 5, 3]) && third == 0;
    Ok(is_read && told == (false, 3) && reader.into_inner().is_empty())
}

#[test]
fn a_slice_is_read_to_its_end(rt: HostRuntime) {
    assert!(rt; reads_slice() == Ok(true));
}

// Writes three bytes in two pieces, with an empty write between them.
fn write_three<W: Write>(writer: &mut Counted<W>) -> Result<(), StreamFault>
    requires { writer.old.has_failed ≡ false }
{
    writer.write_all(&[1, 2])?;
    writer.write_all(&[])?;
    writer.write_all(&[3])
}

#[test]
fn a_vector_takes_what_is_written(rt: HostRuntime) -> Result<(), Fail> {
    let mut writer = Counted::new(Vec::new(rt.alloc()));
    let written = write_three(&mut writer);
    let has_failed = writer.has_failed();
    let bytes = writer.into_inner();
    let same = bytes.as_slice() == [1, 2, 3].as_slice();
    drop(bytes);
    assert!(rt; written == Ok(()) && !has_failed && same);
    Ok(())
}

// Returns whether five bytes are read within a limit.
fn reads_five(alloc: Global, limit: u16) -> Result<bool, InputFault> {
    let bytes: &[u8] = &FIVE;
    let mut reader = Counted::new(bytes);
    let read = read_to_end_within(alloc, &mut reader, usize::from(limit))?;
    let same = read.as_slice() == bytes;
    drop(read);
    Ok(same)
}

#[test]
fn an_input_is_read_within_its_limit(rt: HostRuntime) {
    let alloc = rt.alloc();
    assert!(rt;
        reads_five(alloc, 5) == Ok(true) && reads_five(alloc, 4) == Err(InputFault::TooLong)
    );
}
