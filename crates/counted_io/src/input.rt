//! Reads an input to its end, up to a limit of bytes.
ghost use Rattle.std.specs.Prelude.{◌≡◌, ◌<◌, ◌≤◌, ◌^◌, length, IfOk, IfErr};
ghost use Rattle.std.specs.Io.KnownBytes.{Consumes, IsAtEnd};
ghost use Rattle.counted_io.specs.Input.{StopsReading};

use crate::fault::InputFault;
use crate::streams::Reader;
use std::alloc::Global;

// The maximum number of bytes of one read.
const MAX_PIECE: usize = 16_384;

/// Reads all bytes up to the end, at most `limit`. Errors: `TooLong` as soon as more than `limit`
/// bytes were read, `Read` if a read fails, `Memory`. After an error some bytes were read and are
/// lost.
pub fn read_to_end_within<R: Reader>(
    alloc: Global,
    reader: &mut R,
    limit: usize,
) -> Result<Vec<u8>, InputFault>
    requires readable { R.can_read reader.now }
    requires limited { limit < 2 ^ 32 }
    ensures read { IfOk result
        (λ bytes. Consumes (R.remaining reader.old) (R.remaining reader.new) bytes.items) }
    ensures at_end { IfOk result (λ bytes. IsAtEnd (R.remaining reader.new)) }
    ensures within { IfOk result (λ bytes. length bytes.items ≤ limit) }
    ensures err { IfErr result
        (λ fault. StopsReading limit (R.remaining reader.old) (R.failures reader.old) fault
        (R.remaining reader.new) (R.failures reader.new)) }
{
    let mut bytes = Vec::new(alloc);
    let mut buffer = [0; MAX_PIECE];
    'pieces: for _ in 0..limit + 1 {
        let count = match reader.read(&mut buffer) {
            Ok(count) => count,
            Err(_) => return Err(InputFault::Read),
        };
        if count == 0 {
            return Ok(bytes);
        }
        bytes.extend_from_slice(&buffer[..count])?;
        if bytes.len() > limit {
            return Err(InputFault::TooLong);
        }
    }
    unreachable!()
}
