//! Reads the input of the command `apdu`.
ghost use Rattle.std.specs.Prelude.{◌≤◌, length, IfOk, IfErr};
ghost use Rattle.std.specs.Io.KnownBytes.{Consumes, IsAtEnd};
ghost use Rattle.server_commands.specs.Input.{StopsReading};

use crate::messages::CommandFault;
use counted_io::{Reader, read_to_end_within};
use std::alloc::Global;

// The maximum number of bytes of the input.
const MAX_BYTES: usize = 1_048_576;

// Reads all bytes of an input. Errors: `TooLong` if there are more than 1,048,576, `Read`,
// `Memory`.
pub(crate) fn read_all<R: Reader>(alloc: Global, reader: &mut R) -> Result<Vec<u8>, CommandFault>
    requires { R.can_read reader.now }
    ensures read { IfOk result
        (λ bytes. Consumes (R.remaining reader.old) (R.remaining reader.new) bytes.items) }
    ensures at_end { IfOk result (λ bytes. IsAtEnd (R.remaining reader.new)) }
    ensures within { IfOk result (λ bytes. length bytes.items ≤ 1048576) }
    ensures err { IfErr result (λ fault.
        StopsReading (R.remaining reader.old) (R.failures reader.old) fault (R.remaining reader.new)
        (R.failures reader.new)) }
{
    match read_to_end_within(alloc, reader, MAX_BYTES) {
        Ok(bytes) => Ok(bytes),
        Err(counted_io::InputFault::TooLong) => Err(CommandFault::TooLong),
        Err(counted_io::InputFault::Read) => Err(CommandFault::Read),
        Err(counted_io::InputFault::Memory) => Err(CommandFault::Memory),
    }
}
