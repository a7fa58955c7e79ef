//! The command `hex`: runs the session of one client on a new meter.
ghost use Rattle.std.specs.Prelude.{◌≡◌, ◌≤◌, length, IfOk, IfErr};
ghost use Rattle.acse_ber.specs.Password.{IsPassword};
ghost use Rattle.relay_core.specs.World.{IsDeviceName};
ghost use Rattle.server_commands.specs.Sessions.{PlaysInput, PlaysText};
ghost use Rattle.session_io.specs.Sides.{output_of};

use crate::messages::CommandFault;
use crate::texts::option_octets;
use acse_ber::MAX_PASSWORD;
use cosem_axdr::Octets;
use counted_io::{Reader, Writer};
use relay_core::MAX_DEVICE_NAME;
use session_io::{HexFault, play_session, read_hex};
use std::alloc::Global;

// Runs the session of a client that sends these bytes.
fn play<W: Writer>(
    alloc: Global,
    input: &[u8],
    writer: &mut W,
    device: &Octets,
    password: &Octets,
) -> Result<(), CommandFault>
    requires writable { W.can_write writer.now }
    requires named { IsDeviceName device.now }
    requires password { IsPassword password.now }
    ensures { PlaysInput device.now password.now input.now
        (output_of W.contents W.failures writer.old) result
        (output_of W.contents W.failures writer.new) }
{
    match play_session(alloc, input, writer, device, password) {
        Ok(()) => Ok(()),
        Err(HexFault::Write) => Err(CommandFault::Write),
        Err(HexFault::Memory) => Err(CommandFault::Memory),
        Err(HexFault::Digits | HexFault::TooLong | HexFault::Read) => unreachable!(),
    }
}

/// Runs the session of a client on a new meter with this device name, 1 to 16 bytes, and this
/// password of the management client, 1 to 32 bytes. The text is the client's stream in
/// hexadecimal, in either case, with blanks and line ends skipped; each frame that the meter sends
/// is written as a line of hexadecimal in capitals.
///
/// Errors, in this order: `Password` and `Device` if that text has another length, before anything
/// is read; `TooLong` if there are more than 1,048,576 characters, or `Read`; `Digit` or
/// `OddDigits` if the text is not pairs of digits; `Write`. `Memory` can occur at any point.
/// Nothing is written before the whole text is read and decoded.
pub fn play_text<R: Reader, W: Writer>(
    alloc: Global,
    reader: &mut R,
    writer: &mut W,
    password: &str,
    device: &str,
) -> Result<(), CommandFault>
    requires readable { R.can_read reader.now }
    requires writable { W.can_write writer.now }
    ensures { PlaysText R.remaining R.failures W.contents W.failures password.now device.now
        reader.old writer.old result reader.new writer.new }
{
    let password = option_octets(
        alloc,
        password,
        MAX_PASSWORD,
        CommandFault::Password,
        CommandFault::Memory,
    )?;
    let device = option_octets(
        alloc,
        device,
        MAX_DEVICE_NAME,
        CommandFault::Device,
        CommandFault::Memory,
    )?;
    match read_hex(alloc, reader) {
        Ok(input) => play(alloc, input.as_slice(), writer, &device, &password),
        Err(fault) => Err(CommandFault::from(fault)),
    }
}
