//! Serves one session on a new meter from a text of hexadecimal, and writes each frame as a line.
ghost use Rattle.acse_ber.specs.Password.{IsPassword};
ghost use Rattle.session_io.specs.Hexadecimal.{PlaysNew, PlaysOn, RunsHex};
ghost use Rattle.session_io.specs.Sides.{input_of, output_of, outlets_of};
ghost use Rattle.relay_core.specs.World.{IsDeviceName};

use crate::fault::{HexFault, ServeFault};
use crate::form::AsHexLine;
use crate::hex_text::read_hex;
use crate::serving::end_input;
use crate::watch::UnwatchedSession;
use cosem_axdr::Octets;
use counted_io::{Reader, Writer};
use relay_core::RelayCore;
use session_core::Session;
use std::alloc::Global;

// Serves a session whose bytes are `input` on a meter, and writes each frame as a line.
fn play_on<W: Writer>(
    alloc: Global,
    input: &[u8],
    writer: &mut W,
    core: &mut RelayCore,
    password: &Octets,
) -> Result<(), HexFault>
    requires writable { W.can_write writer.now }
    requires password { IsPassword password.now }
    ensures { PlaysOn password.now input.now
        (outlets_of W.contents W.failures writer.old core.old) result
        (outlets_of W.contents W.failures writer.new core.new) }
{
    let mut session = Session::new(alloc, password)?;
    match session.feed(input) {
        Ok(()) => {}
        Err(_) => {
            drop(session);
            return Err(HexFault::Memory);
        }
    }
    let mut watch = UnwatchedSession;
    let ended = end_input::<AsHexLine, UnwatchedSession, W, RelayCore>(
        alloc,
        &mut session,
        &mut watch,
        writer,
        core,
    );
    drop(session);
    match ended {
        Ok(_) => Ok(()),
        Err(ServeFault::Write) => Err(HexFault::Write),
        Err(ServeFault::Memory) => Err(HexFault::Memory),
        Err(ServeFault::Read | ServeFault::Exhausted | ServeFault::Listen | ServeFault::Journal) =>
            unreachable!(),
    }
}

/// Serves a session whose bytes are `input` on a new meter with this device name and this password
/// of the management client. Writes each frame as a line of hexadecimal in capitals. The session
/// ends at the end of the input or at an invalid header.
///
/// Errors: `Write`, `Memory`. It never returns `Digits`, `TooLong` or `Read`.
#[tactic(auto, using(crate::proofs::HexSessions::played_new))]
pub fn play_session<W: Writer>(
    alloc: Global,
    input: &[u8],
    writer: &mut W,
    device: &Octets,
    password: &Octets,
) -> Result<(), HexFault>
    requires writable { W.can_write writer.now }
    requires named { IsDeviceName device.now }
    requires password { IsPassword password.now }
    ensures { PlaysNew device.now password.now input.now
        (output_of W.contents W.failures writer.old) result
        (output_of W.contents W.failures writer.new) }
{
    let mut core = RelayCore::new(alloc, device)?;
    let played = play_on(alloc, input, writer, &mut core, password);
    drop(core);
    played
}

/// Serves a session whose bytes are read from a text of hexadecimal: pairs of digits in either
/// case, with blanks and line ends skipped, at most 1,048,576 characters. The meter is new and has
/// this device name, 1 to 16 bytes, and this password of the management client, 1 to 32 bytes. Each
/// frame is written as a line of hexadecimal in capitals. A session that ends at an invalid header,
/// or within a frame, is not an error.
///
/// Nothing is written before the whole text is read and decoded. `TooLong` is reported before any
/// fault of the characters.
pub fn run_hex<R: Reader, W: Writer>(
    alloc: Global,
    reader: &mut R,
    writer: &mut W,
    device: &Octets,
    password: &Octets,
) -> Result<(), HexFault>
    requires readable { R.can_read reader.now }
    requires writable { W.can_write writer.now }
    requires named { IsDeviceName device.now }
    requires password { IsPassword password.now }
    ensures { RunsHex device.now password.now
        (record {
          input = input_of R.remaining R.reads R.failures reader.old;
          output = output_of W.contents W.failures writer.old;
        })
        result
        (record {
          input = input_of R.remaining R.reads R.failures reader.new;
          output = output_of W.contents W.failures writer.new;
        }) }
{
    match read_hex(alloc, reader) {
        Ok(input) => play_session(alloc, input.as_slice(), writer, device, password),
        Err(fault) => Err(HexFault::from(fault)),
    }
}
