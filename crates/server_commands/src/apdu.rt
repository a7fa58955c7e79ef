//! The command `apdu`: answers each request of a text on a new meter.
ghost use Rattle.server_commands.specs.Apdu.{AnswersText};

use crate::answers::answers;
use crate::input::read_all;
use crate::messages::CommandFault;
use crate::requests::read_requests;
use counted_io::{Reader, Writer};
use std::alloc::Global;

/// Answers the requests of a text, one on each line, with a new meter of the device name RELAY1.
/// Each answer is a line of hexadecimal in capitals. Requests may have digits in either case; empty
/// lines are skipped; the last line need not be ended.
///
/// The whole text is read and all requests are decoded before anything is written. Errors:
/// `TooLong` if there are more than 1,048,576 bytes, `Read` if a read fails, `Line` for the first
/// invalid line, `Write`, `Memory`. After any error but `Write` nothing is written.
pub fn answer_text<R: Reader, W: Writer>(
    alloc: Global,
    reader: &mut R,
    writer: &mut W,
) -> Result<(), CommandFault>
    requires readable { R.can_read reader.now }
    requires writable { W.can_write writer.now }
    ensures { AnswersText R.remaining R.failures W.contents W.failures reader.old writer.old result
        reader.new writer.new }
{
    let text = read_all(alloc, reader)?;
    let requests = read_requests(alloc, text.as_slice())?;
    let Ok(lines) = answers(alloc, &requests) else {
        return Err(CommandFault::Memory);
    };
    match writer.write_all(lines.as_slice()) {
        Ok(()) => Ok(()),
        Err(_) => Err(CommandFault::Write),
    }
}
