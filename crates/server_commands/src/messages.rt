//! The errors of the commands `apdu` and `hex`, their messages, and the program's fault for each.
ghost use Rattle.std.specs.Prelude.{◌≡◌};
ghost use Rattle.server_commands.specs.Faults.{fault_of, input_fault_of};

use program::Fault;
use session_io::TextFault;
use thiserror::Error;

/// Why a line of the input of `apdu` is not a request in hexadecimal. Bytes are counted from 1.
#[derive(Clone, Copy, Debug, PartialEq, Eq, Error)]
pub enum RequestFault {
    /// The line has an odd number of digits, and nothing else.
    #[error("expected pairs of hexadecimal digits, found an odd number of characters")]
    Odd,
    /// The byte with this number is not a hexadecimal digit.
    #[error("byte {0}: expected a hexadecimal digit")]
    Character(usize),
    /// The byte with this number is a blank.
    #[error("byte {0}: expected a hexadecimal digit, found a blank")]
    Blank(usize),
    /// The line ends with a carriage return.
    #[error("expected a line feed at the end, found a carriage return before it")]
    CarriageReturn,
}

/// An error of the commands `apdu` and `hex`.
///
/// Lines, bytes and characters are counted from 1. The message is a line on standard error.
#[derive(Clone, Copy, Debug, PartialEq, Eq, Error)]
pub enum CommandFault {
    /// There are more than 1,048,576 bytes.
    #[error("byte 1048577: the input has more than 1,048,576 bytes")]
    TooLong,
    /// The line with this number is not a request in hexadecimal.
    #[error("line {0}: {1}")]
    Line(usize, RequestFault),
    /// In the input of `hex`, the character with this number is neither a hexadecimal digit nor
    /// skipped.
    #[error("byte {0}: expected a hexadecimal digit, a blank or a line end")]
    Digit(usize),
    /// The input of `hex` has an odd number of digits.
    #[error("standard input: expected pairs of hexadecimal digits, found an odd number of digits")]
    OddDigits,
    /// The password does not have 1 to 32 bytes.
    #[error("password: must be 1 to 32 bytes")]
    Password,
    /// The device name does not have 1 to 16 bytes.
    #[error("device: must be 1 to 16 bytes")]
    Device,
    /// Standard input could not be read.
    #[error("standard input: a read failed")]
    Read,
    /// Standard output could not be written.
    #[error("standard output: a write failed")]
    Write,
    /// Out of memory.
    #[error("out of memory")]
    Memory,
}

/// Converts the fault of the input of `hex`.
impl From<TextFault> for CommandFault {
    ghost from_gives = { λ text fault. fault ≡ input_fault_of text };

    fn from(fault: TextFault) -> CommandFault {
        match fault {
            TextFault::Digit(character) => CommandFault::Digit(character),
            TextFault::OddDigits => CommandFault::OddDigits,
            TextFault::TooLong => CommandFault::TooLong,
            TextFault::Read => CommandFault::Read,
            TextFault::Memory => CommandFault::Memory,
        }
    }
}

impl CommandFault {
    /// Returns the fault of the program: `Read`, `Write` or `Memory`, and `Input` for all others.
    pub fn fault(self) -> Fault
        ensures { result ≡ fault_of self }
    {
        match self {
            CommandFault::Read => Fault::Read,
            CommandFault::Write => Fault::Write,
            CommandFault::Memory => Fault::Memory,
            _ => Fault::Input,
        }
    }
}

/// Returns the fault of the program, after a line on standard error that says what is wrong.
pub fn report_fault<R: Eprint>(rt: &R, fault: CommandFault) -> Fault
    ensures { result ≡ fault_of fault }
{
    let _ = eprintln!(rt; "{fault}");
    fault.fault()
}
