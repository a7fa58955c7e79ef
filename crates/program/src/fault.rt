//! Why a program failed: the word of the line `fault: WORD` on standard error, and the exit status.
ghost use Rattle.std.specs.Prelude.{◌≡◌};
ghost use Rattle.program.specs.Statuses.{status_of};

use thiserror::Error;

/// Why a program failed. It is displayed as its word.
#[derive(Clone, Copy, Debug, PartialEq, Eq, Error)]
pub enum Fault {
    /// `input`: standard input, a password or a name is not valid for the command. Exit status 2.
    #[error("input")]
    Input,
    /// `read`: standard input or a file that the command line names could not be read. Exit
    /// status 3.
    #[error("read")]
    Read,
    /// `write`: standard output or a file that the command line names could not be written. Exit
    /// status 3.
    #[error("write")]
    Write,
    /// `listen`: listening for connections failed. Exit status 3.
    #[error("listen")]
    Listen,
    /// `memory`: out of memory. Exit status 4.
    #[error("memory")]
    Memory,
    /// `turns`: the meter accepts no more calls. Exit status 4.
    #[error("turns")]
    Turns,
}

impl Fault {
    /// Returns the exit status of the program: 2, 3 or 4.
    pub fn status(self) -> u8
        ensures { result ≡ status_of self }
    {
        match self {
            Fault::Input => 2,
            Fault::Read | Fault::Write | Fault::Listen => 3,
            Fault::Memory | Fault::Turns => 4,
        }
    }
}
