//! Why the meter of `serve` cannot start: the message of each fault, and the program's fault.
ghost use Rattle.std.specs.Prelude.{◌≡◌};
ghost use Rattle.server_commands.specs.Faults.{plan_fault_of};

use program::Fault;
use thiserror::Error;

/// Why the meter of `serve` cannot start. The message is a line on standard error.
#[derive(Clone, Copy, Debug, PartialEq, Eq, Error)]
pub enum PlanFault {
    /// The password does not have 1 to 32 bytes.
    #[error("password: must be 1 to 32 bytes")]
    Password,
    /// The device name does not have 1 to 16 bytes.
    #[error("device: must be 1 to 16 bytes")]
    Device,
    /// The number of events to keep is not 1 to 1,024.
    #[error("depth: must be 1 to 1024 events")]
    Depth,
    /// Standard input does not begin with a trace. The line with this number, counted from 1, is
    /// the first that is missing or wrong.
    #[error("standard input: line {0}: not a line of a trace (trace_player says why)")]
    Line(u64),
    /// Standard input begins with a journal, which does not state the number of its events.
    #[error("standard input: expected a trace, found a journal, which --journal FILE resumes")]
    Journal,
    /// The lines of a trace would have more than 33,554,432 bytes.
    #[error("standard input: the trace has more than 33,554,432 bytes")]
    TooLong,
    /// Standard input could not be read.
    #[error("standard input: a read failed")]
    Read,
    /// Out of memory.
    #[error("out of memory")]
    Memory,
}

impl PlanFault {
    /// Returns the fault of the program: `Read` or `Memory`, and `Input` for all others.
    pub fn fault(self) -> Fault
        ensures { result ≡ plan_fault_of self }
    {
        match self {
            PlanFault::Read => Fault::Read,
            PlanFault::Memory => Fault::Memory,
            _ => Fault::Input,
        }
    }
}
