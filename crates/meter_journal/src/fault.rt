//! Why a journal fails.
use durable_lines::FileFault;
use thiserror::Error;

/// Why a journal failed. No line is written after that.
#[derive(Clone, Copy, Debug, PartialEq, Eq, Error)]
pub enum JournalFault {
    /// A line was lost because the program ran out of memory, another number of lines was taken
    /// before, or the meter has no journal.
    #[error("a line was lost or taken twice, or the meter has no journal")]
    Lines,
    /// All turns of the meter's lock were drawn.
    #[error("every turn was drawn")]
    Turns,
    /// A call on the file failed.
    #[error("{0}")]
    File(FileFault),
    /// The supply output could not be written.
    #[error("the output can't be written")]
    Relay,
}
