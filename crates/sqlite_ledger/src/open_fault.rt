//! The faults of opening a ledger.
ghost use Rattle.std.specs.Prelude.{◌≡◌};
ghost use Rattle.sqlite_ledger.specs.declared.open_fault.LedgerOpenFault.TheVariants as open_fault;
ghost use Rattle.sqlite_ledger.specs.OpenFaults.{fault_for};

use sqlite::{Error as SqliteError, ErrorCode};
use std::alloc::AllocError;
use thiserror::Error;

/// Why a ledger, or the file of answers next to it, was not opened.
#[derive(Clone, Copy, Debug, PartialEq, Eq, Error)]
pub enum LedgerOpenFault {
    /// The file is a database with other tables or rows than a ledger's, or no database.
    #[error("not a ledger")]
    NotALedger = 1,
    /// The ledger is that of another list of jobs.
    #[error("the ledger of another list of jobs")]
    OtherList = 2,
    /// Another process has the file open.
    #[error("another process has the ledger open")]
    Busy = 3,
    /// The file cannot be opened, read or written.
    #[error("can't open the file")]
    File = 4,
    /// Out of memory.
    #[error("out of memory")]
    Memory = 5,
    /// The file of answers next to a ledger is a database with other tables or rows, or no
    /// database.
    #[error("the file of answers has other tables")]
    Answers = 6,
}

/// Returns the fault for an error of SQLite while a ledger is opened.
impl From<SqliteError> for LedgerOpenFault {
    ghost from_gives = { λ error fault. fault ≡ fault_for error };

    fn from(error: SqliteError) -> LedgerOpenFault {
        match error {
            SqliteError::SqliteFailure(ErrorCode::NotADatabase) => LedgerOpenFault::NotALedger,
            SqliteError::SqliteFailure(ErrorCode::DatabaseBusy) => LedgerOpenFault::Busy,
            SqliteError::SqliteFailure(ErrorCode::OutOfMemory) => LedgerOpenFault::Memory,
            SqliteError::InvalidColumnType(_, _) => LedgerOpenFault::NotALedger,
            SqliteError::IntegralValueOutOfRange(_) => LedgerOpenFault::NotALedger,
            SqliteError::Utf8Error(_) => LedgerOpenFault::NotALedger,
            _ => LedgerOpenFault::File,
        }
    }
}

impl From<AllocError> for LedgerOpenFault {
    ghost from_gives = { λ _ fault. fault ≡ open_fault.Memory };

    fn from(_error: AllocError) -> LedgerOpenFault {
        LedgerOpenFault::Memory
    }
}
