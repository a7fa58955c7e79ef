//! What a book makes of SQLite's errors.
ghost use Rattle.std.specs.Prelude.{◌≡◌};
ghost use Rattle.sqlite_ledger.specs.Taken.{fault_of, is_taken};

use campaign_ledger::LedgerFault;
use sqlite::{Constraint, Error, ErrorCode};

// Returns whether the row's key was taken.
pub(crate) fn is_taken(error: Error) -> bool
    ensures { result ≡ is_taken error }
{
    matches!(
        error,
        Error::SqliteFailure(ErrorCode::ConstraintViolation(Constraint::PrimaryKey))
    )
}

// Returns the fault of a book for an error that ends it.
pub(crate) fn fault_of(error: Error) -> LedgerFault
    ensures { result ≡ fault_of error }
{
    match error {
        Error::SqliteFailure(ErrorCode::OutOfMemory) => LedgerFault::Memory,
        _ => LedgerFault::Failed,
    }
}
