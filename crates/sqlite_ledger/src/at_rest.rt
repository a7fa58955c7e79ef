//! `check_at_rest`: fails while a transaction is open.
ghost use Rattle.std.specs.Prelude.{◌≡◌, IfErr, OnOk};
ghost use Rattle.sqlite.specs.Held.{state};
ghost use Rattle.sqlite.specs.declared.error.Error.TheVariants.{SqliteFailure};
ghost use Rattle.sqlite.specs.declared.error.ErrorCode.TheVariants.{TransactionState};
ghost use Rattle.sqlite_ledger.specs.AtRest.{IsAtRest};

use sqlite::{Alter, Connection, Error, ErrorCode};

// Fails with `TransactionState` if a transaction is open on the connection: it would hold back what
// is written.
pub(crate) fn check_at_rest<S: Alter>(conn: &Connection<S>) -> Result<(), Error>
    ensures rest { OnOk result (IsAtRest (state S.Store conn.now)) }
    ensures fault { IfErr result (λ error. error ≡ SqliteFailure TransactionState) }
{
    if conn.is_autocommit() {
        Ok(())
    } else {
        Err(Error::SqliteFailure(ErrorCode::TransactionState))
    }
}
