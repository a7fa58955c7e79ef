//! What is at the path of a ledger before a command uses it.
use client_core::Job;
use ledger_files::{LedgerPresence, find_ledger, make_ledger};
use sqlite_ledger::LedgerOpenFault;

// Returns what is at the path of a ledger, and writes a line on standard error on a fault. Errors:
// `NotALedger` for another file, and for a ledger whose log is missing: what a killed run has
// marked is in the log alone, and its commands would be sent again; `File`.
pub(crate) fn present_ledger(
    rt: &HostRuntime,
    path: &str,
) -> Result<LedgerPresence, LedgerOpenFault> {
    match find_ledger(rt, path) {
        Ok(LedgerPresence::WithoutLog) => {
            let _ = eprintln!(rt;
                "ledger: {path}-wal is missing, which may have marks of a killed run: put it back \
                 (if the last run ended in order, an empty file will do)"
            );
            Err(LedgerOpenFault::NotALedger)
        }
        Ok(presence) => Ok(presence),
        Err(fault) => {
            let _ = eprintln!(rt; "ledger: {fault}");
            Err(fault)
        }
    }
}

// Makes the ledger of a campaign with these jobs if there is none, so that its file has the list
// before a command is sent. Writes a line on standard error on a fault. Errors: those of
// `present_ledger` and of the making.
pub(crate) fn prepare_ledger(
    rt: &HostRuntime,
    path: &str,
    jobs: &[Job],
) -> Result<(), LedgerOpenFault> {
    match present_ledger(rt, path)? {
        LedgerPresence::Missing | LedgerPresence::Empty => match make_ledger(rt, path, jobs) {
            Ok(()) => Ok(()),
            Err(fault) => {
                let _ = eprintln!(rt; "ledger: {fault}");
                Err(fault)
            }
        },
        LedgerPresence::Whole | LedgerPresence::WithoutLog => Ok(()),
    }
}
