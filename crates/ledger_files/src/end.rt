//! `LedgerEnd`: how the ledger of a campaign ended.

/// How the ledger of a campaign ended.
#[derive(Clone, Copy, Debug, PartialEq, Eq)]
pub enum LedgerEnd {
    /// No call on it failed, and the file was closed.
    Closed,
    /// No call on it failed; the file could not be closed.
    NotClosed,
    /// A call on it failed, after which it gave no permit. Or the workers did not return it, which
    /// no run does; no contract states that.
    Failed,
}
