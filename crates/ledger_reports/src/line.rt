//! A line of a ledger: a job, its entry and its times.
use campaign_ledger::LedgerEntry;
use client_core::Job;

/// When a ledger wrote what it knows of a job, in seconds since 1970-01-01 00:00:00 UTC. `None` if
/// it has no such row, or if the clock could not be read then.
#[derive(Clone, Copy, Debug, PartialEq, Eq)]
pub struct LedgerTimes {
    /// When the job was marked, just before its command was sent.
    pub begun: Option<u32>,
    /// When the outcome was stored.
    pub ended: Option<u32>,
}

/// The control state that a meter reported when it was asked later, and when the asking began, in
/// seconds since 1970-01-01 00:00:00 UTC; `None` if the clock could not be read then.
#[derive(Clone, Copy, Debug, PartialEq, Eq)]
pub struct MeterState {
    /// The control state, 0 to 2.
    pub state: u8,
    /// When the asking began.
    pub asked_at: Option<u32>,
}

/// A line of a ledger: what it knows of a job of its campaign.
#[derive(Debug, Drop)]
pub struct LedgerLine {
    /// The job: its name, its meter and its request.
    pub job: Job,
    /// Whether its command may have been sent, and its outcome if one is stored.
    pub entry: LedgerEntry,
    /// When it was marked and when it ended.
    pub times: LedgerTimes,
    /// The latest state that its meter reported after the command, if it was asked.
    pub answer: Option<MeterState>,
}
