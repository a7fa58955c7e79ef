//! A line of a report: the name of a job, and its outcome or out of memory.
use client_core::Outcome;
use cosem_axdr::Octets;

/// The result of a job.
#[derive(Clone, Copy, Debug, PartialEq, Eq)]
pub enum Row {
    /// The job ended with this outcome.
    Came(Outcome),
    /// The job ran out of memory, before or after its request was sent.
    Memory,
}

/// A line of a report: the name of a job and its result.
#[derive(Debug, Drop)]
pub struct ReportLine {
    /// The name of the job.
    pub id: Octets,
    /// The result of the job.
    pub row: Row,
}
