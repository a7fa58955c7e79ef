//! The report of a campaign as the list of its lines, one for each job.
ghost use Rattle.std.specs.Prelude.{◌≡◌, ◌↔◌, [], length, IsTrue};

use crate::row::ReportLine;
use std::marker::Model;

/// The report of a campaign: a line for each of its jobs, in their order. Contracts see the list of
/// the lines.
#[derive(Debug, Drop)]
pub struct Report {
    lines: Vec<ReportLine>,
}

impl Model for Report {
    ghost use Rattle.std.specs.Prelude.{List};
    ghost use Rattle.head_end.specs.declared.row.ReportLine.{ReportLine};

    ghost Value = { List ReportLine };

    ghost view = { λ report. report.lines.items };
}

impl Report {
    /// Takes ownership of the lines of a report, and allocates nothing.
    pub fn from_vec(lines: Vec<ReportLine>) -> Report
        ensures { result ≡ lines.items }
    {
        Report { lines }
    }

    /// Returns the lines, and allocates nothing.
    pub fn into_vec(self) -> Vec<ReportLine>
        ensures { result.items ≡ self }
    {
        let Report { lines } = self;
        lines
    }

    /// Returns the lines of the report, in the order of the jobs.
    pub fn as_slice(&self) -> &[ReportLine]
        ensures { result.now ≡ self.now }
    {
        self.lines.as_slice()
    }

    /// Returns the number of lines.
    pub fn len(&self) -> usize
        ensures { result ≡ length self.now }
    {
        self.lines.len()
    }

    /// Returns whether there are no lines.
    pub fn is_empty(&self) -> bool
        ensures { IsTrue result ↔ (self.now ≡ []) }
    {
        self.lines.is_empty()
    }
}
