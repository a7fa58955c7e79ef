//! Laws of campaigns. The contract of each function states a law; calling the function makes it
//! known to the caller's proof.
ghost use Rattle.head_end.specs.Campaigns.{HaveOwnSlots};
ghost use Rattle.head_end.specs.Laws.{ReportsJoin, LinesJoin, IsTheReport, JobsJoin};

/// Proves that the reports of the parts of a campaign, concatenated in order, are a report of the
/// whole campaign. If the connector predicts all meters' reads and no job runs out of memory, it is
/// the only report of these jobs, whatever the number of workers, the machines and the parts.
pub fn reports_stand_end_to_end()
    ensures text { ReportsJoin }
    ensures lines { LinesJoin }
    ensures unique { IsTheReport }
{}

/// Proves that no two jobs have one slot, so that each job has an attempt of its own.
pub fn jobs_have_slots_of_their_own()
    ensures { HaveOwnSlots }
{}

/// Proves that a list of jobs may be split after any line: the jobs of the parts, in order, are
/// those of the whole.
pub fn jobs_may_be_cut()
    ensures { JobsJoin }
{}
