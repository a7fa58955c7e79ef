//! The law of the questions: they switch nothing.
ghost use Rattle.std.specs.Prelude.{◌≡◌, List};
ghost use Rattle.std.specs.List.{AllByRecursion};
ghost use Rattle.client_core.specs.declared.job.Verb.TheVariants.{ReadState};
ghost use Rattle.head_end.specs.Attempts.{State};
ghost use Rattle.ledger_reports.specs.declared.line.LedgerLine.{LedgerLine};
ghost use Rattle.ledger_campaigns.specs.Uses.{HasSwitched};
ghost use Rattle.ledger_campaigns.specs.Questions.{questions};

/// Proves that each question reads the state, so that no attempt of one, however it was used, is
/// that of a switching command.
pub fn questions_switch_nothing()
    ensures verbs { (lines : List LedgerLine)
        → AllByRecursion (λ job. job.verb ≡ ReadState) (questions lines) }
    ensures attempts { (lines : List LedgerLine) (stage : State)
        → AllByRecursion (λ job. ¬ HasSwitched job.verb stage) (questions lines) }
{}
