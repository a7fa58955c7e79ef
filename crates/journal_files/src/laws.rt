//! Laws of journals. Each function is a law: its contract states it, and a call makes it known to
//! the prover.
ghost use Rattle.std.specs.Prelude.{◌≡◌, ◌≤◌, ◌++◌, ℕ, List, Ok, length};
ghost use Rattle.journal_files.specs.Journals.{Continues, changing};
ghost use Rattle.journal_files.specs.Renewals.{AnswerAlike, IsRenewalOf};
ghost use Rattle.journal_files.specs.Running.{HoldsRun};
ghost use Rattle.durable_lines.specs.Lines.{IsText};
ghost use Rattle.relay_core.specs.Runs.{world_after};
ghost use Rattle.relay_events.specs.declared.event.Event.{Event};
ghost use Rattle.relay_recorder.specs.Recording.{Recording};
ghost use Rattle.relay_recorder.specs.declared.trace.Trace.{Trace};
ghost use Rattle.trace_openings.specs.OpeningTraced.{IsWritable};
ghost use Rattle.trace_player.specs.Journals.{IsJournal, events_text, journal_text};
ghost use Rattle.trace_player.specs.Journals.{with_events};
ghost use Rattle.trace_player.specs.Resuming.{world_of};
ghost use Rattle.trace_player.specs.Traces.{max_bytes, trace_of};
ghost use Rattle.trace_player.specs.Written.{AreTraced};
ghost use Rattle.trace_words.specs.WholeLines.{IsTail};

use trace_player::written_journal_is_read;

/// Proves that a meter that is started again has the state that it had. Its journal was begun with
/// a trace; since then it got the line of each event that may change the meter, and whatever torn
/// tail. It is read as the trace with these events, and the meter after that trace is the one after
/// all events, also those that only read.
#[tactic(auto, using(crate::proofs::Restarts::goes_on))]
pub fn restarted_meter_stands_where_it_stood()
    ensures read { (trace : Trace) (events : List Event) (tail : List ℕ)
        → IsWritable trace.opening → AreTraced trace.events → AreTraced (changing events)
        → IsTail tail
        → length (journal_text trace ++ events_text (changing events) ++ tail) ≤ max_bytes
        → trace_of (journal_text trace ++ events_text (changing events) ++ tail)
        ≡ Ok (with_events trace (changing events)) }
    ensures stands { (trace : Trace) (events : List Event)
        → world_of (with_events trace (changing events)) ≡ world_after events (world_of trace) }
{
    written_journal_is_read();
}

/// Proves that a meter that is resumed from a renewed journal answers as one that is resumed from
/// the old journal, whatever events come next.
#[tactic(auto, using(crate::proofs::RenewalLemmas::renewed_answers))]
pub fn renewed_meter_stands_where_it_stood()
    ensures { (depth : ℕ) (old new device : List ℕ) (before after : Recording)
        → IsRenewalOf depth old new → (from_old : Continues device old before)
        → (from_new : Continues device new after)
        → AnswerAlike (world_of from_new.trace) (world_of from_old.trace) }
{}

/// Proves that a meter that is started again from a journal that was renewed while it ran has the
/// state that it had. The file began as a journal, got the lines of events that may change the
/// meter, and was renewed any number of times. Whatever a crash left after its last whole line, a
/// meter that is resumed from it answers as the one that got all the events, also those that only
/// read.
#[tactic(auto, using(crate::proofs::RunLemmas::run_told))]
pub fn renewed_run_is_resumed()
    ensures { (device began left : List ℕ) (trace : Trace) (events : List Event)
        (recorder : Recording) → IsText began → IsJournal began → trace_of began ≡ Ok trace
        → AreTraced (changing events) → HoldsRun began events left
        → (from : Continues device left recorder)
        → AnswerAlike (world_of from.trace) (world_after events (world_of trace)) }
{}
