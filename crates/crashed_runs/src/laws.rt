//! The laws of runs that a crash ends.
ghost use Rattle.std.specs.Prelude.{◌≡◌, ◌≤◌, ℕ, IfOk, List, Ok, Option, Result, Some, length};
ghost use Rattle.std.specs.Prelude.{⊤};
ghost use Rattle.crashed_runs.specs.Answers.{AnswerSessions, ContinuesAnswers};
ghost use Rattle.crashed_runs.specs.Answers.{HasAnsweredLines};
ghost use Rattle.crashed_runs.specs.Fronts.{ContinuesFront, run_events};
ghost use Rattle.crashed_runs.specs.Saves.{AreSaves, ContinuesAnswered, IsSave, RenewsJournals};
ghost use Rattle.crashed_runs.specs.Saves.{Stand, count_after};
ghost use Rattle.durable_lines.specs.CrashModel.{LeavesOnly};
ghost use Rattle.durable_lines.specs.Lines.{IsReady, IsSettled, IsText, lines_in};
ghost use Rattle.journal_files.specs.Journals.{Continues, changing};
ghost use Rattle.journal_files.specs.Renewals.{IsRenewedAs};
ghost use Rattle.meter_journal.specs.Saving.{IsSaved, IsSavedFrom};
ghost use Rattle.meter_journal.specs.declared.fault.JournalFault.{JournalFault};
ghost use Rattle.meter_journal.specs.declared.journal.JournalParts.{JournalParts};
ghost use Rattle.meter_journal.specs.declared.saving.Saved.{Saved};
ghost use Rattle.meter_run.specs.Journaled.{AnyEnd, IsOnDisk, IsRun};
ghost use Rattle.meter_server.specs.WithSources.{Forecasts};
ghost use Rattle.meter_server.specs.declared.serving_all.Served.{Served};
ghost use Rattle.program.specs.declared.fault.Fault.{Fault};
ghost use Rattle.relay_recorder.specs.Recording.{Recording};
ghost use Rattle.relay_recorder.specs.declared.trace.Trace.{Trace};
ghost use Rattle.session_io.specs.declared.fault.ServeFault.{ServeFault};
ghost use Rattle.shared_meter.specs.Calls.{Calls, IsLegal};
ghost use Rattle.shared_meter.specs.Handed.{MeterPort};
ghost use Rattle.shared_meter.specs.Pending.{lines_of_calls};
ghost use Rattle.trace_player.specs.Journals.{IsJournal};
ghost use Rattle.trace_player.specs.Resuming.{world_of};
ghost use Rattle.trace_player.specs.Traces.{trace_of};
ghost use Rattle.trace_player.specs.Written.{AreTraced};
ghost use Rattle.turn_lock.specs.Calls.{Watches};
ghost use Rattle.turn_lock.specs.History.{StartsWith};

use durable_lines::DurableFile;
use meter_journal::{JournalFault, JournalParts, Saved, SupplyOutput, save};
use shared_meter::Kept;
use std::alloc::Global;
use std::io::{Read, Write};
use std::sync::Wait;
use turn_lock::Port;

/// Proves which meter is resumed after a crash. A run began with a journal, and made these calls. A
/// crash left a file that holds the first lines of these calls, at least `from` lines, however
/// often the journal was renewed meanwhile. A meter that is resumed from that file answers as the
/// one that made the first calls of the run, at least those up to line number `from`, whatever
/// comes next.
pub fn crashed_run_is_resumed()
    ensures { (from : ℕ) (device began left : List ℕ) (trace : Trace) (calls : Calls)
        (recorder : Recording) → IsText began → IsJournal began → trace_of began ≡ Ok trace
        → AreTraced (changing (run_events calls))
        → IsSavedFrom IsRenewedAs from (lines_in began) calls left
        → (resumed : Continues device left recorder)
        → ContinuesFront from calls (world_of trace) (world_of resumed.trace) }
{}

/// Proves that in a run with a journal each session's calls, all but at most the last one, were
/// answered from a front of the run's own history, once the lines of that front were on the disk: a
/// sync of the run's own file had returned while it held the lines that it had first, followed by
/// at least these lines of the same history.
pub fn sessions_of_a_run_are_answered<F: DurableFile, S: SupplyOutput, I: Read, O: Write>()
    ensures { (parts : JournalParts F S) (recorder : Recording) (password : List ℕ)
        (sources : Forecasts) (served : Result Served ServeFault)
        (journal : Result (Unit {0}) Fault) (ended : Option (JournalParts F S)) (text : List ℕ)
        → (run : IsRun F.model S.contents I.remaining O.contents AnyEnd (Some parts) recorder
        password sources served journal ended text)
        → AnswerSessions (IsOnDisk F.model parts.file) run.run.of_run.ports run.run.calls }
{}

/// Proves that a crash undoes no answer. A run with a journal was made on a file that acts as the
/// crash model says and was returned, and a crash at any moment of it left these bytes. They hold
/// the first lines of the run, at least the lines of each front of its history from which a session
/// was answered. A meter that is resumed from them answers as the one that made the first calls of
/// the run, and these include each answered call of each session that may change the meter.
///
/// That the crash left as many lines is a premise: `sessions_of_a_run_are_answered` says that they
/// were on the disk when the answer was written, and the crash model that a crash leaves what was
/// synced.
pub fn answered_calls_are_resumed<F: DurableFile, S: SupplyOutput, I: Read, O: Write>()
    ensures { (parts ended : JournalParts F S) (recorder : Recording) (password : List ℕ)
        (sources : Forecasts) (served : Result Served ServeFault)
        (journal : Result (Unit {0}) Fault) (text : List ℕ) → RenewsJournals F.model
        → (run : IsRun F.model S.contents I.remaining O.contents AnyEnd (Some parts) recorder
        password sources served journal (Some ended) text)
        → (sessions : AnswerSessions (IsOnDisk F.model parts.file) run.run.of_run.ports
        run.run.calls)
        → (acts : F.model.acts) → (left : List ℕ)
        → (crash : F.model.left_since ended.file (F.model.moment parts.file) left)
        → HasAnsweredLines sessions ((run.leaves.kept acts).any_moment.each left crash).0
        → (device : List ℕ) (trace : Trace) (after : Recording)
        → IsText (F.model.seen parts.file) → IsJournal (F.model.seen parts.file)
        → trace_of (F.model.seen parts.file) ≡ Ok trace
        → AreTraced (changing (run_events run.run.calls))
        → (resumed : Continues device left after)
        → ContinuesAnswers sessions ((run.leaves.kept acts).any_moment.each left crash).0
        (world_of trace) (world_of resumed.trace) }
{}

/// Proves that a crash after a save undoes no call that the save has put on the disk. A journal
/// began with these bytes. A save returned `Ok`, and the file then held a number of lines of the
/// history, as the clauses `saved` and `settled` of [`save`](meter_journal::save) say. Any number
/// of saves came next, whatever they returned, and a crash at any moment since then left these
/// bytes. Take any front of the history with at most as many lines, such as the one that a session
/// was answered from once these lines were on the disk. A meter that is resumed from the bytes
/// answers as the one that made the first calls of the history, and these have each call of the
/// front that may change the meter.
pub fn saved_calls_are_resumed<F: DurableFile>()
    ensures { (saves : ℕ) (device began left : List ℕ) (trace : Trace) (answered : Calls)
        (old new : Stand F) (after : Recording) → RenewsJournals F.model
        → IsText began → IsJournal began → trace_of began ≡ Ok trace
        → AreTraced (changing (run_events new.calls)) → IsSettled F.model old.file
        → IsSaved F.model.renews (lines_in began) old.count old.calls (F.model.seen old.file)
        → StartsWith old.calls answered → length (lines_of_calls answered) ≤ old.count
        → AreSaves F.model (lines_in began) saves old new
        → F.model.left_since new.file (F.model.moment old.file) left
        → (resumed : Continues device left after)
        → ContinuesAnswered old.count answered new.calls (world_of trace)
        (world_of resumed.trace) }
{}

/// Proves that a call of [`save`](meter_journal::save) is one of the saves of
/// [`saved_calls_are_resumed`], whatever it returned. The premises are the clauses `watches`,
/// `count` and `any_moment` of its contract, for a file that held `taken` lines of the history.
pub fn each_call_of_save_is_a_save<F: DurableFile>()
    ensures { (first : List (List ℕ)) (old new : F) (p q : MeterPort) (taken : ℕ)
        (result : Result Saved JournalFault) → Watches IsLegal p.known q.known
        → IfOk result (λ saved. saved.count ≡ length (lines_of_calls q.known.seen))
        → IsSaved F.model.renews first taken p.known.seen (F.model.seen old)
        → LeavesOnly F.model old new (IsSavedFrom F.model.renews taken first q.known.seen)
        → IsSave F.model first (record { file = old; calls = p.known.seen; count = taken })
        (record { file = new; calls = q.known.seen; count = count_after taken result }) }
{}

// Calls `save`: its clauses are the premises of `each_call_of_save_is_a_save`. No program calls it.
fn save_as_one_of_the_saves<F: DurableFile, W: Wait>(
    rt: &W,
    alloc: Global,
    port: &mut Port<Kept>,
    file: &mut F,
    taken: u64,
    room: Vec<u8>,
) -> Result<Saved, JournalFault>
    requires { IsReady F.model file.old }
    ensures { F.model.acts → (first : List (List ℕ))
        → IsSaved F.model.renews first taken port.old.known.seen (F.model.seen file.old)
        → IsSave F.model first
        (record { file = file.old; calls = port.old.known.seen; count = taken })
        (record {
          file = file.new;
          calls = port.new.known.seen;
          count = count_after taken result;
        }) }
{
    each_call_of_save_is_a_save::<F>();
    save(rt, alloc, port, file, taken, room)
}
