//! Laws of traces and their texts. Each function is a law: its contract states it, and a call makes
//! it known to the prover.
ghost use Rattle.std.specs.Prelude.{◌≡◌, ◌≤◌, ◌++◌, ◌∷◌, ℕ, false, List, Ok, length};
ghost use Rattle.relay_core.specs.Opening.{world_of_opening};
ghost use Rattle.relay_events.specs.declared.event.Event.{Event};
ghost use Rattle.relay_recorder.specs.Recording.{Recording};
ghost use Rattle.relay_recorder.specs.Replaying.{Replays};
ghost use Rattle.relay_recorder.specs.declared.trace.Trace.{Trace};
ghost use Rattle.trace_openings.specs.OpeningForms.{Forms, AreFormsOf, written_forms};
ghost use Rattle.trace_openings.specs.OpeningTraced.{IsWritable};
ghost use Rattle.trace_words.specs.WholeLines.{IsTail, has_end, whole_text};
ghost use Rattle.trace_player.specs.Exported.{PrintsTheEnd};
ghost use Rattle.trace_player.specs.Journals.{IsJournal, events_text, journal_text, with_events};
ghost use Rattle.trace_player.specs.Traces.{max_bytes, trace_of, trace_text};
ghost use Rattle.trace_player.specs.Versions.{IsCounted, IsOfVersionTwo, text_with};
ghost use Rattle.trace_player.specs.Written.{AreTraced, IsWritableTrace};

use trace_openings::written_opening_is_read;

/// Proves that a trace that a core can start from, with numbers in the ranges of their types, is
/// read back from the text that is written for it.
pub fn written_trace_is_read()
    ensures { (trace : Trace) → IsWritableTrace trace → trace_of (trace_text trace) ≡ Ok trace }
{
    written_opening_is_read();
}

/// Proves that a journal is read back: as the trace that it was begun with, and after it has grown
/// as that trace with all further events, whatever torn tail follows the last whole line.
pub fn written_journal_is_read()
    ensures whole { (trace : Trace) → IsWritable trace.opening → AreTraced trace.events
        → length (journal_text trace) ≤ max_bytes → trace_of (journal_text trace) ≡ Ok trace }
    ensures grown { (trace : Trace) (more : List Event) (tail : List ℕ)
        → IsWritable trace.opening → AreTraced trace.events → AreTraced more → IsTail tail
        → length (journal_text trace ++ events_text more ++ tail) ≤ max_bytes
        → trace_of (journal_text trace ++ events_text more ++ tail)
        ≡ Ok (with_events trace more) }
{
    written_opening_is_read();
}

/// Proves that a journal that is read is read as the same trace once all that follows its last
/// whole line before its first byte 0 is cut, as recovery does.
#[tactic(auto, using(crate::proofs::Recovered::recovered_again))]
pub fn recovered_journal_is_read()
    ensures { (text : List ℕ) (trace : Trace) → IsJournal text → trace_of text ≡ Ok trace
        → trace_of (whole_text text) ≡ Ok trace }
{}

/// Proves that a journal that is read, and has no torn tail, is read with the events whose lines
/// are appended to it, whatever torn tail follows them.
#[tactic(auto, using(crate::proofs::Appended::appended_again))]
pub fn appended_journal_is_read()
    ensures { (text : List ℕ) (trace : Trace) (more : List Event) (tail : List ℕ)
        → IsJournal text → trace_of text ≡ Ok trace → whole_text text ≡ text → AreTraced more
        → IsTail tail → length (text ++ events_text more ++ tail) ≤ max_bytes
        → trace_of (text ++ events_text more ++ tail) ≡ Ok (with_events trace more) }
{}

/// Proves that a journal that is written, and the lines of events that are appended to it, are
/// whole lines without a byte 0: recovery keeps all of them.
pub fn written_journal_is_whole()
    ensures journal { (trace : Trace) → IsWritable trace.opening → AreTraced trace.events
        → whole_text (journal_text trace) ≡ journal_text trace }
    ensures events { (events : List Event) → AreTraced events
        → whole_text (events_text events) ≡ events_text events }
{
    written_opening_is_read();
}

/// Proves which bytes are a torn tail: bytes without a byte 0A, and bytes whose first byte 0 comes
/// before any byte 0A, whatever follows it.
#[tactic(auto, using(trace_words::proofs::TailLemmas::tails))]
pub fn torn_tails_have_no_line()
    ensures unended { (tail : List ℕ) → has_end tail ≡ false → IsTail tail }
    ensures zero { (front rest : List ℕ) → has_end front ≡ false → IsTail (front ++ 0 ∷ rest) }
{}

/// Proves that the text of version 2 that a trace is read from is the text that is written for it
/// if it states the number of events, except that the script table and the entries of the schedules
/// may be other values of type Data that are read as the same table or entries. With the values
/// that the writer uses for them, both texts are equal.
#[tactic(auto, using(crate::proofs::TraceBack::trace_back, crate::proofs::TraceBack::written_text))]
pub fn read_trace_is_written()
    ensures text { (text : List ℕ) (trace : Trace) → IsOfVersionTwo text → IsCounted text
        → trace_of text ≡ Ok trace
        → (forms : Forms) × AreFormsOf trace.opening forms × (text ≡ text_with trace forms) }
    ensures written { (trace : Trace)
        → text_with trace (written_forms trace.opening) ≡ trace_text trace }
{}

/// Proves that the trace that a recorder exports prints, when played, the lines of the kept events
/// in every history that the recorder represents. So a trace that was exported, written and played
/// shows the replies that were given.
pub fn exported_run_is_played()
    ensures { (r : Recording) (trace : Trace) → trace.events ≡ r.events
        → Replays r (world_of_opening trace.opening) → PrintsTheEnd r trace }
{}
