//! Proofs that the numbers of every trace are in the ranges of their types, so a trace that fits
//! its text is read back. These functions only look at a trace, and do not allocate.
ghost use Rattle.std.specs.Prelude.{◌≡◌, ◌≤◌, ◌++◌, List, ℕ, length, Ok};
ghost use Rattle.std.specs.List.{All};
ghost use Rattle.relay_events.specs.declared.event.Event.{Event};
ghost use Rattle.relay_recorder.specs.Recording.{max_capacity};
ghost use Rattle.trace_lines.specs.Traced.{FitsLine, IsTraced};
ghost use Rattle.trace_words.specs.WholeLines.{IsTail};
ghost use Rattle.trace_player.specs.Journals.{FitsJournal, events_text, journal_text, with_events};
ghost use Rattle.trace_player.specs.Traces.{max_bytes, trace_of, trace_text};
ghost use Rattle.trace_player.specs.Written.{AreTraced, FitsText};

use crate::laws::{written_journal_is_read, written_trace_is_read};
use relay_events::Event;
use relay_recorder::Trace;
use trace_lines::event_is_traced;
use trace_openings::opening_is_writable;

// Proves that each event that fits its line is read back from it.
fn events_are_traced(events: &[Event])
    ensures { All (λ event. FitsLine event → IsTraced event) events.now }
{
    'events: for event in events {
        event_is_traced(event);
    }
}

// Proves that a trace that fits its text is read back from it if the text has at most
// 33,554,432 bytes, as the text of at most 1,024 events has.
#[tactic(auto, using(crate::proofs::RangeLemmas::is_writable, crate::proofs::RangeLemmas::is_short))]
pub(crate) fn trace_is_read_again(trace: &Trace)
    ensures read_back { FitsText trace.now → length (trace_text trace.now) ≤ max_bytes
        → trace_of (trace_text trace.now) ≡ Ok trace.now }
    ensures within_max { FitsText trace.now → length trace.now.events ≤ max_capacity
        → length (trace_text trace.now) ≤ max_bytes }
{
    opening_is_writable(&trace.opening);
    events_are_traced(trace.events.as_slice());
    written_trace_is_read();
}

// Proves that a journal with an opening and events that fit it is read back, also after it has
// grown and with a torn tail, if the text has at most 33,554,432 bytes.
#[tactic(auto, using(crate::proofs::RangeLemmas::journals))]
pub(crate) fn journal_is_read_again(trace: &Trace)
    ensures whole { FitsJournal trace.now → length (journal_text trace.now) ≤ max_bytes
        → trace_of (journal_text trace.now) ≡ Ok trace.now }
    ensures grown { FitsJournal trace.now → (more : List Event) (tail : List ℕ) → AreTraced more
        → IsTail tail → length (journal_text trace.now ++ events_text more ++ tail) ≤ max_bytes
        → trace_of (journal_text trace.now ++ events_text more ++ tail)
        ≡ Ok (with_events trace.now more) }
{
    opening_is_writable(&trace.opening);
    events_are_traced(trace.events.as_slice());
    written_journal_is_read();
}
