//! Laws of the lines of events. Each function is a law: its contract states it, and a call makes it
//! known to the prover.
ghost use Rattle.std.specs.Prelude.{◌≡◌, ℕ, ◌≤◌, suc, List, ◌∷◌, codes, false, IsTrue};
ghost use Rattle.std.specs.Prelude.{Ok, Some, None};
ghost use Rattle.text_lines.specs.Lines.{is_row};
ghost use Rattle.text_lines.specs.Words.{words_of, line_of};
ghost use Rattle.relay_events.specs.declared.event.Event.{Event};
ghost use Rattle.trace_lines.specs.Events.{event_of, events_from};
ghost use Rattle.trace_lines.specs.OpenCount.{count_from, open_row};
ghost use Rattle.trace_words.specs.Labels.{number_row};
ghost use Rattle.trace_words.specs.Places.{line_as};
ghost use Rattle.trace_words.specs.Rows.{Row};
ghost use Rattle.trace_words.specs.WholeLines.{has_zero};
ghost use Rattle.trace_lines.specs.Traced.{IsTraced};
ghost use Rattle.trace_lines.specs.Writing.{event_row};
ghost use Rattle.trace_words.specs.declared.version.Version.{Version};
ghost use Rattle.trace_words.specs.declared.version.Version.TheVariants.{Two};

/// Proves that an event that is written is read back, from its words and from its line. Its words
/// are words that a line can hold.
#[tactic(auto, using(crate::proofs::EventLaws::event_again, crate::proofs::EventLaws::event_line_again, crate::proofs::EventLaws::event_is_row))]
pub fn written_event_is_read()
    ensures read_back { (event : Event) → IsTraced event → event_of Two (event_row event)
        ≡ Ok event }
    ensures line { (event : Event) → IsTraced event
        → event_of Two (words_of (line_of (event_row event))) ≡ Ok event }
    ensures row { (event : Event) → IsTraced event → IsTrue (is_row (event_row event)) }
{}

/// Proves that an event that is read from a line, of either version, is written as that line. Each
/// event therefore has exactly one line, in one spelling.
#[tactic(auto, using(crate::proofs::EventLaws::event_back, crate::proofs::EventLaws::event_line_back))]
pub fn read_event_is_written()
    ensures row { (version : Version) (row : Row) (event : Event) → event_of version row ≡ Ok event
        → event_row event ≡ row }
    ensures line { (version : Version) (line : List ℕ) (event : Event)
        → event_of version (words_of line) ≡ Ok event → line_of (event_row event) ≡ line }
{}

/// Proves that the line that a number of events is read from is the line that is written for it.
#[tactic(auto, using(crate::proofs::EventLaws::event_count_back))]
pub fn read_event_count_is_written()
    ensures { (row : Row) (count : ℕ) → events_from row ≡ Ok count
        → number_row (codes "events") count ≡ row }
{}

/// Proves that a number of events is read back from the line that is written for it, which is a
/// line of words.
#[tactic(auto, using(crate::proofs::EventLaws::event_count_again, crate::proofs::EventLaws::event_count_is_row))]
pub fn written_event_count_is_read()
    ensures read_back { (count number : ℕ) (rows : List Row) (unended : List ℕ) → count ≤ 65536
        → line_as events_from
        (record {
          number = number;
          rows = number_row (codes "events") count ∷ rows;
          unended = unended;
        })
        ≡ Ok (count, record { number = suc number; rows = rows; unended = unended }) }
    ensures row { (count : ℕ) → count ≤ 65536
        → IsTrue (is_row (number_row (codes "events") count)) }
{}

/// Proves that the line of an event that is read back has no byte 0.
#[tactic(auto, using(crate::proofs::NoZeros::event_plain))]
pub fn written_event_has_no_zero()
    ensures { (event : Event) → IsTraced event → has_zero (line_of (event_row event)) ≡ false }
{}

/// Proves that the line `events -`, and no other, is read as one that states no number of events,
/// and that any other line is read as the number that it states.
#[tactic(auto, using(crate::proofs::CountLemmas::counts))]
pub fn open_count_is_read()
    ensures opened { count_from open_row ≡ Ok None }
    ensures unique { (row : Row) → count_from row ≡ Ok None → row ≡ open_row }
    ensures read_if_stated { (row : Row) (count : ℕ) → events_from row ≡ Ok count
        → count_from row ≡ Ok (Some count) }
    ensures stated_if_read { (row : Row) (count : ℕ) → count_from row ≡ Ok (Some count)
        → events_from row ≡ Ok count }
    ensures row { IsTrue (is_row open_row) }
{}
