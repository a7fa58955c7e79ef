//! The lines of a journal that were not taken yet, and the questions by which they are counted and
//! taken.
ghost use Rattle.std.specs.Prelude.{◌≡◌, ℕ, ◌+◌, List, [], ◌∷◌, ◌++◌, IfOk, IfSome};
ghost use Rattle.text_lines.specs.Words.{line_of};
ghost use Rattle.trace_lines.specs.Writing.{event_row};
ghost use Rattle.shared_meter.specs.Pending.{Answers, IsPending, IsTextOfLine, Pends};
ghost use Rattle.shared_meter.specs.Switching.{change};
ghost use Rattle.shared_meter.specs.declared.pending.Question.TheVariants as question;

use relay_events::Event;
use std::alloc::{AllocError, Global};
use std::marker::Model;
use std::mem;
use text_lines::end_line;
use trace_lines::write_event;

/// A question about the lines of a journal.
#[derive(Debug, Drop)]
pub enum Question {
    /// How many lines are there?
    Count,
    /// Which lines come after the first `taken`, which were taken before? The text of the lines
    /// that are noted from now on is written into `room`, so that its memory is used again.
    Take { taken: u64, room: Vec<u8> },
}

/// The answer to a question about the lines of a journal.
#[derive(Debug, Drop)]
pub enum Finding {
    /// The number of lines.
    Count(u64),
    /// The text of the lines, each ended by the byte 0A, the number of all lines with them, and how
    /// often the supply output was changed by the events of all.
    Taken {
        text: Vec<u8>,
        count: u64,
        switches: u64,
    },
    /// Not all lines are known: no lines are noted, one was lost because the program ran out of
    /// memory, or another number of lines was taken before.
    Incomplete,
}

/// The lines that were noted and not taken yet.
///
/// Contracts see their text, the number of lines that were taken before, the number of all lines,
/// how often the supply output was changed by their events, and whether a line was lost.
#[derive(Debug, Drop)]
pub struct PendingLines {
    text: Vec<u8>,
    taken: u64,
    count: u64,
    switches: u64,
    is_lost: bool,
}

impl Model for PendingLines {
    ghost use Rattle.std.specs.Coded.{codes};
    ghost use Rattle.shared_meter.specs.Pending.{PendingView};

    ghost Value = { PendingView };

    ghost coded = { Prim.hlevel (codes) };

    ghost view = { λ p. record {
      text = p.text.items;
      taken = p.taken;
      count = p.count;
      switches = p.switches;
      is_lost = p.is_lost;
    } };
}

// Returns the text of an event's line, with the byte 0A that ends it.
#[tactic(auto, unfolding(text_lines::specs::Lines::text_of))]
pub(crate) fn line_text(alloc: Global, event: &Event) -> Result<Vec<u8>, AllocError>
    ensures { IfOk result (λ text. IsTextOfLine (line_of (event_row event.now)) text.items) }
{
    let mut text = Vec::new(alloc);
    write_event(alloc, &mut text, event)?;
    end_line(&mut text)?;
    Ok(text)
}

// Returns the number of changes of an output after one more value, if it is below 2^64.
fn count_change(switches: u64, before: bool, after: bool) -> Option<u64>
    ensures { IfSome result (λ more. more ≡ switches + change before after) }
{
    if before == after {
        Some(switches)
    } else {
        switches.checked_add(1)
    }
}

impl PendingLines {
    /// Makes an empty journal, with memory for a text of `room` bytes.
    pub fn new(alloc: Global, room: usize) -> Result<PendingLines, AllocError>
        ensures { IfOk result (λ pending. Pends pending [] 0) }
    {
        let mut text = Vec::new(alloc);
        text.reserve(room)?;
        Ok(PendingLines {
            text,
            taken: 0,
            count: 0,
            switches: 0,
            is_lost: false,
        })
    }

    // Notes a line, or that it was lost: `text` is its text, if there was memory for it. `outputs`
    // are the supply output before and after its event.
    pub(crate) fn note(&mut self, text: Result<Vec<u8>, AllocError>, outputs: (bool, bool))
        ensures { (line : List ℕ) → IfOk text (λ bytes. IsTextOfLine line bytes.items)
            → (lines : List (List ℕ)) (switches : ℕ) → Pends self.old lines switches
            → Pends self.new (lines ++ line ∷ []) (switches + change outputs.0 outputs.1) }
    {
        match text {
            Ok(text) => self.add(text.as_slice(), outputs),
            Err(_) => self.is_lost = true,
        }
    }

    // Appends the text of a line. The line is lost if there is no memory for it, or there are
    // 2^64 - 1 lines or changes already.
    fn add(&mut self, text: &[u8], outputs: (bool, bool))
        ensures { (line : List ℕ) → IsTextOfLine line text.now → (lines : List (List ℕ))
            → (switches : ℕ) → Pends self.old lines switches
            → Pends self.new (lines ++ line ∷ []) (switches + change outputs.0 outputs.1) }
    {
        let (before, after) = outputs;
        let Some(switches) = count_change(self.switches, before, after) else {
            self.is_lost = true;
            return;
        };
        let Some(count) = self.count.checked_add(1) else {
            self.is_lost = true;
            return;
        };
        match self.text.extend_from_slice(text) {
            Ok(()) => {
                self.count = count;
                self.switches = switches;
            }
            Err(_) => self.is_lost = true,
        }
    }

    // Answers a question about the lines.
    pub(crate) fn answer(&mut self, question: Question) -> Finding
        ensures preserved { (lines : List (List ℕ)) (switches : ℕ) → Pends self.old lines switches
            → Pends self.new lines switches }
        ensures answers { (lines : List (List ℕ)) (switches : ℕ) → Pends self.old lines switches
            → Answers lines switches question result }
    {
        if self.is_lost {
            return Finding::Incomplete;
        }
        match question {
            Question::Count => Finding::Count(self.count),
            Question::Take { taken, room } => self.take(taken, room),
        }
    }

    // Takes the lines after the first `taken`, if that is the number of lines taken before.
    fn take(&mut self, taken: u64, room: Vec<u8>) -> Finding
        ensures preserved { (lines : List (List ℕ)) (switches : ℕ)
            → IsPending self.old lines switches → IsPending self.new lines switches }
        ensures lost { self.new.is_lost ≡ self.old.is_lost }
        ensures answers { (lines : List (List ℕ)) (switches : ℕ)
            → IsPending self.old lines switches
            → Answers lines switches (question.Take taken room) result }
    {
        if self.taken != taken {
            return Finding::Incomplete;
        }
        let mut empty = room;
        empty.clear();
        let text = mem::replace(&mut self.text, empty);
        self.taken = self.count;
        Finding::Taken {
            text,
            count: self.count,
            switches: self.switches,
        }
    }
}
