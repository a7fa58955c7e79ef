//! `HeldLines`: the lines of a trace with their text, whose memory is freed as the lines are read.
ghost use Rattle.std.specs.Prelude.{◌≡◌, ◌+◌, ◌<◌, ◌≤◌, ◌^◌, Result, drop, length};
ghost use Rattle.trace_words.specs.Places.{IsLineReader, ReadsLines, line_as, ended_at, place_at};
ghost use Rattle.trace_words.specs.Rows.{Row};
ghost use Rattle.trace_words.specs.WholeLines.{whole_lines};
ghost use Rattle.trace_words.specs.declared.fault.RowFault.{RowFault};

use crate::fault::{RowFault, TraceFault};
use crate::place::{TraceLines, at_line};
use crate::whole::whole_lines;
use std::marker::Model;
use text_lines::split_line;

/// The lines of a trace that are still to be read, with their text; text that has been read is
/// dropped. Contracts see the lines that are left, as those of `TraceLines`.
#[derive(Drop)]
pub struct HeldLines {
    text: Vec<u8>,
    // The number of bytes at the front of the text that have been read.
    taken: usize,
    number: u64,
}

impl Model for HeldLines {
    ghost use Rattle.std.specs.Prelude.{◌+◌, ◌<◌, ◌≤◌, ◌^◌, drop, length};
    ghost use Rattle.text_lines.specs.Lines.{rows_of};
    ghost use Rattle.trace_words.specs.Places.{Place, place_at};

    ghost Value = { Place };

    ghost view = { λ l. place_at l.number (drop l.taken l.text.items) };

    ghost invariant = { λ l. (l.taken ≤ length l.text.items)
        × (l.number + length (rows_of (drop l.taken l.text.items)) < 2 ^ 64) };
}

impl HeldLines {
    /// Returns the lines of `text` after its first `taken` bytes. The first of them has the number
    /// `number`.
    #[tactic(auto, using(crate::proofs::PlaceLemmas::few_rows))]
    pub fn new(text: Vec<u8>, taken: usize, number: u64) -> Self
        requires within { taken ≤ length text.items }
        requires counted { number + length text.items < 2 ^ 64 }
        ensures { result ≡ place_at number (drop taken text.items) }
    {
        HeldLines {
            text,
            taken,
            number,
        }
    }

    // Drops the text that has been read if it is at least half of the whole text.
    fn drop_read_text(&mut self)
        ensures { self.new ≡ self.old }
    {
        if self.taken >= self.text.len() - self.taken {
            remove_front(&mut self.text, self.taken);
            self.taken = 0;
        }
    }

    /// Reads the next line, a value by `parse`. Errors: `Line` with the number of the line if it
    /// is missing, not ended or refused by `parse`; `Memory`. A line that is refused has been read:
    /// the next call reads the one after it.
    pub fn read<X: Drop, F: FnOnce(&[u8]) -> Result<X, RowFault>>(
        &mut self,
        parse: F,
    ) -> Result<X, TraceFault>
        requires { F.IsAlwaysCallable parse }
        ensures { (value_from : Row → Result X RowFault) → IsLineReader F.FnOnce parse value_from
            → ReadsLines (λ x. x) result self.new (line_as value_from self.old) }
    {
        self.drop_read_text();
        let number = self.number;
        match split_line(&self.text.as_slice()[self.taken..]) {
            Some((line, rest)) => {
                let left = rest.len();
                let read = parse(line);
                self.taken = self.text.len() - left;
                self.number += 1;
                at_line(number, read)
            }
            None => Err(TraceFault::Line(number)),
        }
    }

    /// Keeps the whole lines before the first byte 0, drops the text after them, and returns the
    /// number of these lines.
    pub fn keep_whole_lines(&mut self) -> u64
        ensures whole_lines { self.new ≡ whole_lines self.old }
        ensures count { result ≡ length self.new.rows }
    {
        let (len, count) = whole_lines(&self.text.as_slice()[self.taken..]);
        self.text.truncate(self.taken + len);
        count
    }

    /// Checks that nothing is left. Errors: `Line` with the number of the next line if any text is
    /// left, ended or not.
    pub fn end(&self) -> Result<(), TraceFault>
        ensures { result ≡ ended_at self.now tt }
    {
        if self.taken == self.text.len() {
            Ok(())
        } else {
            Err(TraceFault::Line(self.number))
        }
    }
}

// Removes the first `count` bytes of a text and frees their memory.
fn remove_front(text: &mut Vec<u8>, count: usize)
    requires { count ≤ length text.old.items }
    ensures { text.new.items ≡ drop count text.old.items }
{
    let len = text.len();
    text.as_mut_slice().copy_within(count..len, 0);
    text.truncate(len - count);
    text.shrink_to_fit();
}
