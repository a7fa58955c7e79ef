//! `TraceLines`: reads a trace line by line, and reports each fault with the line's number.
ghost use Rattle.std.specs.Prelude.{◌≡◌, Result, Ok, Err, IfOk, IsErrOf, length};
ghost use Rattle.std.specs.Fn.{FnOnceReturnsAtMut};
ghost use Rattle.trace_words.specs.Places.{ReadsLines, IsRowReader, line_as, at_line, ended_at, place_at, place_of};
ghost use Rattle.trace_words.specs.Rows.{Row};
ghost use Rattle.trace_words.specs.WholeLines.{whole_lines};
ghost use Rattle.trace_words.specs.declared.fault.RowFault.{RowFault};

use crate::fault::{RowFault, TraceFault};
use crate::whole::whole_lines;
use std::marker::Model;
use text_lines::{TextLines, Words};

/// The lines of a trace that are still to be read. Contracts see the words of each line, the number
/// of the first, and the text after the last byte 0A.
#[derive(Drop)]
pub struct TraceLines<'a> {
    lines: TextLines<'a>,
    number: u64,
}

impl<'a> Model for TraceLines<'a> {
    ghost use Rattle.std.specs.Prelude.{◌+◌, ◌<◌, ◌^◌, length};
    ghost use Rattle.text_lines.specs.Lines.{rows_of, unended_of};
    ghost use Rattle.trace_words.specs.Places.{Place};

    ghost Value = { Place };

    ghost view = { λ l. record {
      number = l.number;
      rows = rows_of l.lines;
      unended = unended_of l.lines;
    } };

    ghost invariant = { λ l. l.number + length (rows_of l.lines) < 2 ^ 64 };
}

impl<'a> TraceLines<'a> {
    /// Returns all lines of a text, counted from 1.
    #[tactic(auto, using(crate::proofs::PlaceLemmas::few_rows))]
    pub fn new(text: &'a [u8]) -> Self
        ensures { result ≡ place_of text.now }
    {
        TraceLines {
            lines: TextLines::new(text),
            number: 1,
        }
    }

    /// Returns the number of the next line.
    pub fn number(&self) -> u64
        ensures { result ≡ self.now.number }
    {
        self.number
    }

    /// Returns the text of the lines that are left.
    pub fn rest(&self) -> &'a [u8]
        ensures { place_at self.now.number result.now ≡ self.now }
    {
        self.lines.rest()
    }

    // Returns the words of the next line. Errors: `Line` if no line is left, or the last is not
    // ended.
    #[tactic(auto, unfolding(crate::specs::Places::line_as), using(crate::proofs::PlaceLemmas::row_taken, crate::proofs::PlaceLemmas::none_taken))]
    fn next_words(&mut self) -> Result<Words<'a>, TraceFault>
        ensures reads { ReadsLines (λ words. words) result self.new
            (line_as (λ row. Ok row) self.old) }
        ensures no_memory { ¬ IsErrOf result TraceFault.Memory }
    {
        match self.lines.next() {
            Some(line) => {
                self.number += 1;
                Ok(Words::new(line))
            }
            None => Err(TraceFault::Line(self.number)),
        }
    }

    /// Reads the next line, a value from its words by `row`. Errors: `Line` with the number of the
    /// line if it is missing or refused by `row`; `Memory` if `row` is out of memory. A line that
    /// is refused has been read: the next call reads the one after it.
    pub fn read<X: Drop, F: FnOnce(&mut Words<'a>) -> Result<X, RowFault>>(
        &mut self,
        row: F,
    ) -> Result<X, TraceFault>
        requires { F.IsAlwaysCallable row }
        ensures reads { (value_from : Row → Result X RowFault) → IsRowReader F.FnOnce row value_from
            → ReadsLines (λ x. x) result self.new (line_as value_from self.old) }
        ensures answered { IfOk result (λ x. (words after : Row)
            × FnOnceReturnsAtMut F.FnOnce row words (Ok x) after) }
        ensures memory { IsErrOf result TraceFault.Memory → (words after : Row)
            × FnOnceReturnsAtMut F.FnOnce row words (Err RowFault.Memory) after }
    {
        let number = self.number();
        let mut words = self.next_words()?;
        at_line(number, row(&mut words))
    }

    /// Keeps the whole lines before the first byte 0, drops the text after them, and returns the
    /// number of these lines.
    pub fn keep_whole_lines(&mut self) -> u64
        ensures whole_lines { self.new ≡ whole_lines self.old }
        ensures count { result ≡ length self.new.rows }
    {
        let text = self.lines.rest();
        let (len, count) = whole_lines(text);
        self.lines = TextLines::new(&text[..len]);
        count
    }

    /// Checks that nothing is left. Errors: `Line` with the number of the next line if any text is
    /// left, ended or not.
    pub fn end(&self) -> Result<(), TraceFault>
        ensures { result ≡ ended_at self.now tt }
    {
        if self.lines.rest().is_empty() {
            Ok(())
        } else {
            Err(TraceFault::Line(self.number))
        }
    }
}

// Returns the fault of a line as a fault of the trace, with the line's number.
pub(crate) fn at_line<X: Drop>(number: u64, read: Result<X, RowFault>) -> Result<X, TraceFault>
    ensures { result ≡ at_line number read }
{
    match read {
        Ok(x) => Ok(x),
        Err(RowFault::Wrong) => Err(TraceFault::Line(number)),
        Err(RowFault::Memory) => Err(TraceFault::Memory),
    }
}
