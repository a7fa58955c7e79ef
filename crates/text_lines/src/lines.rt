//! Iterates over the lines of a text, each ended by the byte 0A.
ghost use Rattle.std.specs.Prelude.{◌≡◌, ◌∷◌, [], MatchOption};
ghost use Rattle.std.specs.Iterator.{item_count};
ghost use Rattle.text_lines.specs.Lines.{lines_of, unended_of};
ghost use Rattle.text_lines.specs.Taken.{TakesLine};

use crate::cutting::cut_at;
use std::marker::Model;

/// Returns the first line of a text, without the byte 0A that ends it, and the text after it.
/// Returns `None` if no line is ended.
pub fn split_line(text: &[u8]) -> Option<(&[u8], &[u8])>
    ensures lines { MatchOption result (lines_of text.now ≡ []) (λ parts. lines_of text.now
        ≡ parts.0.now ∷ lines_of parts.1.now) }
    ensures unended { MatchOption result (unended_of text.now ≡ text.now)
        (λ parts. unended_of text.now ≡ unended_of parts.1.now) }
{
    cut_at(text, b'\n')
}

/// The lines of a text that are still to be read, each without the byte 0A that ends it. Contracts
/// see the text that is left.
#[derive(Drop)]
pub struct TextLines<'a> {
    text: &'a [u8],
}

impl<'a> Model for TextLines<'a> {
    ghost use Rattle.std.specs.Prelude.{List, ℕ};

    ghost Value = { List ℕ };

    ghost view = { λ lines. lines.text.now };
}

impl<'a> TextLines<'a> {
    /// Returns an iterator over all lines of a text.
    pub fn new(text: &'a [u8]) -> Self
        ensures { result ≡ text.now }
    {
        TextLines { text }
    }

    /// Returns the text after the lines that have been read.
    pub fn rest(&self) -> &'a [u8]
        ensures { result.now ≡ self.now }
    {
        self.text
    }
}

impl<'a> Iterator for TextLines<'a> {
    type Item = &'a [u8];

    ghost next_gives = { TakesLine };

    ghost remaining = { item_count lines_of };

    fn next(&mut self) -> Option<&'a [u8]> {
        let (line, rest) = split_line(self.text)?;
        self.text = rest;
        Some(line)
    }
}
