//! Finds the end of the whole lines of a text before its first byte 0.
ghost use Rattle.std.specs.Prelude.{◌≡◌, [], MatchOption};
ghost use Rattle.text_lines.specs.Lines.{rows_of};
ghost use Rattle.trace_words.specs.WholeLines.{FirstWhole, IsTail, IsWhole, has_zero};

use text_lines::split_line;

// Returns whether a line has a byte 0.
fn has_zero(line: &[u8]) -> bool
    ensures { result ≡ has_zero line.now }
{
    line.iter().any(|byte| *byte == 0)
}

// Returns the text after the first line, or `None` if no line is ended, or the first has a byte 0.
fn skip_whole_line(text: &[u8]) -> Option<&[u8]>
    ensures { MatchOption result (IsTail text.now) (λ rest. FirstWhole text.now rest.now) }
{
    let Some((line, rest)) = split_line(text) else {
        return None;
    };
    if has_zero(line) {
        return None;
    }
    Some(rest)
}

// Returns the length of the whole lines of a text before its first byte 0, and their number.
pub(crate) fn whole_lines(text: &[u8]) -> (usize, u64)
    ensures { IsWhole text.now result.0 result.1 }
{
    let mut rest = text;
    let mut count: u64 = 0;
    'lines: while let Some(next_rest) = skip_whole_line(rest) {
        count += 1;
        rest = next_rest;
    }
    (text.len() - rest.len(), count)
}
