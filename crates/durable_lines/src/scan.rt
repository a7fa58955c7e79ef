//! Finds the end of the whole lines of bytes.
ghost use Rattle.std.specs.Prelude.{◌≡◌, ◌≤◌, ◌↔◌, IfNone, IfSome, IsTrue, length};
ghost use Rattle.durable_lines.specs.Lines.{lines_in, text_of, HasLinesAfterDamage, IsText};

use text_lines::split_line;

/// Returns whether bytes are whole lines, each ended by the byte 0A, without a byte 0.
pub fn is_text(bytes: &[u8]) -> bool
    ensures { IsTrue result ↔ IsText bytes.now }
{
    whole_len(bytes) == bytes.len()
}

/// Returns the length of the whole lines before the first byte 0.
#[tactic(auto, unfolding(text_lines::specs::Lines::text_of))]
pub fn whole_len(bytes: &[u8]) -> usize
    ensures len { result ≡ length (text_of (lines_in bytes.now)) }
    ensures within { result ≤ length bytes.now }
{
    let mut end = 0;
    'bytes: for (index, byte) in bytes.iter().enumerate() {
        match byte {
            0 => break 'bytes,
            b'\n' => end = index + 1,
            _ => {}
        }
    }
    end
}

/// Returns the length of the whole lines, if the line after them is damaged and whole lines follow
/// it. An interrupted write of one line leaves no such bytes. Returns `None` if at most one line
/// ends after the whole lines.
pub fn damaged_at(bytes: &[u8]) -> Option<usize>
    ensures place { IfSome result (λ at. (at ≡ length (text_of (lines_in bytes.now)))
        × HasLinesAfterDamage bytes.now) }
    ensures undamaged { IfNone result (¬ HasLinesAfterDamage bytes.now) }
{
    let len = whole_len(bytes);
    let (_, rest) = bytes.split_at(len);
    let (_, later) = split_line(rest)?;
    split_line(later)?;
    Some(len)
}
