//! `recover`: reads the lines that a crash has left in a durable file, and repairs the file's end.
ghost use Rattle.std.specs.Prelude.{◌≡◌, ◌+◌, ◌⊎◌, IfOk, OnOk, length};
ghost use Rattle.durable_lines.specs.Calls.{IsSameFile};
ghost use Rattle.durable_lines.specs.CrashModel.{LeavesOnly};
ghost use Rattle.durable_lines.specs.Lines.{lines_in, text_of, IsReady};

use crate::durable_file::DurableFile;
use crate::fault::FileFault;
use crate::scan::whole_len;
use std::alloc::Global;

/// What a file had: its lines, and the number of bytes after them.
#[derive(Debug, Drop)]
pub struct Recovered {
    /// The text of the whole lines before the first byte 0, each ended by the byte 0A.
    pub text: Vec<u8>,
    /// The number of bytes after the text, which were cut. It is 0 if no append was interrupted.
    pub cut: usize,
}

/// Reads the whole lines of a file up to the first byte 0, and cuts all bytes after them. A crash
/// during the call leaves a file with the same lines, or what it could have left before. So the
/// call may be repeated, and a file that was recovered stays as it is.
///
/// The file is synced before it is read: bytes that a killed process has left may be in memory
/// only.
#[tactic(auto, using(crate::proofs::RecoveryLemmas::recovers))]
pub fn recover<F: DurableFile>(alloc: Global, file: &mut F) -> Result<Recovered, FileFault>
    ensures text { IfOk result (λ found. F.model.acts
        → found.text.items ≡ text_of (lines_in (F.model.seen file.old))) }
    ensures cut { IfOk result (λ found. F.model.acts
        → length found.text.items + found.cut ≡ length (F.model.seen file.old)) }
    ensures seen { IfOk result (λ found. F.model.acts → F.model.seen file.new ≡ found.text.items) }
    ensures same { OnOk result (F.model.acts
        → lines_in (F.model.seen file.new) ≡ lines_in (F.model.seen file.old)) }
    ensures settled { OnOk result (IsReady F.model file.new) }
    // A crash at any moment of the call leaves the same lines, or what it could have left before.
    ensures any_moment { F.model.acts → LeavesOnly F.model file.old file.new
        (λ c. F.model.may_leave file.old c ⊎ (lines_in c ≡ lines_in (F.model.seen file.old))) }
    ensures same_file { IsSameFile F.model file.old file.new result }
{
    file.sync()?; // bytes that a killed process wrote may be in memory only
    let mut text = file.read(alloc)?;
    let len = whole_len(&text);
    file.cut(len)?;
    file.sync()?; // the cut
    let cut = text.len() - len;
    text.truncate(len);
    Ok(Recovered { text, cut })
}
