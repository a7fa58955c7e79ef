//! `append_lines`: appends lines to a durable file and waits until they are on the disk.
//! `append_and_renew` does the same to a file that may be renewed.
ghost use Rattle.std.specs.Prelude.{◌≡◌, ◌≤◌, ◌++◌, ℕ, List, OnOk, length, take};
ghost use Rattle.durable_lines.specs.Calls.{IsSameFile};
ghost use Rattle.durable_lines.specs.CrashModel.{LeavesOnly};
ghost use Rattle.durable_lines.specs.Holding.{Holds};
ghost use Rattle.durable_lines.specs.Lines.{lines_in, IsBetween, IsReady, IsText};

use crate::durable_file::DurableFile;
use crate::fault::FileFault;

/// Appends a text of whole lines without a byte 0, and waits until it is on the disk. After `Ok`
/// every crash leaves the old lines followed by all new ones. A crash during the call leaves the
/// old lines followed by a front of the new ones. An empty text is not written, and nothing is
/// synced.
///
/// After an error some of the lines may be in the file: it must be recovered before the next
/// append.
pub fn append_lines<F: DurableFile>(file: &mut F, text: &[u8]) -> Result<(), FileFault>
    requires settled { IsReady F.model file.old }
    requires text { IsText text.now }
    ensures settled { OnOk result (IsReady F.model file.new) }
    ensures appended { OnOk result (F.model.acts
        → F.model.seen file.new ≡ F.model.seen file.old ++ text.now) }
    ensures lines { OnOk result (F.model.acts → lines_in (F.model.seen file.new)
        ≡ lines_in (F.model.seen file.old) ++ lines_in text.now) }
    // A crash at any moment of the call leaves the old lines and a front of the new ones.
    ensures any_moment { F.model.acts → LeavesOnly F.model file.old file.new
        (λ c. IsBetween (lines_in (F.model.seen file.old)) (lines_in text.now) (lines_in c)) }
    ensures same_file { IsSameFile F.model file.old file.new result }
{
    if text.is_empty() {
        return Ok(());
    }
    file.append(text)?;
    file.sync()
}

/// Appends a text of whole lines as [`append_lines`] does, and then renews the file if it is to be
/// renewed. After `Ok` every crash leaves a file that holds the old lines followed by all new ones.
/// A crash during the call leaves one that holds the old lines followed by a front of the new ones.
///
/// After an error nothing more may be appended: some of the lines may be in the file.
pub fn append_and_renew<F: DurableFile>(file: &mut F, text: &[u8]) -> Result<(), FileFault>
    requires settled { IsReady F.model file.old }
    requires text { IsText text.now }
    ensures settled { OnOk result (IsReady F.model file.new) }
    ensures lines { OnOk result (F.model.acts → (first lines : List (List ℕ))
        → Holds F.model.renews first lines (F.model.seen file.old)
        → Holds F.model.renews first (lines ++ lines_in text.now) (F.model.seen file.new)) }
    // A crash at any moment of the call leaves the old lines and a front of the new ones.
    ensures any_moment { F.model.acts → (first lines : List (List ℕ))
        → Holds F.model.renews first lines (F.model.seen file.old)
        → LeavesOnly F.model file.old file.new
        (λ c. (k : ℕ) × (k ≤ length (lines_in text.now))
        × Holds F.model.renews first (lines ++ take k (lines_in text.now)) c) }
    ensures same_file { IsSameFile F.model file.old file.new result }
{
    append_lines(file, text)?;
    file.renew()
}
