//! `replace`: replaces the file of a name as a whole.
ghost use Rattle.std.specs.Prelude.{◌≡◌, ◌⊎◌, OnOk, IsErrOf};
ghost use Rattle.durable_lines.specs.Calls.{HasFailedPart, OverflowsDraft};
ghost use Rattle.durable_lines.specs.CrashModel.{LeavesOnly, HasOneOutcome};
ghost use Rattle.durable_lines.specs.Lines.{IsReady, IsText};

use crate::durable_file::DurableFile;
use crate::fault::FileFault;
use crate::place::Place;

/// Replaces the file that has a name by one with these bytes. After `Ok` every crash leaves the
/// bytes under the name. A crash during the call leaves the old file or the new one. If the bytes
/// are a text of lines, the name is ready for [`append_lines`](crate::append_lines).
///
/// `Failed` says that the place has failed, or its draft, to which the bytes were appended.
/// `TooLong` says that the bytes exceed the limit of a draft. After an error the name has the old
/// file or the new one, and nothing more may be appended.
#[tactic(auto, using(crate::proofs::ReplaceLemmas::after_create))]
pub fn replace<P: Place>(place: &mut P, bytes: &[u8]) -> Result<(), FileFault>
    ensures bytes { OnOk result (P.model.acts → P.model.seen place.new ≡ bytes.now) }
    ensures replaced { OnOk result (P.model.acts
        → HasOneOutcome bytes.now (P.model.may_leave place.new)) }
    ensures settled { OnOk result (IsText bytes.now → IsReady P.model place.new) }
    // A crash at any moment of the call leaves what could be left before, or the new bytes.
    ensures any_moment { P.model.acts → LeavesOnly P.model place.old place.new
        (λ c. P.model.may_leave place.old c ⊎ (c ≡ bytes.now)) }
    ensures identity { P.model.identity place.new ≡ P.model.identity place.old }
    ensures failed { IsErrOf result FileFault.Failed
        → HasFailedPart P.model P.Draft.model (λ text. text ≡ bytes.now) place.new }
    ensures too_long { IsErrOf result FileFault.TooLong
        → OverflowsDraft P.Draft.model bytes.now }
    ensures remains_failed { P.model.has_failed place.old → P.model.has_failed place.new }
{
    let mut draft = place.create_draft()?;
    draft.append(bytes)?;
    draft.sync()?;
    place.rename(draft)?;
    place.sync_folder()
}
