//! `Place`: a name in a folder whose file can be replaced as a whole.
ghost use Rattle.std.specs.Prelude.{◌≡◌, ◌⊎◌, [], List, ℕ, IfOk, OnOk, IsErrOf, ⊤};
ghost use Rattle.durable_lines.specs.Calls.{PlaceCall, CreateDraft, RenameDraft, SyncRename};
ghost use Rattle.durable_lines.specs.Calls.{CallsFile};
ghost use Rattle.durable_lines.specs.CrashModel.{Narrows};

use crate::durable_file::DurableFile;
use crate::fault::FileFault;

/// A name in a folder. As a [`DurableFile`] it is the file that has the name: what a crash may
/// leave is what it may leave under the name. The file is replaced by a draft: a file under a
/// second name, which is renamed over the first. `specs/CrashModel.antt` has the crash model.
///
/// After a call returned `Failed`, every later one does, but for the default `renew`, which returns
/// `Ok`.
pub trait Place: DurableFile {
    /// The files of this folder.
    type Draft: DurableFile;

    // Ghost predicate: what a crash may leave of the file that has the name now, in memory if not
    // on the disk.
    ghost named: { Self → List ℕ → Type 0 };

    // Ghost relation: what a call on the name that returns `Ok` does besides what its other clauses
    // say. A place whose calls do no more keeps the default.
    ghost also_calls: { PlaceCall → Self → Self → Type 0 } = { λ _ _ _. ⊤ };

    /// Creates an empty draft. It replaces an earlier one.
    fn create_draft(&mut self) -> Result<Self::Draft, FileFault>
        ensures empty { IfOk result (λ draft. Self.Draft.model.seen draft ≡ []) }
        ensures unfailed { IfOk result (λ draft. ¬ Self.Draft.model.has_failed draft) }
        ensures crash { Narrows (Self.model.may_leave self.old) (Self.model.may_leave self.new) }
        ensures call { CallsFile Self.model self.old self.new result }
        ensures also { OnOk result (also_calls CreateDraft self.old self.new) }
        ensures not_too_long { ¬ IsErrOf result FileFault.TooLong };

    /// Gives the name to the draft, which must be the last one. Until the folder is synced a crash
    /// leaves the file that had the name, or the draft.
    fn rename(&mut self, draft: Self::Draft) -> Result<(), FileFault>
        ensures seen { OnOk result (Self.model.seen self.new ≡ Self.Draft.model.seen draft) }
        ensures renamed { OnOk result
            (Narrows (Self.Draft.model.may_leave draft) (named self.new)) }
        // A sync of the draft counts for the name.
        ensures stored { OnOk result ((bytes : List ℕ)
            → Self.Draft.model.stored (Self.Draft.model.identity draft) bytes
            → Self.model.stored (Self.model.identity self.new) bytes) }
        ensures crash { (c : List ℕ) → Self.model.may_leave self.new c
            → Self.model.may_leave self.old c ⊎ Self.Draft.model.may_leave draft c }
        ensures call { CallsFile Self.model self.old self.new result }
        ensures also { OnOk result (also_calls RenameDraft self.old self.new) }
        ensures not_too_long { ¬ IsErrOf result FileFault.TooLong };

    /// Waits until the rename is on the disk.
    fn sync_folder(&mut self) -> Result<(), FileFault>
        ensures unchanged { OnOk result (Self.model.seen self.new ≡ Self.model.seen self.old) }
        ensures durable { OnOk result (Narrows (named self.old) (Self.model.may_leave self.new)) }
        ensures crash { Narrows (Self.model.may_leave self.old) (Self.model.may_leave self.new) }
        ensures call { CallsFile Self.model self.old self.new result }
        ensures also { OnOk result (also_calls SyncRename self.old self.new) }
        ensures not_too_long { ¬ IsErrOf result FileFault.TooLong };

    // Ghost law: if the name acts as the crash model says, so do its drafts.
    ghost drafts_act: { Self.model.acts → Self.Draft.model.acts };
}
