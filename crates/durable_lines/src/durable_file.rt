//! `DurableFile`: a file that is appended to, cut and synced, with what a crash may leave of it.
ghost use Rattle.std.specs.Prelude.{◌≡◌, ◌≤◌, ◌++◌, length, take, IfOk, OnOk, IsErrOf};
ghost use Rattle.durable_lines.specs.Calls.{CallsFile, IsSameFile};
ghost use Rattle.durable_lines.specs.CrashModel.{Follows, LeavesOnly, Narrows, HasOneOutcome};
ghost use Rattle.durable_lines.specs.CrashModel.{TornAppend, TornCut};
ghost use Rattle.durable_lines.specs.FileModel.{Read, Append, Cut, Sync};
ghost use Rattle.durable_lines.specs.Holding.{IsSameOrRenewed};
ghost use Rattle.durable_lines.specs.Lines.{IsReady};

use crate::fault::FileFault;
use std::alloc::Global;

/// A file that is appended to, cut and synced. Its model says what a crash may leave of it:
/// `specs/CrashModel.antt` has the crash model.
///
/// After a call returned `Failed`, every later `read`, `append`, `cut` and `sync` does: a sync that
/// failed is never repeated, since the file system may have dropped what it could not write. The
/// default `renew` does nothing and returns `Ok` also then. After any other error of `append` or
/// `cut` nothing is known of the file's end, and [`recover`](crate::recover) repairs it.
pub trait DurableFile: Drop {
    ghost use Rattle.durable_lines.specs.FileModel.{FileModel};

    // What the files of this type are, and what a crash may leave of them.
    ghost model: { FileModel Self };

    /// Returns all bytes of the file.
    fn read(&mut self, alloc: Global) -> Result<Vec<u8>, FileFault>
        ensures bytes { IfOk result (λ bytes. model.acts → bytes.items ≡ model.seen self.old) }
        ensures unchanged { model.seen self.new ≡ model.seen self.old }
        ensures crash { Narrows (model.may_leave self.old) (model.may_leave self.new) }
        ensures call { CallsFile model self.old self.new result }
        ensures also { OnOk result (model.also Read self.old self.new) };

    /// Appends bytes. They are on the disk only after a sync.
    fn append(&mut self, bytes: &[u8]) -> Result<(), FileFault>
        ensures written { OnOk result
            (model.acts → model.seen self.new ≡ model.seen self.old ++ bytes.now) }
        ensures crash { Follows (TornAppend bytes.now) (model.may_leave self.old)
            (model.may_leave self.new) }
        ensures call { CallsFile model self.old self.new result }
        ensures also { OnOk result (model.also (Append bytes.now) self.old self.new) }
        ensures too_long { IsErrOf result FileFault.TooLong
            → model.overflows self.old bytes.now };

    /// Cuts the file to a length. It is on the disk only after a sync.
    fn cut(&mut self, len: usize) -> Result<(), FileFault>
        requires { model.acts → len ≤ length (model.seen self.old) }
        ensures cut { OnOk result
            (model.acts → model.seen self.new ≡ take len (model.seen self.old)) }
        ensures crash { Follows (TornCut len) (model.may_leave self.old)
            (model.may_leave self.new) }
        ensures call { CallsFile model self.old self.new result }
        ensures also { OnOk result (model.also (Cut len) self.old self.new) }
        ensures not_too_long { ¬ IsErrOf result FileFault.TooLong };

    /// Waits until the bytes are on the disk: after `Ok`, a crash leaves them and nothing else.
    fn sync(&mut self) -> Result<(), FileFault>
        ensures unchanged { OnOk result (model.seen self.new ≡ model.seen self.old) }
        ensures durable { OnOk result
            (HasOneOutcome (model.seen self.old) (model.may_leave self.new)) }
        ensures stored { OnOk result
            (model.acts → model.stored (model.identity self.new) (model.seen self.old)) }
        ensures crash { Narrows (model.may_leave self.old) (model.may_leave self.new) }
        ensures call { CallsFile model self.old self.new result }
        ensures also { OnOk result (model.also Sync self.old self.new) }
        ensures not_too_long { ¬ IsErrOf result FileFault.TooLong };

    /// Replaces the file by one that holds the same lines, if it is to be renewed. A file that is
    /// never renewed keeps the default, which does nothing. A crash leaves the old file or the new
    /// one.
    ///
    /// After an error nothing more may be appended.
    fn renew(&mut self) -> Result<(), FileFault>
        requires settled { IsReady model self.old }
        ensures settled { OnOk result (IsReady model self.new) }
        ensures renewed { OnOk result (model.acts
            → IsSameOrRenewed model.renews (model.seen self.old) (model.seen self.new)) }
        // A crash at any moment of the call leaves the old file or the new one.
        ensures any_moment { model.acts → LeavesOnly model self.old self.new
            (IsSameOrRenewed model.renews (model.seen self.old)) }
        ensures same_file { IsSameFile model self.old self.new result }
    {
        Ok(())
    }
}
