//! `StoredFile`: a raw file, limited in length, as a durable file.
ghost use Rattle.std.specs.Prelude.{◌≡◌, ◌≤◌, [], IfOk, IsErrOf, OnOk, length, take};
ghost use Rattle.durable_lines.specs.Calls.{CallsFile};
ghost use Rattle.durable_lines.specs.CrashModel.{Follows, TornCut};
ghost use Rattle.durable_lines.specs.RawModel.{raw_bytes, LeftOfRaw};
ghost use Rattle.durable_lines.specs.StoredFile.{limit_of, stored_model, HasFailed};

use crate::durable_file::DurableFile;
use crate::fault::{FileFault, LockFault, record_failure};
use crate::lock_file::lock_raw;
use crate::os_file::OsFile;
use crate::raw_calls::{append_within, cut_to, read_within, sync_bytes};
use crate::raw_file::RawFile;
use std::alloc::Global;
use std::fs::File;
use std::marker::Model;

/// A raw file that is limited in length. After a call failed, every later call fails, too, but
/// `renew`, which does nothing. It acts as the crash model says if the raw file does.
#[derive(Debug, Drop)]
pub struct StoredFile<R: RawFile> {
    raw: R,
    limit: usize,
    has_failed: bool,
}

/// A file of the operating system, locked against other processes and limited in length. That it
/// acts as the crash model says is a premise.
pub type OsStoredFile = StoredFile<OsFile>;

impl<R: RawFile> Model for StoredFile<R> {
    ghost use Rattle.std.specs.Prelude.{◌≡◌, true};
    ghost use Rattle.durable_lines.specs.StoredFile.{StoredState};

    ghost Value = { StoredState R };

    ghost view = { λ f. record { raw = f.raw; limit = f.limit; has_failed = f.has_failed } };

    // (a file fails only if a call on the raw file has)
    ghost invariant = { λ f. f.has_failed ≡ true → R.model.has_failed f.raw };
}

impl<R: RawFile> StoredFile<R> {
    /// Locks a raw file until the value is dropped, syncs it, and drops what the system has of it
    /// in memory, so that it is read from the disk. `limit` is the maximum length in bytes: a
    /// longer file is not read, and an append that would exceed it is refused. Errors: `Held` if
    /// another process has locked the file, `Failed` if it cannot be locked or synced.
    pub fn try_lock_raw(raw: R, limit: usize) -> Result<StoredFile<R>, LockFault>
        ensures locked { IfOk result (λ stored. R.model.is_locked stored.raw) }
        ensures on_disk { IfOk result (λ stored. R.model.reads_disk stored.raw) }
        ensures empty { IfOk result (λ stored. raw_bytes R.model raw ≡ []
            → raw_bytes R.model stored.raw ≡ []) }
        ensures limit { IfOk result (λ stored. limit_of stored ≡ limit) }
        ensures unfailed { IfOk result (λ stored. ¬ HasFailed stored) }
    {
        let mut raw = raw;
        lock_raw(&mut raw)?;
        if raw.sync_data().is_err() || raw.drop_pages().is_err() {
            return Err(LockFault::Failed);
        }
        Ok(StoredFile {
            raw,
            limit,
            has_failed: false,
        })
    }
}

impl<R: RawFile> StoredFile<R> {
    // Cuts the file to a length. Nothing is said of a length that is greater than that of the file.
    pub(crate) fn cut_to(&mut self, len: usize) -> Result<(), FileFault>
        ensures cut { OnOk result (R.model.acts
            → len ≤ length (raw_bytes R.model self.old.raw)
            → raw_bytes R.model self.new.raw ≡ take len (raw_bytes R.model self.old.raw)) }
        ensures crash { (R.model.acts → len ≤ length (raw_bytes R.model self.old.raw))
            → Follows (TornCut len) (LeftOfRaw R.model self.old.raw)
            (LeftOfRaw R.model self.new.raw) }
        ensures call { CallsFile (stored_model R.model) self.old self.new result }
        ensures limit { limit_of self.new ≡ limit_of self.old }
        ensures not_too_long { ¬ IsErrOf result FileFault.TooLong }
    {
        if self.has_failed {
            return Err(FileFault::Failed);
        }
        let call = cut_to(&mut self.raw, len);
        record_failure(&mut self.has_failed, call)
    }
}

impl StoredFile<OsFile> {
    /// Locks a file that is open for reading and writing, as
    /// [`try_lock_raw`](StoredFile::try_lock_raw) does.
    pub fn try_lock(file: File, limit: usize) -> Result<OsStoredFile, LockFault>
        ensures unfailed { IfOk result (λ stored. ¬ HasFailed stored) }
        ensures limit { IfOk result (λ stored. limit_of stored ≡ limit) }
    {
        StoredFile::try_lock_raw(OsFile::new(file), limit)
    }
}

impl<R: RawFile> DurableFile for StoredFile<R> {
    ghost model = { stored_model R.model };

    fn read(&mut self, alloc: Global) -> Result<Vec<u8>, FileFault> {
        if self.has_failed {
            return Err(FileFault::Failed);
        }
        let call = read_within(alloc, &mut self.raw, self.limit);
        record_failure(&mut self.has_failed, call)
    }

    fn append(&mut self, bytes: &[u8]) -> Result<(), FileFault> {
        if self.has_failed {
            return Err(FileFault::Failed);
        }
        let call = append_within(&mut self.raw, self.limit, bytes);
        record_failure(&mut self.has_failed, call)
    }

    fn cut(&mut self, len: usize) -> Result<(), FileFault> {
        self.cut_to(len)
    }

    fn sync(&mut self) -> Result<(), FileFault> {
        if self.has_failed {
            return Err(FileFault::Failed);
        }
        let call = sync_bytes(&mut self.raw);
        record_failure(&mut self.has_failed, call)
    }
}
