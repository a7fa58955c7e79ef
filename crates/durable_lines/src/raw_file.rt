//! `RawFile`: an open file, with one method for each call of the operating system on it.
ghost use Rattle.std.specs.Prelude.{◌≡◌, ◌≢◌, ◌≤◌, [], IfErr, IfOk, IsErr, OnErr, OnOk, length};
ghost use Rattle.std.specs.Prelude.{take};
ghost use Rattle.std.specs.IoError.{error_kind};
ghost use Rattle.durable_lines.specs.CrashModel.{Narrows};
ghost use Rattle.durable_lines.specs.FileState.{synced_with, after_append, after_cut};
ghost use Rattle.durable_lines.specs.RawFile.{CutsOrStays, ReadsPiece};
ghost use Rattle.durable_lines.specs.RawModel.{raw_bytes, AppendsFront, CallsRaw, IsAtEnd};
ghost use Rattle.durable_lines.specs.RawModel.{LeftOfRaw};

use std::fs::TryLockError;
use std::io;
use std::io::ErrorKind;

/// An open file of the operating system. Each method is one call, with no logic of its own.
///
/// The clauses with the premise `acts` are the crash model of `specs/FileState.antt`. No contract
/// can promise them of a file of the operating system: [`OsFile`](crate::OsFile) claims no `acts`.
pub trait RawFile: Drop {
    ghost use Rattle.durable_lines.specs.RawModel.{RawModel};

    // What the files of this type are, and what a crash may leave of them.
    ghost model: { RawModel Self };

    /// Locks the file, until the value is dropped, against all other values that are open for it:
    /// one flock, which does not wait.
    fn try_lock(&mut self) -> Result<(), TryLockError>
        ensures locked { OnOk result (model.is_locked self.new) }
        ensures seen { raw_bytes model self.new ≡ raw_bytes model self.old };

    /// Drops the pages of the file that the system has in memory: one posix_fadvise. If a sync of
    /// an earlier process failed, they may differ from the disk. A page that was not synced since
    /// is not dropped.
    fn drop_pages(&mut self) -> io::Result<()>
        requires synced { model.acts
            → model.state self.old ≡ synced_with (raw_bytes model self.old) }
        ensures on_disk { OnOk result (model.reads_disk self.new) }
        ensures empty { raw_bytes model self.old ≡ [] → raw_bytes model self.new ≡ [] }
        ensures locked { model.is_locked self.old → model.is_locked self.new };

    /// Moves to the first byte: one lseek.
    fn seek_start(&mut self) -> io::Result<()>
        ensures place { OnOk result (model.acts → model.place self.new ≡ 0) }
        ensures state { model.state self.new ≡ model.state self.old }
        ensures call { CallsRaw model self.old self.new (IsErr result) };

    /// Moves after the last byte, and returns the number of bytes: one lseek.
    fn seek_end(&mut self) -> io::Result<u64>
        ensures len { IfOk result (λ len. model.acts → len ≡ length (raw_bytes model self.old)) }
        ensures place { OnOk result (model.acts → IsAtEnd model self.new) }
        ensures state { model.state self.new ≡ model.state self.old }
        ensures call { CallsRaw model self.old self.new (IsErr result) };

    /// Reads bytes into the front of a buffer, and returns their number: one read.
    fn read(&mut self, buffer: &mut [u8]) -> io::Result<usize>
        ensures count { IfOk result (λ count. count ≤ length buffer.new) }
        ensures read { IfOk result (λ count. model.acts → ReadsPiece (raw_bytes model self.old)
            (model.place self.old) (model.place self.new) (length buffer.new)
            (take count buffer.new)) }
        ensures interrupted { IfErr result (λ error. error_kind error ≡ ErrorKind.Interrupted
            → model.acts → model.place self.new ≡ model.place self.old) }
        ensures state { model.state self.new ≡ model.state self.old }
        ensures call { CallsRaw model self.old self.new (IsErr result) };

    /// Writes bytes at the end of the file, and returns how many: one write.
    fn write(&mut self, bytes: &[u8]) -> io::Result<usize>
        requires { model.acts → IsAtEnd model self.old }
        ensures count { IfOk result (λ count. count ≤ length bytes.now) }
        ensures written { IfOk result (λ count. model.acts
            → model.state self.new ≡ after_append (take count bytes.now) (model.state self.old)) }
        ensures place { OnOk result (model.acts → IsAtEnd model self.new) }
        ensures front { OnErr result (AppendsFront model bytes.now self.old self.new) }
        ensures interrupted { IfErr result (λ error. error_kind error ≡ ErrorKind.Interrupted
            → model.acts → (model.state self.new ≡ model.state self.old)
            × (model.place self.new ≡ model.place self.old)) }
        ensures none { IfOk result (λ count. count ≡ 0 → bytes.now ≢ []
            → model.has_failed self.new) }
        ensures call { CallsRaw model self.old self.new (IsErr result) };

    /// Sets the length of the file: one ftruncate. Nothing is said of a greater length.
    fn set_len(&mut self, len: usize) -> io::Result<()>
        ensures cut { OnOk result (model.acts → len ≤ length (raw_bytes model self.old)
            → model.state self.new ≡ after_cut len (model.state self.old)) }
        ensures refused { OnErr result (model.acts → len ≤ length (raw_bytes model self.old)
            → CutsOrStays len (model.state self.old) (model.state self.new)) }
        ensures call { CallsRaw model self.old self.new (IsErr result) };

    /// Waits until the bytes are on the disk: one fdatasync. After an error the system may have
    /// dropped what it could not write.
    fn sync_data(&mut self) -> io::Result<()>
        ensures synced { OnOk result
            (model.acts → model.state self.new ≡ synced_with (raw_bytes model self.old)) }
        ensures seen { OnOk result (raw_bytes model self.new ≡ raw_bytes model self.old) }
        ensures stored { OnOk result
            (model.acts → model.stored (model.identity self.new) (raw_bytes model self.old)) }
        ensures crash { Narrows (LeftOfRaw model self.old) (LeftOfRaw model self.new) }
        ensures locked { model.is_locked self.old → model.is_locked self.new }
        ensures call { CallsRaw model self.old self.new (IsErr result) };
}
