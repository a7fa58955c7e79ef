//! Reads a raw file to its end, and appends to it, both within a limit. Calls that a signal
//! interrupts are retried, and short reads and writes are continued.
ghost use Rattle.std.specs.Prelude.{◌≡◌, ◌≢◌, ◌+◌, ◌<◌, ◌≤◌, IfErr, IfOk, IsErr, IsErrOf, OnOk};
ghost use Rattle.std.specs.Prelude.{length, take};
ghost use Rattle.std.specs.IoError.{error_kind};
ghost use Rattle.durable_lines.specs.CrashModel.{Follows, Narrows, HasOneOutcome, TornCut};
ghost use Rattle.durable_lines.specs.FileState.{after_append};
ghost use Rattle.durable_lines.specs.RawFile.{ReadsPiece};
ghost use Rattle.durable_lines.specs.RawModel.{raw_bytes, AppendsFront, CallsRaw, IsAtEnd};
ghost use Rattle.durable_lines.specs.RawModel.{LeftOfRaw};

use crate::fault::FileFault;
use crate::raw_file::RawFile;
use std::alloc::Global;
use std::io;
use std::io::ErrorKind;

// The maximum number of bytes of one read.
const MAX_PIECE: usize = 16_384;

// Returns the fault for an error: `Memory` if out of memory, else `Failed`.
fn fault_of(error: &io::Error) -> FileFault
    ensures memory { error_kind error.now ≡ ErrorKind.OutOfMemory → result ≡ FileFault.Memory }
    ensures failed { error_kind error.now ≢ ErrorKind.OutOfMemory → result ≡ FileFault.Failed }
    ensures not_too_long { result ≢ FileFault.TooLong }
{
    match error.kind() {
        ErrorKind::OutOfMemory => FileFault::Memory,
        _ => FileFault::Failed,
    }
}

// Reads once, and retries a read that a signal interrupts.
fn read_retrying<R: RawFile>(raw: &mut R, buffer: &mut [u8]) -> Result<usize, FileFault>
    ensures count { IfOk result (λ count. count ≤ length buffer.new) }
    ensures read { IfOk result (λ count. R.model.acts → ReadsPiece (raw_bytes R.model raw.old)
        (R.model.place raw.old) (R.model.place raw.new) (length buffer.new)
        (take count buffer.new)) }
    ensures state { R.model.state raw.new ≡ R.model.state raw.old }
    ensures not_too_long { ¬ IsErrOf result FileFault.TooLong }
    ensures call { CallsRaw R.model raw.old raw.new (IsErr result) }
{
    'tries: for _ in 0..u64::MAX {
        match raw.read(buffer) {
            Ok(count) => return Ok(count),
            Err(error) if error.kind() == ErrorKind::Interrupted => {}
            Err(error) => return Err(fault_of(&error)),
        }
    }
    Err(FileFault::Failed)
}

// Returns all bytes of a file, or `TooLong` if there are more than `limit`.
pub(crate) fn read_within<R: RawFile>(
    alloc: Global,
    raw: &mut R,
    limit: usize,
) -> Result<Vec<u8>, FileFault>
    ensures bytes { IfOk result (λ bytes. R.model.acts → bytes.items ≡ raw_bytes R.model raw.old) }
    ensures within { IfOk result (λ bytes. length bytes.items ≤ limit) }
    ensures too_long { IsErrOf result FileFault.TooLong
        → R.model.acts → limit < length (raw_bytes R.model raw.old) }
    ensures state { R.model.state raw.new ≡ R.model.state raw.old }
    ensures call { CallsRaw R.model raw.old raw.new (IsErrOf result FileFault.Failed) }
{
    let mut bytes = Vec::new(alloc);
    if raw.seek_start().is_err() {
        return Err(FileFault::Failed);
    }
    let mut buffer = [0; MAX_PIECE];
    'pieces: for _ in 0..u64::MAX {
        let count = read_retrying(raw, &mut buffer)?;
        if count == 0 {
            return Ok(bytes);
        }
        bytes.extend_from_slice(&buffer[..count])?;
        if bytes.len() > limit {
            return Err(FileFault::TooLong);
        }
    }
    Err(FileFault::Memory) // (each piece has a byte, and memory has fewer)
}

// Writes once at the end of a file, and retries a write that a signal interrupts. A write that
// writes nothing fails.
fn write_retrying<R: RawFile>(raw: &mut R, bytes: &[u8]) -> Result<usize, FileFault>
    requires at_end { R.model.acts → IsAtEnd R.model raw.old }
    requires non_empty { 0 < length bytes.now }
    ensures count { IfOk result (λ count. (0 < count) × (count ≤ length bytes.now)) }
    ensures written { IfOk result (λ count. R.model.acts
        → R.model.state raw.new ≡ after_append (take count bytes.now) (R.model.state raw.old)) }
    ensures at_end { OnOk result (R.model.acts → IsAtEnd R.model raw.new) }
    ensures front { AppendsFront R.model bytes.now raw.old raw.new }
    ensures err { IfErr result (λ fault. fault ≡ FileFault.Failed) }
    ensures call { CallsRaw R.model raw.old raw.new (IsErr result) }
{
    'tries: for _ in 0..u64::MAX {
        match raw.write(bytes) {
            Ok(0) => return Err(FileFault::Failed),
            Ok(count) => return Ok(count),
            Err(error) if error.kind() == ErrorKind::Interrupted => {}
            Err(_) => return Err(FileFault::Failed),
        }
    }
    Err(FileFault::Failed)
}

// Writes all bytes at the end of a file. After an error a front of them may have been written.
fn write_all<R: RawFile>(raw: &mut R, bytes: &[u8]) -> Result<(), FileFault>
    requires { R.model.acts → IsAtEnd R.model raw.old }
    ensures written { OnOk result
        (R.model.acts → R.model.state raw.new ≡ after_append bytes.now (R.model.state raw.old)) }
    ensures front { AppendsFront R.model bytes.now raw.old raw.new }
    ensures err { IfErr result (λ fault. fault ≡ FileFault.Failed) }
    ensures call { CallsRaw R.model raw.old raw.new (IsErr result) }
{
    let mut rest = bytes;
    'writes: for _ in 0..bytes.len() {
        if rest.is_empty() {
            return Ok(());
        }
        let count = write_retrying(raw, rest)?;
        let (_, left) = rest.split_at(count);
        rest = left;
    }
    Ok(())
}

// Appends bytes at the end of a file, or returns `TooLong` if it would exceed `limit`.
pub(crate) fn append_within<R: RawFile>(
    raw: &mut R,
    limit: usize,
    bytes: &[u8],
) -> Result<(), FileFault>
    ensures written { OnOk result
        (R.model.acts → R.model.state raw.new ≡ after_append bytes.now (R.model.state raw.old)) }
    ensures within { OnOk result
        (R.model.acts → length (raw_bytes R.model raw.old) + length bytes.now ≤ limit) }
    ensures front { AppendsFront R.model bytes.now raw.old raw.new }
    ensures too_long { IsErrOf result FileFault.TooLong
        → R.model.acts → limit < length (raw_bytes R.model raw.old) + length bytes.now }
    ensures call { CallsRaw R.model raw.old raw.new (IsErrOf result FileFault.Failed) }
{
    let Ok(end) = raw.seek_end() else {
        return Err(FileFault::Failed);
    };
    let Some(room) = (limit as u64).checked_sub(end) else {
        return Err(FileFault::TooLong);
    };
    if bytes.len() as u64 > room {
        return Err(FileFault::TooLong);
    }
    write_all(raw, bytes)
}

// Cuts a file to a length. Nothing is said of a length that is greater than that of the file.
pub(crate) fn cut_to<R: RawFile>(raw: &mut R, len: usize) -> Result<(), FileFault>
    ensures cut { OnOk result (R.model.acts → len ≤ length (raw_bytes R.model raw.old)
        → raw_bytes R.model raw.new ≡ take len (raw_bytes R.model raw.old)) }
    ensures crash { (R.model.acts → len ≤ length (raw_bytes R.model raw.old))
        → Follows (TornCut len) (LeftOfRaw R.model raw.old) (LeftOfRaw R.model raw.new) }
    ensures err { IfErr result (λ fault. fault ≡ FileFault.Failed) }
    ensures call { CallsRaw R.model raw.old raw.new (IsErr result) }
{
    match raw.set_len(len) {
        Ok(()) => Ok(()),
        Err(_) => Err(FileFault::Failed),
    }
}

// Waits until the bytes of a file are on the disk.
pub(crate) fn sync_bytes<R: RawFile>(raw: &mut R) -> Result<(), FileFault>
    ensures seen { OnOk result (raw_bytes R.model raw.new ≡ raw_bytes R.model raw.old) }
    ensures durable { OnOk result (HasOneOutcome (raw_bytes R.model raw.old)
        (LeftOfRaw R.model raw.new)) }
    ensures stored { OnOk result (R.model.acts
        → R.model.stored (R.model.identity raw.new) (raw_bytes R.model raw.old)) }
    ensures crash { Narrows (LeftOfRaw R.model raw.old) (LeftOfRaw R.model raw.new) }
    ensures err { IfErr result (λ fault. fault ≡ FileFault.Failed) }
    ensures call { CallsRaw R.model raw.old raw.new (IsErr result) }
{
    match raw.sync_data() {
        Ok(()) => Ok(()),
        Err(_) => Err(FileFault::Failed),
    }
}
