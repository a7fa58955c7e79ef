//! Keeps what is cut off a journal.
use crate::paths::{CUT_SUFFIX, with_suffix};
use durable_lines::{DurableFile, OsStoredFile, create_anew, whole_len};
use std::alloc::{AllocGlobal, Global};
use std::fs::{File, Files};
use std::io;
use std::io::Write;

// Returns the bytes after the last whole line of a file, which a recovery cuts. Returns none if the
// file cannot be read; the recovery fails then, too.
pub(crate) fn end_of(alloc: Global, file: &mut OsStoredFile) -> Vec<u8> {
    let mut end = Vec::new(alloc);
    if let Ok(bytes) = file.read(alloc) {
        let (_, rest) = bytes.as_slice().split_at(whole_len(&bytes));
        let _ = end.extend_from_slice(rest);
    }
    end
}

// Writes bytes to a new file of a path, with these permissions.
fn write_anew<R: Files<File = File>>(
    rt: &R,
    path: &str,
    bytes: &[u8],
    mode: u32,
) -> io::Result<()> {
    let mut file = create_anew(rt, path, mode)?;
    file.write_all(bytes)?;
    file.sync_all()
}

// Writes the bytes that were cut off a journal, if any, to a file next to it, and reports where
// they are, or that they could not be written.
pub(crate) fn keep_cut<R: AllocGlobal + Files<File = File>, E: Eprint>(
    rt: &R,
    errors: &E,
    path: &str,
    end: &[u8],
    mode: u32,
) {
    if end.is_empty() {
        return;
    }
    let Ok(kept) = with_suffix(rt.alloc(), path, CUT_SUFFIX) else {
        return;
    };
    let _ = match write_anew(rt, kept.as_str(), end, mode) {
        Ok(()) => eprintln!(errors; "{path}: the bytes that were cut are in {kept}"),
        Err(error) => eprintln!(errors; "{kept}: the bytes that were cut are not kept: {error}"),
    };
}
