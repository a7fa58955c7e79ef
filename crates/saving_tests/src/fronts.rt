//! What a crash leaves of a file of lines.
use durable_lines::{ByteFate, FileFault, MemoryFile, recover};
use std::alloc::{AllocError, Global};

/// What a file has before the lines of the first save.
pub(crate) static FIRST: &[u8] = b"first\n";

/// The line of `FIRST`, followed by those of a write of mode 1, a press and a moment.
pub(crate) static ALL: &[u8] = b"first\nset 1 70 000060030AFF 4 0 1601\nbutton\nmoment 5\n";

/// Returns a file with the line of `FIRST`.
pub(crate) fn first_file(alloc: Global) -> Result<MemoryFile, FileFault> {
    Ok(MemoryFile::new(alloc, FIRST.to_vec(alloc)?))
}

/// Returns the fates of bytes of which the first are kept, `next` is the fate of the next, and 64
/// further ones are kept.
fn fates_of(alloc: Global, kept: usize, next: ByteFate) -> Result<Vec<ByteFate>, AllocError> {
    let mut fates = Vec::new(alloc);
    for _ in 0..kept {
        fates.push(ByteFate::Kept)?;
    }
    fates.push(next)?;
    for _ in 0..64 {
        fates.push(ByteFate::Kept)?;
    }
    Ok(fates)
}

/// Returns whether bytes that a crash left are recovered as the first line and a front of the
/// others.
fn is_front(alloc: Global, bytes: Vec<u8>) -> Result<bool, FileFault> {
    let mut file = MemoryFile::new(alloc, bytes);
    let found = recover(alloc, &mut file)?;
    let text = found.text.as_slice();
    Ok(ALL.starts_with(text) && text.ends_with(b"\n") && text.len() >= FIRST.len())
}

/// Returns whether a crash at each moment leaves the first line and a front of the others.
pub(crate) fn leaves_fronts(alloc: Global, file: &MemoryFile) -> Result<bool, FileFault> {
    for moment in 0..=file.moment() {
        for kept in 0..50 {
            let zeroed = fates_of(alloc, kept, ByteFate::Zeroed)?;
            let missing = fates_of(alloc, kept, ByteFate::Missing)?;
            let are_fronts = is_front(alloc, file.after_crash(moment, zeroed.as_slice())?)?
                && is_front(alloc, file.after_crash(moment, missing.as_slice())?)?;
            if !are_fronts {
                return Ok(false);
            }
        }
    }
    Ok(true)
}
