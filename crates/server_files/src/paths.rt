//! The paths of a journal.
ghost use Rattle.std.specs.Prelude.{◌≡◌, ◌++◌, IfOk, map, string_bytes};
ghost use Rattle.server_files.specs.Paths.{older_names, ArePathsOf};

use durable_lines::PlacePaths;
use std::alloc::{AllocError, Global};

// The suffix of the path of a journal's lock file.
pub(crate) const LOCK_SUFFIX: &str = ".lock";

// The suffix of the path of the bytes that were cut off a journal.
pub(crate) const CUT_SUFFIX: &str = ".cut";

// The suffix of the path of the draft that replaces a journal.
const DRAFT_SUFFIX: &str = ".new";

// Returns a path with this suffix.
pub(crate) fn with_suffix(alloc: Global, path: &str, suffix: &str) -> Result<String, AllocError>
    ensures { IfOk result (λ text. string_bytes text ≡ path.now ++ suffix.now) }
{
    let mut text = String::new(alloc);
    text.push_str(path)?;
    text.push_str(suffix)?;
    Ok(text)
}

// Returns the path of the folder that a path is in.
pub(crate) fn folder_of(path: &str) -> &str {
    match path.rfind('/') {
        Some(0) => "/",
        Some(end) => &path[..end],
        None => ".",
    }
}

// Returns the paths of the journals before the last renewals, as many as are kept: that of the
// journal, a period and a number, counted from 1.
fn older_paths(alloc: Global, path: &str, count: u16) -> Result<Vec<String>, AllocError>
    ensures { IfOk result (λ paths. map string_bytes paths.items ≡ older_names path.now count) }
{
    let mut paths = Vec::new(alloc);
    'paths: for index in 0..count {
        let number = index + 1;
        paths.push(format!(in alloc; "{path}.{number}")?)?;
    }
    Ok(paths)
}

// Returns the paths of the place of a journal, which keeps this number of files that were
// replaced, and makes files with these permissions.
pub(crate) fn place_paths(
    alloc: Global,
    path: &str,
    kept: u16,
    mode: u32,
) -> Result<PlacePaths, AllocError>
    ensures { IfOk result (ArePathsOf path.now kept) }
{
    Ok(PlacePaths {
        path: with_suffix(alloc, path, "")?,
        draft: with_suffix(alloc, path, DRAFT_SUFFIX)?,
        older: older_paths(alloc, path, kept)?,
        mode,
    })
}
