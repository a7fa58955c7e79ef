//! Standard streams that are closed at the start.
use std::alloc::Global;
use std::fs::{File, Files};
use std::io;
use std::os::fd::AsRawFd;

// The numbers of the standard streams.
const STREAMS: i32 = 3;

// Opens a file for each standard stream that is closed, so that no other file and no socket
// gets its number: what is read from it has ended, and a write to it fails. Returns the files, to
// be kept while the program runs.
pub(crate) fn fill_streams<R: Files<File = File>>(rt: &R, alloc: Global) -> io::Result<Vec<File>> {
    let mut files = Vec::new(alloc);
    'streams: for _ in 0..STREAMS {
        let file = File::open(rt, "/dev/null")?;
        if file.as_raw_fd() >= STREAMS {
            break 'streams;
        }
        files.push(file)?;
    }
    Ok(files)
}
