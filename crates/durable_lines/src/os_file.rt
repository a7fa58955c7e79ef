//! `OsFile`: a file of the operating system as a raw file. Nothing is claimed of it.
ghost use Rattle.std.specs.Prelude.{◌≤◌, [], ⊤};
ghost use Rattle.durable_lines.specs.FileState.{synced_with};
ghost use Rattle.std.proofs.Common.{zero-le};

use crate::raw_file::RawFile;
use std::fs::{File, TryLockError};
use std::io;
use std::io::{Read, Seek, SeekFrom, Write};
use std::os::fd::AsRawFd;

/// A file of the operating system. That it acts as the crash model says is a premise, which no
/// contract can promise.
#[derive(Debug, Drop)]
pub struct OsFile {
    file: File,
}

impl OsFile {
    /// Returns the raw file of a file that is open for reading and writing.
    pub fn new(file: File) -> OsFile {
        OsFile { file }
    }
}

impl RawFile for OsFile {
    ghost model = { record {
      acts = ⊥;
      identity = λ _. 0;
      state = λ _. synced_with [];
      place = λ _. 0;
      moment = λ _. 0;
      left_since = λ _ _ _. ⊥;
      stored = λ _ _. ⊥;
      is_locked = λ _. ⊤;
      reads_disk = λ _. ⊤;
      has_failed = λ _. ⊤;
      is_within = λ file. zero-le;
      counts_now = λ file t c le now. now.0;
      only_now = λ file c left. absurd left;
    } };

    fn try_lock(&mut self) -> Result<(), TryLockError> {
        self.file.try_lock()
    }

    fn drop_pages(&mut self) -> io::Result<()> {
        match libc::posix_fadvise(self.file.as_raw_fd(), 0, 0, libc::POSIX_FADV_DONTNEED) {
            0 => Ok(()),
            error => Err(io::Error::from_raw_os_error(error)),
        }
    }

    #[tactic(auto, using(crate::proofs::Moments::elapses_still))]
    fn seek_start(&mut self) -> io::Result<()> {
        match self.file.seek(SeekFrom::Start(0)) {
            Ok(_) => Ok(()),
            Err(error) => Err(error),
        }
    }

    #[tactic(auto, using(crate::proofs::Moments::elapses_still))]
    fn seek_end(&mut self) -> io::Result<u64> {
        self.file.seek(SeekFrom::End(0))
    }

    #[tactic(auto, using(crate::proofs::Moments::elapses_still))]
    fn read(&mut self, buffer: &mut [u8]) -> io::Result<usize> {
        self.file.read(buffer)
    }

    #[tactic(auto, using(crate::proofs::Moments::elapses_still))]
    fn write(&mut self, bytes: &[u8]) -> io::Result<usize> {
        self.file.write(bytes)
    }

    #[tactic(auto, using(crate::proofs::Moments::elapses_still))]
    fn set_len(&mut self, len: usize) -> io::Result<()> {
        self.file.set_len(len as u64)
    }

    #[tactic(auto, using(crate::proofs::Moments::elapses_still, crate::proofs::RawLemmas::narrows_void))]
    fn sync_data(&mut self) -> io::Result<()> {
        self.file.sync_data()
    }
}
