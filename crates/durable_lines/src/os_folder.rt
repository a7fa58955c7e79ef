//! `OsFolder`: a folder of the operating system as a raw one. Nothing is claimed of it.
ghost use Rattle.std.specs.Prelude.{[]};

use crate::os_file::OsFile;
use crate::own_file::{FileAccess, create, is_held, is_same_file};
use crate::raw_folder::RawFolder;
use std::fs::{File, Files};
use std::{fs, io};

/// A folder of the operating system. Its names are paths, all of them in this folder.
#[derive(Drop)]
pub struct OsFolder<R: Files<File = File> + Drop> {
    files: R,
    folder: File,
}

impl<R: Files<File = File> + Drop> OsFolder<R> {
    /// Returns the raw folder of one that is open.
    pub fn new(files: R, folder: File) -> OsFolder<R> {
        OsFolder { files, folder }
    }
}

impl<R: Files<File = File> + Drop> RawFolder for OsFolder<R> {
    type File = OsFile;

    ghost acts = { ⊥ };

    ghost calls = { λ _. [] };

    fn create_new(&mut self, name: &str, mode: u32) -> io::Result<OsFile> {
        let file = create(&self.files, name, FileAccess::Write, mode)?;
        Ok(OsFile::new(file))
    }

    fn remove(&mut self, name: &str) -> io::Result<()> {
        fs::remove_file(&self.files, name)
    }

    fn rename(&mut self, from: &str, to: &str) -> io::Result<()> {
        fs::rename(&self.files, from, to)
    }

    fn link(&mut self, from: &str, to: &str) -> io::Result<()> {
        fs::hard_link(&self.files, from, to)
    }

    fn sync(&mut self) -> io::Result<()> {
        self.folder.sync_all()
    }

    fn is_held(&self, name: &str) -> bool {
        is_held(&self.files, name)
    }

    fn have_one_file(&self, first: &str, second: &str) -> bool {
        match (
            fs::symlink_metadata(&self.files, first),
            fs::symlink_metadata(&self.files, second),
        ) {
            (Ok(first), Ok(second)) => is_same_file(&first, &second),
            _ => false,
        }
    }
}
