//! `RawFolder`: a folder, with one method for each call of the operating system on its names.
ghost use Rattle.std.specs.Prelude.{◌≡◌, ◌∷◌, ◌++◌, [], List, IfOk, OnErr, OnOk};
ghost use Rattle.durable_lines.specs.RawFolder.{FolderCall, Create, Link, Remove, Rename};
ghost use Rattle.durable_lines.specs.RawFolder.{SyncFolder};
ghost use Rattle.durable_lines.specs.RawModel.{raw_bytes};

use crate::raw_file::RawFile;
use std::io;

/// A folder of the operating system, and the names of files in it. Each method has no logic of its
/// own. The ghost members have the calls that were made, in their order; that a call does to the
/// names what `specs/RawFolder.antt` says is a premise, which no contract can promise of a folder
/// of the operating system: [`OsFolder`](crate::OsFolder) claims no `acts`.
pub trait RawFolder: Drop {
    /// The files of the folder.
    type File: RawFile;

    // Ghost type: folders of this type record their calls.
    ghost acts: { Type 0 };

    // Ghost value: the calls so far that changed a name or synced the folder, the first one first.
    ghost calls: { Self → List FolderCall };

    /// Creates an empty file of a name that has none, with these permissions whatever the mask of
    /// the process, and opens it for reading and writing: one open, and one fchmod.
    fn create_new(&mut self, name: &str, mode: u32) -> io::Result<Self::File>
        ensures empty { IfOk result (λ file. raw_bytes Self.File.model file ≡ []) }
        ensures called { OnOk result (acts
            → calls self.new ≡ calls self.old ++ Create name.now ∷ []) };

    /// Removes a name: one unlink.
    fn remove(&mut self, name: &str) -> io::Result<()>
        ensures called { OnOk result (acts
            → calls self.new ≡ calls self.old ++ Remove name.now ∷ []) }
        ensures refused { OnErr result (calls self.new ≡ calls self.old) };

    /// Gives the file of a name another name, whose file is replaced: one rename.
    fn rename(&mut self, from: &str, to: &str) -> io::Result<()>
        ensures called { OnOk result (acts
            → calls self.new ≡ calls self.old ++ Rename from.now to.now ∷ []) }
        ensures refused { OnErr result (calls self.new ≡ calls self.old) };

    /// Gives the file of a name a further name that has no file: one link.
    fn link(&mut self, from: &str, to: &str) -> io::Result<()>
        ensures called { OnOk result (acts
            → calls self.new ≡ calls self.old ++ Link from.now to.now ∷ []) }
        ensures refused { OnErr result (calls self.new ≡ calls self.old) };

    /// Waits until the names are on the disk: one fsync of the folder.
    fn sync(&mut self) -> io::Result<()>
        ensures called { OnOk result (acts → calls self.new ≡ calls self.old ++ SyncFolder ∷ []) }
        ensures refused { OnErr result (calls self.new ≡ calls self.old) };

    /// Returns whether another process has locked the file of a name: one open and one flock.
    fn is_held(&self, name: &str) -> bool;

    /// Returns whether two names have one file: one lstat of each.
    fn have_one_file(&self, first: &str, second: &str) -> bool;
}
