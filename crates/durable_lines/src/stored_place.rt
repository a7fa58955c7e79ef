//! `StoredPlace`: a name in a folder.
ghost use Rattle.std.specs.Prelude.{◌≡◌, ◌≤◌, ◌∷◌, ◌++◌, [], ℕ, true, IfOk, IfSome, IsErrOf, OnErr};
ghost use Rattle.std.specs.Prelude.{OnOk, length, string_bytes, take, ⊤};
ghost use Rattle.durable_lines.specs.CrashModel.{HasOneOutcome};
ghost use Rattle.durable_lines.specs.RawFolder.{CreatesName, GivesName, LeavesName, SyncFolder};
ghost use Rattle.durable_lines.specs.RawModel.{raw_bytes, LeftOfRaw};
ghost use Rattle.durable_lines.specs.StoredFile.{HasFailed as FileHasFailed};
ghost use Rattle.durable_lines.specs.StoredPlace.{seen_in, with_file, CallsFolder, ChangesFile};
ghost use Rattle.durable_lines.specs.StoredPlace.{HasFailed, SyncsFolder};

use crate::durable_file::DurableFile;
use crate::fault::{FileFault, record_failure};
use crate::older_files::{has_failed, keep_older};
use crate::os_folder::OsFolder;
use crate::place::Place;
use crate::raw_file::RawFile;
use crate::raw_folder::RawFolder;
use crate::stored_file::StoredFile;
use std::alloc::Global;
use std::io;

/// The paths of a [`StoredPlace`], all of them in one folder.
#[derive(Debug, Drop)]
pub struct PlacePaths {
    /// The path of the file.
    pub path: String,
    /// The path of a draft before it becomes the file.
    pub draft: String,
    /// The paths of the files that were replaced: the last one, the one before it, and so on.
    /// Earlier ones are removed. If there are any paths, the file system must have hard links.
    pub older: Vec<String>,
    /// The permissions of a draft that is made.
    pub mode: u32,
}

/// A name in a folder, and a second name there for drafts. It has no file until it is given one or
/// its file is replaced; until then, reads and writes fail. After a call failed, every later call
/// fails, too, but `renew`, which does nothing.
///
/// The name may have its file by a rename of a process that was killed before it had synced the
/// folder. So the first sync also syncs the folder.
///
/// Nothing is claimed of the bytes: that such a name acts as the crash model says is a premise. Its
/// calls on the folder are those that `specs/RawFolder.antt` says. Hold a
/// [`LockFile`](crate::LockFile) of the name as long as its file may be replaced.
#[derive(Drop)]
pub struct StoredPlace<F: RawFolder> {
    folder: F,
    paths: PlacePaths,
    limit: usize,
    file: Option<StoredFile<F::File>>,
    // The file may have got the name by a rename that is not on the disk.
    is_renamed: bool,
    has_failed: bool,
}

/// A name in a folder of the operating system.
pub type OsStoredPlace<R> = StoredPlace<OsFolder<R>>;

impl<F: RawFolder> StoredPlace<F> {
    /// Returns the place of a file, without the file. `folder` is the folder of its paths, on whose
    /// disk the draft becomes the file. `limit` is the maximum length of a draft in bytes.
    pub fn new(folder: F, paths: PlacePaths, limit: usize) -> StoredPlace<F>
        ensures unfailed { ¬ HasFailed result }
        ensures renamed { result.is_renamed ≡ true }
    {
        StoredPlace {
            folder,
            paths,
            limit,
            file: None,
            is_renamed: true,
            has_failed: false,
        }
    }

    /// Gives the place its file, which was opened under its path. A place that has failed remains
    /// failed.
    pub fn set_file(&mut self, file: StoredFile<F::File>)
        ensures { self.new ≡ with_file self.old file }
    {
        self.file = Some(file);
    }
}

// Creates an empty draft, after one that a killed process left was removed, and locks it. Fails if
// another process has locked that one.
fn open_draft<F: RawFolder>(
    folder: &mut F,
    path: &str,
    mode: u32,
    limit: usize,
) -> Result<StoredFile<F::File>, FileFault>
    ensures created { OnOk result (F.acts
        → CreatesName path.now (F.calls folder.old) (F.calls folder.new)) }
    ensures empty { IfOk result (λ draft. raw_bytes F.File.model draft.raw ≡ []) }
    ensures locked { IfOk result (λ draft. F.File.model.is_locked draft.raw) }
    ensures unfailed { IfOk result (λ draft. ¬ FileHasFailed draft) }
    ensures not_too_long { ¬ IsErrOf result FileFault.TooLong }
{
    if folder.is_held(path) || has_failed(&folder.remove(path)) {
        return Err(FileFault::Failed);
    }
    match folder.create_new(path, mode) {
        Ok(file) => StoredFile::try_lock_raw(file, limit).map_err(|_| FileFault::Failed),
        Err(_) => Err(FileFault::Failed),
    }
}

// Gives the path of a file to a draft, after the file has got the first of the older paths.
fn replace_file<F: RawFolder>(folder: &mut F, paths: &PlacePaths) -> io::Result<()>
    ensures renamed { OnOk result (F.acts → GivesName (string_bytes paths.now.path)
        (string_bytes paths.now.draft) (F.calls folder.old) (F.calls folder.new)) }
    ensures refused { OnErr result (F.acts
        → LeavesName (string_bytes paths.now.path) (F.calls folder.old) (F.calls folder.new)) }
{
    keep_older(folder, paths.path.as_str(), paths.older.as_slice())?;
    folder.rename(paths.draft.as_str(), paths.path.as_str())
}

// Reads the file of a place, or returns `Failed` if there is none.
fn read_file<R: RawFile>(
    alloc: Global,
    file: &mut Option<StoredFile<R>>,
) -> Result<Vec<u8>, FileFault>
    ensures bytes { IfOk result (λ bytes. R.model.acts → bytes.items ≡ seen_in R.model file.old) }
    ensures unchanged { seen_in R.model file.new ≡ seen_in R.model file.old }
{
    match file {
        Some(file) => file.read(alloc),
        None => Err(FileFault::Failed),
    }
}

// Appends bytes to the file of a place, or returns `Failed` if there is none.
fn append_to_file<R: RawFile>(
    file: &mut Option<StoredFile<R>>,
    bytes: &[u8],
) -> Result<(), FileFault>
    ensures { OnOk result (R.model.acts
        → seen_in R.model file.new ≡ seen_in R.model file.old ++ bytes.now) }
{
    match file {
        Some(file) => file.append(bytes),
        None => Err(FileFault::Failed),
    }
}

// Cuts the file of a place to a length, or returns `Failed` if there is none.
fn cut_file<R: RawFile>(file: &mut Option<StoredFile<R>>, len: usize) -> Result<(), FileFault>
    ensures cut { OnOk result (R.model.acts → len ≤ length (seen_in R.model file.old)
        → seen_in R.model file.new ≡ take len (seen_in R.model file.old)) }
    ensures not_too_long { ¬ IsErrOf result FileFault.TooLong }
{
    match file {
        Some(file) => file.cut_to(len),
        None => Err(FileFault::Failed),
    }
}

// Syncs the file of a place, and its folder if a rename is not on the disk.
fn sync_both<F: RawFolder>(
    file: &mut Option<StoredFile<F::File>>,
    folder: &mut F,
    is_renamed: bool,
) -> Result<(), FileFault>
    ensures unchanged { OnOk result
        (seen_in F.File.model file.new ≡ seen_in F.File.model file.old) }
    ensures file { OnOk result (IfSome file.new
        (λ f. HasOneOutcome (raw_bytes F.File.model f.raw) (LeftOfRaw F.File.model f.raw))) }
    ensures folder { OnOk result (F.acts → is_renamed ≡ true
        → F.calls folder.new ≡ F.calls folder.old ++ SyncFolder ∷ []) }
    ensures not_too_long { ¬ IsErrOf result FileFault.TooLong }
{
    match file {
        Some(file) => file.sync()?,
        None => return Err(FileFault::Failed),
    }
    if is_renamed {
        return folder.sync().map_err(|_| FileFault::Failed);
    }
    Ok(())
}

impl<F: RawFolder> DurableFile for StoredPlace<F> {
    // (what is `stored` is so of any file that has had the name)
    ghost model = { record {
      acts = ⊥;
      identity = λ _. 0;
      seen = λ place. seen_in F.File.model place.file;
      may_leave = λ _ _. ⊥;
      moment = λ _. 0;
      left_since = λ _ _ _. ⊥;
      stored = λ _ bytes. (file : ℕ) × F.File.model.stored file bytes;
      renews = λ _ _. ⊥;
      has_failed = HasFailed;
      overflows = λ _ _. ⊤;
      also = λ call old new.
          (F.File.model.acts → ChangesFile F.File.model call old.file new.file)
          × (F.acts → SyncsFolder call old.is_renamed new.is_renamed (F.calls old.folder)
          (F.calls new.folder));
      counts_now = λ place t c le now. now;
      only_now = λ place c left. left;
    } };

    #[tactic(auto, using(crate::proofs::Moments::elapses_still))]
    fn read(&mut self, alloc: Global) -> Result<Vec<u8>, FileFault> {
        if self.has_failed {
            return Err(FileFault::Failed);
        }
        let call = read_file(alloc, &mut self.file);
        record_failure(&mut self.has_failed, call)
    }

    #[tactic(auto, using(crate::proofs::Moments::elapses_still))]
    fn append(&mut self, bytes: &[u8]) -> Result<(), FileFault> {
        if self.has_failed {
            return Err(FileFault::Failed);
        }
        let call = append_to_file(&mut self.file, bytes);
        record_failure(&mut self.has_failed, call)
    }

    #[tactic(auto, using(crate::proofs::Moments::elapses_still))]
    fn cut(&mut self, len: usize) -> Result<(), FileFault> {
        if self.has_failed {
            return Err(FileFault::Failed);
        }
        let call = cut_file(&mut self.file, len);
        record_failure(&mut self.has_failed, call)
    }

    #[tactic(auto, using(crate::proofs::Moments::elapses_still))]
    fn sync(&mut self) -> Result<(), FileFault> {
        if self.has_failed {
            return Err(FileFault::Failed);
        }
        let call = sync_both(&mut self.file, &mut self.folder, self.is_renamed);
        self.is_renamed = self.is_renamed && call.is_err();
        record_failure(&mut self.has_failed, call)
    }
}

impl<F: RawFolder> Place for StoredPlace<F> {
    type Draft = StoredFile<F::File>;

    ghost named = { λ _ _. ⊥ };

    ghost also_calls = { λ call old new. F.acts → CallsFolder call (string_bytes old.paths.path)
        (string_bytes old.paths.draft) new.is_renamed (F.calls old.folder)
        (F.calls new.folder) };

    ghost drafts_act = { λ acts. absurd acts };

    #[tactic(auto, using(crate::proofs::Moments::elapses_still))]
    fn create_draft(&mut self) -> Result<StoredFile<F::File>, FileFault> {
        if self.has_failed {
            return Err(FileFault::Failed);
        }
        let path = self.paths.draft.as_str();
        let call = open_draft(&mut self.folder, path, self.paths.mode, self.limit);
        record_failure(&mut self.has_failed, call)
    }

    #[tactic(auto, using(crate::proofs::Moments::elapses_still))]
    fn rename(&mut self, draft: StoredFile<F::File>) -> Result<(), FileFault> {
        if self.has_failed {
            return Err(FileFault::Failed);
        }
        let call = replace_file(&mut self.folder, &self.paths);
        self.file = Some(draft);
        self.is_renamed = true;
        record_failure(&mut self.has_failed, call.map_err(|_| FileFault::Failed))
    }

    #[tactic(auto, using(crate::proofs::Moments::elapses_still))]
    fn sync_folder(&mut self) -> Result<(), FileFault> {
        if self.has_failed {
            return Err(FileFault::Failed);
        }
        let call = self.folder.sync();
        self.is_renamed = self.is_renamed && call.is_err();
        record_failure(&mut self.has_failed, call.map_err(|_| FileFault::Failed))
    }
}
