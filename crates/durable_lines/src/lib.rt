//! Lines in a file that survive a crash.
//!
//! [`append_lines`] appends whole lines to a [`DurableFile`] and returns once they are on the disk.
//! [`recover`] reads the lines that a crash has left and cuts what follows them. [`replace`]
//! replaces the file of a [`Place`] as a whole. [`append_and_renew`] appends lines to a file that
//! is replaced while it grows.
#![tactic(auto)]

mod append;
mod byte_fate;
mod durable_file;
mod fault;
mod file_state;
mod laws;
mod lock_file;
mod memory_file;
mod memory_place;
mod older_files;
mod os_file;
mod os_folder;
mod own_file;
mod place;
mod raw_calls;
mod raw_file;
mod raw_folder;
mod recovery;
mod replacement;
mod scan;
mod stored_file;
mod stored_place;

pub use append::{append_and_renew, append_lines};
pub use byte_fate::ByteFate;
pub use durable_file::DurableFile;
pub use fault::{FileFault, LockFault, record_failure};
pub use laws::{
    examples_of_lines, files_hold_their_lines, text_of_lines_is_read, texts_are_appended,
};
pub use lock_file::LockFile;
pub use memory_file::MemoryFile;
pub use memory_place::MemoryPlace;
pub use os_file::OsFile;
pub use os_folder::OsFolder;
pub use own_file::{
    FileAccess, GROUP_READABLE, OWNER_ONLY, create_anew, is_same_file, open_or_create, open_own,
};
pub use place::Place;
pub use raw_file::RawFile;
pub use raw_folder::RawFolder;
pub use recovery::{Recovered, recover};
pub use replacement::replace;
pub use scan::{damaged_at, is_text, whole_len};
pub use stored_file::{OsStoredFile, StoredFile};
pub use stored_place::{OsStoredPlace, PlacePaths, StoredPlace};
