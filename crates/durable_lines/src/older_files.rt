//! The files that a name had before: each replacement gives them further names.
ghost use Rattle.durable_lines.specs.RawFolder.{LeavesName};

use crate::raw_folder::RawFolder;
use std::io;
use std::io::ErrorKind;

// Returns whether a call failed, but not because a file is missing.
pub(crate) fn has_failed(call: &io::Result<()>) -> bool {
    match call {
        Err(error) => error.kind() != ErrorKind::NotFound,
        Ok(()) => false,
    }
}

// Renames the file of an older name, if there is one. No older name is that whose file is kept.
fn rename_older<F: RawFolder>(folder: &mut F, kept: &str, from: &str, to: &str) -> io::Result<()>
    ensures { F.acts → LeavesName kept.now (F.calls folder.old) (F.calls folder.new) }
{
    if from == kept || to == kept {
        return Err(io::Error::from(ErrorKind::InvalidInput));
    }
    let call = folder.rename(from, to);
    if has_failed(&call) {
        return call;
    }
    Ok(())
}

// Removes an older name, if it has a file.
fn remove_older<F: RawFolder>(folder: &mut F, kept: &str, name: &str) -> io::Result<()>
    ensures { F.acts → LeavesName kept.now (F.calls folder.old) (F.calls folder.new) }
{
    if name == kept {
        return Err(io::Error::from(ErrorKind::InvalidInput));
    }
    let call = folder.remove(name);
    if has_failed(&call) {
        return call;
    }
    Ok(())
}

// Gives the file of a name, if there is one, an older name too.
fn link_older<F: RawFolder>(folder: &mut F, kept: &str, name: &str) -> io::Result<()>
    ensures { F.acts → LeavesName kept.now (F.calls folder.old) (F.calls folder.new) }
{
    if name == kept {
        return Err(io::Error::from(ErrorKind::InvalidInput));
    }
    let call = folder.link(kept, name);
    if has_failed(&call) {
        return call;
    }
    Ok(())
}

// Renames the file of each name to the next name. The file of the last name is replaced.
fn shift<F: RawFolder>(folder: &mut F, kept: &str, names: &[String]) -> io::Result<()>
    ensures { F.acts → LeavesName kept.now (F.calls folder.old) (F.calls folder.new) }
{
    'names: for index in 1..names.len() {
        let next = names.len() - index;
        rename_older(folder, kept, names[next - 1].as_str(), names[next].as_str())?;
    }
    Ok(())
}

// Gives the file of a path the first of these names too, after the file of each name got the next
// one. The file of the last name is removed. With no names, does nothing. If the file has the first
// name already, because a crash ended the last replacement here, the names stay. The path has its
// file all the time.
pub(crate) fn keep_older<F: RawFolder>(
    folder: &mut F,
    path: &str,
    names: &[String],
) -> io::Result<()>
    ensures { F.acts → LeavesName path.now (F.calls folder.old) (F.calls folder.new) }
{
    let Some(first) = names.first() else {
        return Ok(());
    };
    if folder.have_one_file(path, first.as_str()) {
        return Ok(());
    }
    shift(folder, path, names)?;
    // (a rename does nothing if both names have one file, as a crash may leave them)
    remove_older(folder, path, first.as_str())?;
    link_older(folder, path, first.as_str())
}
