//! Files that are replaced as a whole: crashes at each moment of a replacement in memory.
use durable_lines::{ByteFate, MemoryPlace, recover, replace};
use std::test::Fail;

// The file before a replacement, and after it.
static OLD: &[u8] = b"a\n";

static NEW: &[u8] = b"b\nc\n";

// Whether a crash at each moment leaves the new file: if the rename is not on the disk, and if it
// is. The moments are those before the rename, after it, and after the sync of the folder, without
// which the rename is not durable.
static LEFT: [(bool, bool); 3] = [(false, false), (false, true), (true, true)];

// Fates of the bytes of a draft. It is synced before the rename: none is lost.
static FATES: [[ByteFate; 4]; 3] = [
    [ByteFate::Kept; 4],
    [ByteFate::Zeroed; 4],
    [ByteFate::Missing; 4],
];

// Returns whether a crash at a moment leaves the new file, or otherwise the old one, whatever
// becomes of each byte.
fn leaves(place: &MemoryPlace, moment: usize, is_renamed: bool, is_new: bool) -> bool {
    let text = if is_new { NEW } else { OLD };
    if moment > place.moment() {
        return false;
    }
    for fates in &FATES {
        let left = place.after_crash(moment, is_renamed, fates);
        if !left.is_ok_and(|left| left.as_slice() == text) {
            return false;
        }
    }
    true
}

// Returns whether each crash leaves what `LEFT` has.
fn leaves_old_or_new(place: &MemoryPlace) -> bool {
    for (moment, (before, after)) in LEFT.iter().enumerate() {
        if !leaves(place, moment, false, *before) || !leaves(place, moment, true, *after) {
            return false;
        }
    }
    place.moment() == 2
}

#[test]
fn a_crash_during_a_replacement_leaves_the_old_file_or_the_new_one(
    rt: HostRuntime,
) -> Result<(), Fail> {
    let alloc = rt.alloc();
    let mut place = MemoryPlace::new(alloc, OLD.to_vec(alloc)?);
    let replaced = replace(&mut place, NEW);
    let is_left = leaves_old_or_new(&place);
    drop(place);
    assert!(rt; replaced == Ok(()) && is_left);
    Ok(())
}

// A process was killed after the rename, before it had synced the folder: the next start finds the
// new file under the name, and a crash may leave the old one until the start has synced both.
#[test]
fn a_start_puts_the_rename_before_it_on_the_disk(rt: HostRuntime) -> Result<(), Fail> {
    let alloc = rt.alloc();
    let mut place = MemoryPlace::after_rename(alloc, NEW.to_vec(alloc)?, OLD.to_vec(alloc)?);
    let is_open = leaves(&place, 0, false, false) && leaves(&place, 0, true, true);
    let found = recover(alloc, &mut place).map_err(|_| "not recovered")?;
    let last = place.moment();
    let is_settled = leaves(&place, last, false, true) && leaves(&place, last, true, true);
    drop(place);
    assert!(rt; is_open && is_settled && found.text.as_slice() == NEW && found.cut == 0);
    Ok(())
}
