//! Lines in a file after a crash: each torn state of an append, crashes during a recovery, and a
//! sync that fails; and a file of the operating system.
use durable_lines::{
    ByteFate, DurableFile, FileFault, LockFault, MemoryFile, OsStoredFile, StoredFile,
    append_lines, damaged_at, is_text, recover,
};
use std::alloc::{AllocError, Global};
use std::fs::File;
use std::test::Fail;
use std::{fs, io};

// Returns whether a recovery finds this text in a file and cuts this number of bytes after it.
fn has_text<F: DurableFile>(alloc: Global, file: &mut F, text: &[u8], cut: usize) -> bool {
    match recover(alloc, file) {
        Ok(found) => {
            let is_so = found.text.as_slice() == text && found.cut == cut;
            drop(found);
            is_so
        }
        Err(_) => false,
    }
}

// Recovers a file, and appends a text to it.
fn append<F: DurableFile>(alloc: Global, file: &mut F, text: &[u8]) -> Result<(), FileFault> {
    if !is_text(text) {
        return Err(FileFault::TooLong);
    }
    recover(alloc, file)?;
    append_lines(file, text)
}

// Returns whether a file with these bytes has this text, is cut to it, and stays so.
fn is_recovered_as(alloc: Global, bytes: Vec<u8>, text: &[u8]) -> bool {
    let cut = bytes.len().wrapping_sub(text.len());
    let mut file = MemoryFile::new(alloc, bytes);
    let is_so = has_text(alloc, &mut file, text, cut) && has_text(alloc, &mut file, text, 0);
    drop(file);
    is_so
}

// The bytes of files, each with the text of its whole lines.
static TORN: [(&[u8], &[u8]); 9] = [
    (b"", b""),
    (b"a\nb\n", b"a\nb\n"),
    (b"a\n\nb\n", b"a\n\nb\n"),
    (b"a\nb", b"a\n"),
    (b"a", b""),
    (b"a\n\0\nb\n", b"a\n"),
    (b"a\nb\0c\nd\n", b"a\n"),
    (b"\0a\n", b""),
    (b"\n\0", b"\n"),
];

// The bytes of files in which whole lines follow a damaged one, each with the length of the lines
// before it.
static DAMAGED: [(&[u8], usize); 4] = [
    (b"a\n\0\nb\n", 2),
    (b"a\nb\0c\nd\n", 2),
    (b"\0a\nb\n", 0),
    (b"a\nb\nc\0\0\nd\ne\nf", 4),
];

// The bytes of files that one interrupted line may leave.
static UNDAMAGED: [&[u8]; 7] = [
    b"",
    b"a\nb\n",
    b"a\nb",
    b"a\nb\0c\n",
    b"a\nb\0\0",
    b"\0a\n",
    b"\n\0",
];

#[test]
fn damage_is_what_whole_lines_follow(rt: HostRuntime) -> Result<(), Fail> {
    for (bytes, len) in &DAMAGED {
        assert!(rt; damaged_at(bytes) == Some(*len), "{bytes:?}");
    }
    for bytes in &UNDAMAGED {
        assert!(rt; damaged_at(bytes).is_none(), "{bytes:?}");
    }
    Ok(())
}

#[test]
fn a_file_is_cut_after_its_whole_lines(rt: HostRuntime) -> Result<(), Fail> {
    let alloc = rt.alloc();
    for (bytes, text) in &TORN {
        assert!(rt;
            is_recovered_as(alloc, bytes.to_vec(alloc)?, text),
            "{bytes:?}"
        );
    }
    Ok(())
}

// Texts, each with whether it is one of whole lines without a byte 0.
static TEXTS: [(&[u8], bool); 7] = [
    (b"", true),
    (b"\n", true),
    (b"a\nb\n", true),
    (b"a", false),
    (b"a\nb", false),
    (b"a\0\n", false),
    (b"\0", false),
];

#[test]
fn whole_lines_without_a_byte_0_are_a_text(rt: HostRuntime) {
    for (text, expected) in &TEXTS {
        assert!(rt; is_text(text) == *expected, "{text:?}");
    }
}

// Returns the fate of a byte in a crash: kept for 0, zeroed for 1, otherwise missing.
fn fate_of(number: u32) -> ByteFate {
    match number {
        0 => ByteFate::Kept,
        1 => ByteFate::Zeroed,
        _ => ByteFate::Missing,
    }
}

// Returns one of the 81 fates of four bytes.
fn fates_of(number: u32) -> [ByteFate; 4] {
    [
        fate_of(number % 3),
        fate_of(number / 3 % 3),
        fate_of(number / 9 % 3),
        fate_of(number / 27 % 3),
    ]
}

// The line of a file, and it with the first of two lines that are appended to it, and with both.
static FRONTS: [&[u8]; 3] = [b"a\n", b"a\nb\n", b"a\nb\nc\n"];

// The number of fates of the four appended bytes after which a crash leaves each of `FRONTS`: after
// the append, before its sync, and at each moment before it. Before the sync the first line is
// whole if its two bytes are kept, 9 fates of 81; the second is, too, in 1 of these.
static COUNTS: [[u32; 3]; 3] = [[0, 0, 81], [72, 8, 1], [81, 0, 0]];

// Returns the number of fates of four bytes after which a crash this number of moments ago leaves
// this text.
fn count_of(alloc: Global, file: &MemoryFile, ago: usize, text: &[u8]) -> u32 {
    let moment = file.moment().saturating_sub(ago);
    let mut count = 0u32;
    for number in 0..81 {
        if let Ok(bytes) = file.after_crash(moment, &fates_of(number)) {
            if is_recovered_as(alloc, bytes, text) {
                count = count.saturating_add(1);
            }
        }
    }
    count
}

// Returns whether crashes leave what `COUNTS` has, and 4 bytes are not synced before the sync.
fn leaves_fronts(alloc: Global, file: &MemoryFile) -> bool {
    for ago in 0..=file.moment() {
        let Some(counts) = COUNTS.get(ago.min(2)) else {
            return false;
        };
        for (front, count) in FRONTS.iter().zip(counts) {
            if count_of(alloc, file, ago, front) != *count {
                return false;
            }
        }
    }
    file.unsynced_len(file.moment().saturating_sub(1)) == 4
}

#[test]
fn each_torn_state_of_an_append_has_a_front_of_the_lines(rt: HostRuntime) -> Result<(), Fail> {
    let alloc = rt.alloc();
    let mut file = MemoryFile::new(alloc, b"a\n".as_slice().to_vec(alloc)?);
    let appended = append(alloc, &mut file, b"b\nc\n");
    let is_so = leaves_fronts(alloc, &file);
    drop(file);
    assert!(rt; appended == Ok(()) && is_so);
    Ok(())
}

// Returns whether a crash at each moment leaves one line, whatever becomes of the cuts.
fn leaves_one_line(alloc: Global, file: &MemoryFile) -> Result<bool, AllocError> {
    for moment in 0..=file.moment() {
        for len in 0..8 {
            let bytes = file.after_undone_cut(moment, len)?;
            if !is_recovered_as(alloc, bytes, b"a\n") {
                return Ok(false);
            }
        }
    }
    Ok(true)
}

#[test]
fn a_crash_during_a_recovery_leaves_the_same_lines(rt: HostRuntime) -> Result<(), Fail> {
    let alloc = rt.alloc();
    let mut file = MemoryFile::new(alloc, b"a\nb\0\nc".as_slice().to_vec(alloc)?);
    let is_recovered = has_text(alloc, &mut file, b"a\n", 4);
    let is_left = leaves_one_line(alloc, &file);
    let bytes = file.bytes();
    drop(file);
    assert!(rt; is_recovered && is_left == Ok(true));
    assert!(rt; bytes?.as_slice() == b"a\n".as_slice());
    Ok(())
}

// The number of syncs that return `Ok`, a text, and the fault of its append after a recovery, which
// syncs before it reads and after it cuts. An empty text is not synced.
static SYNCS: [(u64, &[u8], Option<FileFault>); 3] = [
    (2, b"", None),
    (2, b"b\n", Some(FileFault::Failed)),
    (3, b"b\n", None),
];

#[test]
fn a_file_whose_sync_failed_fails_for_good(rt: HostRuntime) -> Result<(), Fail> {
    let alloc = rt.alloc();
    for (syncs, text, fault) in &SYNCS {
        let mut file = MemoryFile::failing_after(alloc, Vec::new(alloc), *syncs);
        let append = append(alloc, &mut file, text).err();
        let read = file.read(alloc).err();
        drop(file);
        assert!(rt; append == *fault && read == *fault, "{syncs} {text:?}");
    }
    Ok(())
}

// Returns whether a file of the operating system with the bytes `a\nb\0` and a limit of 8 bytes is
// recovered and appended to, and a text that would exceed the limit is refused.
fn keeps_its_limit(alloc: Global, file: &mut OsStoredFile) -> bool {
    has_text(alloc, file, b"a\n", 2)
        && append(alloc, file, b"bc\n") == Ok(())
        && append(alloc, file, b"def\n") == Err(FileFault::TooLong)
        && append(alloc, file, b"de\n") == Ok(())
}

// Opens a file of the operating system for reading and writing.
fn open_file(rt: &HostRuntime, path: &str) -> io::Result<File> {
    File::options().read(true).write(true).open(rt, path)
}

#[test]
fn a_stored_file_keeps_its_lines_up_to_its_limit(rt: HostRuntime) -> Result<(), Fail> {
    let path = "torn_lines_kept";
    fs::write(&rt, path, b"a\nb\0".as_slice())?;
    let second = open_file(&rt, path)?;
    let mut file = StoredFile::try_lock(open_file(&rt, path)?, 8)?;
    let locked = StoredFile::try_lock(second, 8).err();
    let is_kept = keeps_its_limit(rt.alloc(), &mut file);
    let bytes = fs::read(&rt, path);
    let written = fs::write(&rt, path, b"a\nbc\nde\nf".as_slice());
    let long = file.read(rt.alloc()).err();
    drop(file);
    let removed = fs::remove_file(&rt, path);
    assert!(rt; is_kept && bytes?.as_slice() == b"a\nbc\nde\n".as_slice());
    assert!(rt; locked == Some(LockFault::Held));
    assert!(rt; written.is_ok() && long == Some(FileFault::TooLong) && removed.is_ok());
    Ok(())
}
