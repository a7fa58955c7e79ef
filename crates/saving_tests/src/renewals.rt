//! Journals that are renewed: the new file, and what a crash leaves. tests/journal.py plays files
//! of the operating system that are renewed once they have grown.
use crate::texts::{BEGUN, DISCONNECTED, join_texts};
use durable_lines::MemoryPlace;
use journal_files::{StartFault, renew_journal};
use std::alloc::Global;
use std::test::Fail;

// Returns whether a crash at each moment of a place leaves one of these two texts, and one at its
// present moment the second.
fn leaves_either(place: &MemoryPlace, old: &[u8], new: &[u8]) -> Result<bool, StartFault> {
    for moment in 0..=place.moment() {
        for is_renamed in [false, true] {
            let left = place.after_crash(moment, is_renamed, &[])?;
            let is_old = left.as_slice() == old && moment < place.moment();
            if !is_old && left.as_slice() != new {
                return Ok(false);
            }
        }
    }
    Ok(true)
}

// Returns whether a crash at each moment of the renewal of this text leaves it or the new text, and
// one after the renewal the new text.
fn is_renewed_as(alloc: Global, old: &[u8], depth: usize, new: &[u8]) -> Result<bool, StartFault> {
    let mut place = MemoryPlace::new(alloc, old.to_vec(alloc)?);
    let renewed = renew_journal(alloc, &mut place, depth);
    let is_left = leaves_either(&place, old, new);
    drop(place);
    renewed.and(is_left)
}

// The lines of a journal that begins as `BEGUN`, a depth, and the renewed journal: whether it
// begins as `DISCONNECTED` or as `BEGUN`, and its lines. The first two lines are a write of mode 1
// and a remote disconnection.
static RENEWALS: [(&[u8], usize, bool, &[u8]); 4] = [
    (
        b"set 1 70 000060030AFF 4 0 1601\nexecute 1 70 000060030AFF 1 0F00\nmoment 5\nbut",
        1,
        true,
        b"moment 5\n",
    ),
    (
        b"set 1 70 000060030AFF 4 0 1601\nexecute 1 70 000060030AFF 1 0F00\nmoment 5\nbut",
        3,
        false,
        b"set 1 70 000060030AFF 4 0 1601\nexecute 1 70 000060030AFF 1 0F00\nmoment 5\n",
    ),
    (
        b"set 1 70 000060030AFF 4 0 1601\nexecute 1 70 000060030AFF 1 0F00\nmoment 5\nbut",
        1024,
        false,
        b"set 1 70 000060030AFF 4 0 1601\nexecute 1 70 000060030AFF 1 0F00\nmoment 5\n",
    ),
    (
        b"set 1 70 000060030AFF 4 0 1601\nexecute 1 70 000060030AFF 1 0F00\n",
        0,
        true,
        b"",
    ),
];

#[test]
fn a_renewed_journal_has_the_last_events(rt: HostRuntime) -> Result<(), Fail> {
    let alloc = rt.alloc();
    for (lines, depth, is_disconnected, last) in &RENEWALS {
        let old = join_texts(alloc, BEGUN, lines)?;
        let begun = if *is_disconnected {
            DISCONNECTED
        } else {
            BEGUN
        };
        let new = join_texts(alloc, begun, last)?;
        assert!(rt;
            is_renewed_as(alloc, &old, *depth, &new) == Ok(true),
            "{depth}"
        );
    }
    Ok(())
}

#[test]
fn a_text_that_is_no_journal_is_not_renewed(rt: HostRuntime) -> Result<(), Fail> {
    let wrong = join_texts(rt.alloc(), BEGUN, b"press\n")?;
    let refused = is_renewed_as(rt.alloc(), &wrong, 1, b"");
    assert!(rt; refused == Err(StartFault::Line(32)));
    Ok(())
}
