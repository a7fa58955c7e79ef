//! Journals that are renewed while their meter runs: what a crash at each moment leaves, resumed.
use crate::texts::BEGUN;
use cosem_axdr::Octets;
use disconnect_control::{ControlMode, ControlState};
use durable_lines::{
    ByteFate, FileFault, MemoryFile, MemoryPlace, append_and_renew, is_text, recover,
};
use journal_files::{RenewalTerms, RenewedFile, Resumed, resume_journal};
use std::alloc::Global;
use std::test::Fail;

// The lines of a run: a write of mode 1, a remote disconnection, a moment, a remote reconnection
// and a press.
static LINES: [&[u8]; 5] = [
    b"set 1 70 000060030AFF 4 0 1601\n",
    b"execute 1 70 000060030AFF 1 0F00\n",
    b"moment 5\n",
    b"execute 1 70 000060030AFF 2 0F00\n",
    b"button\n",
];

// The state of the supply, the mode and the last moment of a meter.
type Point = (ControlState, ControlMode, Option<u32>);

// The points of the run, before the lines and after each of them, by the standard's table of mode
// 1. All differ, so that a meter shows how many lines its journal has.
static POINTS: [Point; 6] = [
    (ControlState::Connected, ControlMode::Mode0, None),
    (ControlState::Connected, ControlMode::Mode1, None),
    (ControlState::Disconnected, ControlMode::Mode1, None),
    (ControlState::Disconnected, ControlMode::Mode1, Some(5)),
    (
        ControlState::ReadyForReconnection,
        ControlMode::Mode1,
        Some(5),
    ),
    (ControlState::Connected, ControlMode::Mode1, Some(5)),
];

// The fates of the bytes of a line: the first is zeroed, 7 are kept and one is zeroed, or all are
// kept. The rest is missing.
static FATES: [&[ByteFate]; 3] = [
    &[ByteFate::Zeroed],
    &[
        ByteFate::Kept,
        ByteFate::Kept,
        ByteFate::Kept,
        ByteFate::Kept,
        ByteFate::Kept,
        ByteFate::Kept,
        ByteFate::Kept,
        ByteFate::Zeroed,
    ],
    &[ByteFate::Kept; 64],
];

// Returns the point of a meter that is resumed from these bytes.
fn point_of(alloc: Global, device: &Octets, bytes: Vec<u8>) -> Option<Point> {
    let mut file = MemoryFile::new(alloc, bytes);
    let resumed = resume_journal(alloc, &mut file, device, 16);
    drop(file);
    match resumed {
        Ok(Resumed { recorder, cut: _ }) => {
            let core = recorder.core();
            let point = (core.state(), core.mode(), core.last_moment());
            drop(recorder);
            Some(point)
        }
        Err(_) => None,
    }
}

// Returns whether these bytes are a journal of a meter at one of the points after the first `least`
// lines or more.
fn is_front(alloc: Global, device: &Octets, bytes: Vec<u8>, least: usize) -> bool {
    match point_of(alloc, device, bytes) {
        Some(point) => POINTS.iter().skip(least).any(|other| *other == point),
        None => false,
    }
}

// Returns whether a crash at each moment of a place from this one on leaves a journal of a meter at
// one of the points after the first `least` lines or more.
fn leaves_a_front(
    alloc: Global,
    device: &Octets,
    place: &MemoryPlace,
    from: usize,
    least: usize,
) -> Result<bool, FileFault> {
    for moment in from..=place.moment() {
        for fates in &FATES {
            for is_renamed in [false, true] {
                let left = place.after_crash(moment, is_renamed, fates)?;
                if !is_front(alloc, device, left, least) {
                    return Ok(false);
                }
            }
        }
    }
    Ok(true)
}

// Appends a line to the journal of a running meter, and renews it if it has grown.
fn append_line(
    alloc: Global,
    file: &mut RenewedFile<MemoryPlace>,
    line: &[u8],
) -> Result<(), FileFault> {
    if !is_text(line) {
        return Err(FileFault::TooLong);
    }
    recover(alloc, file)?;
    append_and_renew(file, line)
}

// Returns whether a crash at each moment of a run leaves a front of it, with each line that was
// appended before, and one after the run all of it.
fn survives(
    alloc: Global,
    device: &Octets,
    file: &mut RenewedFile<MemoryPlace>,
) -> Result<bool, FileFault> {
    let mut from = 0;
    for (index, line) in LINES.iter().enumerate() {
        append_line(alloc, file, line)?;
        if !leaves_a_front(alloc, device, file.place(), from, index)? {
            return Ok(false);
        }
        from = file.place().moment();
    }
    leaves_a_front(alloc, device, file.place(), from, LINES.len())
}

// The limits and depths of journals, each with whether it is renewed in the run.
static RUNS: [(usize, usize, bool); 4] = [
    (16, 2, true),
    (0, 0, true),
    (64, 1024, false),
    (4_096, 2, false),
];

#[test]
fn a_crash_at_each_moment_of_a_run_with_renewals_leaves_a_front_of_it(
    rt: HostRuntime,
) -> Result<(), Fail> {
    let alloc = rt.alloc();
    let device = Octets::from_slice(alloc, b"METER7")?;
    for (limit, depth, is_renewed) in &RUNS {
        let terms = RenewalTerms {
            limit: *limit,
            depth: *depth,
        };
        let place = MemoryPlace::new(alloc, BEGUN.to_vec(alloc)?);
        let mut file = RenewedFile::new(alloc, place, terms);
        let survived = survives(alloc, &device, &mut file);
        let bytes = file.place().bytes();
        drop(file);
        assert!(rt; survived == Ok(true), "{limit}");
        assert!(rt;
            bytes?.as_slice().starts_with(BEGUN) != *is_renewed,
            "{limit}"
        );
    }
    Ok(())
}
