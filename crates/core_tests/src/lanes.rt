//! Masks of power samples against a threshold, their runs, and the scan that a block keeps.
//! tests/unproved/long_tests has blocks of each length, and of pairs.
use lane_sampler::{Block, Masks, Scan, Scans, classify, run_from};
use std::process::Abort;
use std::test::Fail;

// Returns 0, 40, 80 and so on: value 125 is 5000.
fn by_forties() -> [u32; 256] {
    let mut values = [0; 256];
    for i in 0..256 {
        values[i] = i as u32 * 40;
    }
    values
}

// Returns the masks of `len` values, up to 64.
fn few(over: u64, under: u64, len: u16) -> Masks {
    Masks {
        over: [over, 0, 0, 0],
        under: [under, 0, 0, 0],
        len,
    }
}

#[test]
fn an_equal_value_is_on_neither_side(rt: HostRuntime) {
    assert!(rt;
        classify(&[4999, 5000, 5001], 5000) == few(4, 1, 3) && classify(&[], 5000) == few(0, 0, 0)
    );
}

// A mask, a place in it, and the number of consecutive ones in its 256 bits from there on.
static RUNS: [([u64; 4], u16, u16); 8] = [
    ([u64::MAX; 4], 0, 256),
    ([u64::MAX; 4], 64, 192),
    ([u64::MAX; 4], 255, 1),
    ([u64::MAX; 4], 256, 0),
    ([u64::MAX; 4], 257, 0),
    ([0; 4], 0, 0),
    ([0xF0, 0, 0, 0], 5, 3),
    ([1 << 63, 3, 0, 0], 63, 3),
];

#[test]
fn a_run_goes_on_over_the_words_to_the_last_value(rt: HostRuntime) {
    let masks = classify(&[5001; 256], 5000);
    assert!(rt;
        masks.over == [u64::MAX; 4]
            && masks.under == [0; 4]
            && masks.len == 256
            && run_from(&masks.over, 100, 40) == 60
    );
    for (mask, at, run) in &RUNS {
        assert!(rt; run_from(mask, 256, *at) == *run, "{mask:?} from {at}");
    }
}

// Returns the scan of a block of import values alone.
fn scan_of(values: &[u32; 256], threshold: u32) -> Scans {
    Scans {
        import: Scan {
            threshold,
            masks: classify(values, threshold),
        },
        export: None,
    }
}

// Returns whether a block has this scan.
fn is_scanned(block: &Block, expected: &Scans) -> bool {
    match block.scanned() {
        Some(scans) => *scans == *expected,
        None => false,
    }
}

// Checks that a block of import values alone keeps the scan that was made of it last.
fn check_scans(rt: &impl Abort, block: &mut Block, values: &[u32; 256]) {
    assert!(*rt; block.values() == values.as_slice());
    assert!(*rt; block.export().is_none() && block.scanned().is_none());
    for (threshold, ignored) in [(5000, 1), (4000, 0), (5000, u32::MAX)] {
        block.scan(threshold, ignored);
        assert!(*rt;
            is_scanned(block, &scan_of(values, threshold)),
            "at {threshold}"
        );
    }
}

#[test]
fn the_last_scan_is_kept(rt: HostRuntime) -> Result<(), Fail> {
    let values = by_forties();
    let mut block = Block::from_slice(rt.alloc(), &values)?;
    check_scans(&rt, &mut block, &values);
    drop(block);
    Ok(())
}
