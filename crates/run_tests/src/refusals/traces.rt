//! A player that runs out of memory has written nothing.
use super::RefusedAndStood;
use super::page::Page;
use counted_io::Counted;
use std::alloc::Global;
use std::test::Fail;
use trace_player::{PlayFault, play};

/// A trace of version 1: a switch that is disconnected and reconnected remotely, with a press of
/// the button in between, a read, samples and moments.
const TRACE: &[u8] = b"RELAYTRACE 1
device 52454C415931
state 1
mode 0
value 0
now -
normal 4294967295
emergency 4294967295
minover 0
minunder 0
profile 0 FFFFFFFFFFFFFFFFFF8000FF 0
groups
actions 0 0
over 0 0
under 0 0
scripts 0100
schedule 0 0 5 0100
schedule 1 0 5 0100
schedule 2 0 5 0100
schedule 3 0 5 0100
events 9
set 1 70 000060030AFF 4 0 1601
execute 1 70 000060030AFF 1 0F00
button
execute 1 70 000060030AFF 2 -
button
get 16 70 000060030AFF 2 0
samples 10 20
moment 5
moment 4
";

/// The output of the player for `TRACE`.
const OUTPUT: &[u8] = b"1: code 0; state 1; supply on
2: code 0; state 0; supply off
3: code 2; state 0; supply off
4: code 0; state 2; supply off
5: code 0; state 1; supply on
6: value 0301; state 1; supply on
7: sampled 0 1; state 1; supply on
8: ran 0; state 1; supply on
9: stale 5; state 1; supply on
";

/// Plays the trace, and writes to a page.
fn play_page(alloc: Global, page: &mut Page) -> Result<u64, PlayFault> {
    let mut reader = Counted::new(TRACE);
    let mut writer = Counted::new(page);
    play(alloc, &mut reader, &mut writer)
}

#[test]
fn play_prints_nine_lines(rt: HostRuntime) -> Result<(), Fail> {
    let alloc = rt.alloc();
    let mut page = Page::new();
    let first = play_page(alloc, &mut page);
    if first == Err(PlayFault::Memory) {
        assert!(rt; page.text().is_empty());
        assert!(rt; play_page(alloc, &mut page) == Ok(9) && page.text() == OUTPUT);
        Err(RefusedAndStood)?
    }
    assert!(rt; first == Ok(9) && page.text() == OUTPUT);
    Ok(())
}
