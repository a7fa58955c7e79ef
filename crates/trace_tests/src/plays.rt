//! The worked trace of docs/TRACE.md, and a trace that is read and written again. Other runs, wrong
//! lines, failing streams and limits are played over the proved executable by
//! tests/command_lines.py, tests/opening_rows.py and tests/failing_streams.py.
use counted_io::Counted;
use std::alloc::Global;
use trace_player::{PlayFault, TraceFault, play, read_trace, write_trace};

// A switch that is cut and reconnected remotely, the button pressed between, a read, samples and
// moments.
pub(crate) static TRACE: &[u8] = b"RELAYTRACE 1
device 52454C415931
state 1
mode 0
value 0
now -
normal 4294967295
emergency 4294967295
minover 0
minunder 0
profile 0 FFFFFFFFFFFFFFFFFF8000FF 0
groups
actions 0 0
over 0 0
under 0 0
scripts 0100
schedule 0 0 5 0100
schedule 1 0 5 0100
schedule 2 0 5 0100
schedule 3 0 5 0100
events 9
set 1 70 000060030AFF 4 0 1601
execute 1 70 000060030AFF 1 0F00
button
execute 1 70 000060030AFF 2 -
button
get 16 70 000060030AFF 2 0
samples 10 20
moment 5
moment 4
";

// The output of the player for `TRACE`.
static OUTPUT: &[u8] = b"1: code 0; state 1; supply on
2: code 0; state 0; supply off
3: code 2; state 0; supply off
4: code 0; state 2; supply off
5: code 0; state 1; supply on
6: value 0301; state 1; supply on
7: sampled 0 1; state 1; supply on
8: ran 0; state 1; supply on
9: stale 5; state 1; supply on
";

// A meter in mode 5 whose export limiter executes script 1, which cuts the supply, at ten samples
// over 5,000 watts.
static PAIRS: &[u8] = b"RELAYTRACE 2
device 52454C415931
state 1
mode 5
value 0
now -
normal 4294967295
emergency 4294967295
minover 0
minunder 0
profile 0 FFFFFFFFFFFFFFFFFF8000FF 0
groups
actions 0 0
over 0 0
under 0 0
xvalue 0
xnormal 5000
xemergency 4294967295
xminover 1
xminunder 0
xprofile 0 FFFFFFFFFFFFFFFFFF8000FF 0
xgroups
xactions 1 0
xover 0 0
xunder 0 0
scripts 010102021200010101020516021200460906000060030AFF0F010F00
schedule 0 0 5 0100
schedule 1 0 5 0100
schedule 2 0 5 0100
schedule 3 0 5 0100
events 3
pairs 0 5001 0 5001 0 5001 0 5001 0 5001 0 5001 0 5001 0 5001 0 5001 0 5001
button
pairs 0 5001
";

#[test]
fn a_trace_is_played(rt: HostRuntime) {
    let mut reader = Counted::new(TRACE);
    let mut writer = Counted::new(Vec::new(rt.alloc()));
    let events = play(rt.alloc(), &mut reader, &mut writer);
    assert!(rt; events == Ok(9) && writer.into_inner().as_slice() == OUTPUT);
}

// Returns whether a text that is read and written again is the same.
fn is_the_same_again(alloc: Global, text: &[u8]) -> bool {
    match read_trace(alloc, text) {
        Ok(trace) => {
            let again = write_trace(alloc, &trace);
            drop(trace);
            again.is_ok_and(|again| again.as_slice() == text)
        }
        Err(_) => false,
    }
}

#[test]
fn a_trace_is_written_again(rt: HostRuntime) {
    assert!(rt; is_the_same_again(rt.alloc(), PAIRS));
}

// Returns whether a text that is read and written again begins so, and plays to this output.
fn plays_again(alloc: Global, text: &[u8], first: &[u8], output: &[u8]) -> bool {
    let Ok(trace) = read_trace(alloc, text) else {
        return false;
    };
    let again = write_trace(alloc, &trace);
    drop(trace);
    let Ok(again) = again else {
        return false;
    };
    let mut reader = Counted::new(again.as_slice());
    let mut writer = Counted::new(Vec::new(alloc));
    let events = play(alloc, &mut reader, &mut writer);
    let is_so = events.is_ok() && writer.into_inner().as_slice() == output;
    is_so && again.as_slice().starts_with(first)
}

#[test]
fn a_trace_of_version_1_is_written_as_version_2(rt: HostRuntime) {
    assert!(rt; plays_again(rt.alloc(), TRACE, b"RELAYTRACE 2\n", OUTPUT));
}

#[test]
fn faults_have_numbers(rt: HostRuntime) {
    let of_plays = [
        u8::from(PlayFault::Line(7)),
        u8::from(PlayFault::TooLong),
        u8::from(PlayFault::Read),
        u8::from(PlayFault::Write),
        u8::from(PlayFault::Memory),
    ];
    let of_traces = [
        u8::from(TraceFault::Line(7)),
        u8::from(TraceFault::TooLong),
        u8::from(TraceFault::Memory),
    ];
    assert!(rt; of_plays == [1, 2, 3, 4, 5] && of_traces == [1, 2, 3]);
}
