//! Views of the worked trace of docs/TRACE.md. tests/command_lines.py plays ranges, changes,
//! formats and damaged traces over the proved executable.
use crate::plays::TRACE;
use counted_io::Counted;
use std::alloc::Global;
use trace_player::{TraceFault, read_trace};
use trace_views::{TraceFormat, TraceView, play_view, read_front, view_trace};

// The output of the player for `TRACE` of plays.rt, with the event at the end of each line.
static WITH_EVENTS: &[u8] = b"1: code 0; state 1; supply on; event set 1 70 000060030AFF 4 0 1601
2: code 0; state 0; supply off; event execute 1 70 000060030AFF 1 0F00
3: code 2; state 0; supply off; event button
4: code 0; state 2; supply off; event execute 1 70 000060030AFF 2 -
5: code 0; state 1; supply on; event button
6: value 0301; state 1; supply on; event get 16 70 000060030AFF 2 0
7: sampled 0 1; state 1; supply on; event samples 10 20
8: ran 0; state 1; supply on; event moment 5
9: stale 5; state 1; supply on; event moment 4
";

// Returns whether a view of a text shows these lines.
fn shows(alloc: Global, text: &[u8], view: &TraceView, lines: &[u8]) -> bool {
    let mut writer = Counted::new(Vec::new(alloc));
    let played = play_view(alloc, text, view, &mut writer);
    played == Ok(()) && writer.into_inner().as_slice() == lines
}

#[test]
fn a_view_is_written(rt: HostRuntime) {
    let view = TraceView {
        with_events: true,
        ..TraceView::whole()
    };
    assert!(rt; shows(rt.alloc(), TRACE, &view, WITH_EVENTS));
}

// The lines of `LATE_CHANGES`: the supply is made ready, and switched on.
static CHANGES: &[u8] = b"4: code 0; state 2; supply off
5: code 0; state 1; supply on
";

// A view of the changes among events 3 to 9.
static LATE_CHANGES: TraceView = TraceView {
    first: Some(3),
    last: Some(9),
    changes_only: true,
    with_events: false,
    format: TraceFormat::Lines,
};

#[test]
fn the_front_of_a_damaged_trace_is_read(rt: HostRuntime) {
    let front = read_front(rt.alloc(), &TRACE[..TRACE.len() - 1]);
    let is_so = match &front {
        Ok(front) => front.trace.events.len() == 8 && front.end == Err(TraceFault::Line(30)),
        Err(_) => false,
    };
    drop(front);
    assert!(rt; is_so);
}

#[test]
fn a_view_of_a_trace_is_its_text(rt: HostRuntime) {
    let alloc = rt.alloc();
    let trace = read_trace(alloc, TRACE);
    let shown = match &trace {
        Ok(trace) => view_trace(alloc, trace, &LATE_CHANGES),
        Err(_) => Ok(Vec::new(alloc)),
    };
    drop(trace);
    assert!(rt; shown.is_ok_and(|shown| shown.as_slice() == CHANGES));
}
