//! The worked trace of docs/TRACE.md as records.
use crate::plays::TRACE;
use counted_io::Counted;
use std::alloc::Global;
use trace_views::{TraceFormat, TraceView, play_view};

// The events of `TRACE` as comma-separated values. The clock has no moment before event 8, which
// sets it to 5; event 9 is a moment before that one, and changes nothing.
const CSV: &[u8] = b"number,reply,state,supply,moment,time
1,code 0,1,on,,
2,code 0,0,off,,
3,code 2,0,off,,
4,code 0,2,off,,
5,code 0,1,on,,
6,value 0301,1,on,,
7,sampled 0 1,1,on,,
8,ran 0,1,on,5,2000-01-01T00:00:05
9,stale 5,1,on,5,2000-01-01T00:00:05
";

// Events 7 and 8 of `TRACE` as JSON, with their lines in the trace.
const JSON: &[u8] = b"{\"event\":\"samples 10 20\",\"moment\":null,\"number\":7,\
\"reply\":\"sampled 0 1\",\"state\":1,\"supply\":\"on\",\"time\":null}
{\"event\":\"moment 5\",\"moment\":5,\"number\":8,\
\"reply\":\"ran 0\",\"state\":1,\"supply\":\"on\",\"time\":\"2000-01-01T00:00:05\"}
";

// Returns whether a view of the trace shows these lines.
fn shows(alloc: Global, view: &TraceView, lines: &[u8]) -> bool {
    let mut writer = Counted::new(Vec::new(alloc));
    let played = play_view(alloc, TRACE, view, &mut writer);
    played == Ok(()) && writer.into_inner().as_slice() == lines
}

#[test]
fn records_are_written(rt: HostRuntime) {
    let csv = TraceView {
        format: TraceFormat::Csv,
        ..TraceView::whole()
    };
    assert!(rt; shows(rt.alloc(), &csv, CSV));
    let json = TraceView {
        first: Some(7),
        last: Some(8),
        changes_only: false,
        with_events: true,
        format: TraceFormat::Json,
    };
    assert!(rt; shows(rt.alloc(), &json, JSON));
}
