//! Openings, and the lines that are written for them.
use std::alloc::{AllocError, Global};
use trace_lines::write_event_count;
use trace_openings::write_opening;
use trace_player::read_trace;

// The lines of a new meter with the name RELAY1.
pub(crate) static NEW: &[u8] = b"RELAYTRACE 2\n\
    device 52454C415931\n\
    state 1\n\
    mode 0\n\
    value 0\n\
    now -\n\
    normal 4294967295\n\
    emergency 4294967295\n\
    minover 0\n\
    minunder 0\n\
    profile 0 FFFFFFFFFFFFFFFFFF8000FF 0\n\
    groups\n\
    actions 0 0\n\
    over 0 0\n\
    under 0 0\n\
    xvalue 0\n\
    xnormal 4294967295\n\
    xemergency 4294967295\n\
    xminover 0\n\
    xminunder 0\n\
    xprofile 0 FFFFFFFFFFFFFFFFFF8000FF 0\n\
    xgroups\n\
    xactions 0 0\n\
    xover 0 0\n\
    xunder 0 0\n\
    scripts 0100\n\
    schedule 0 0 5 0100\n\
    schedule 1 0 5 0100\n\
    schedule 2 0 5 0100\n\
    schedule 3 0 5 0100\n";

// Other text, and the trace of a meter with settings of its own.
static BUSY: &[u8] = b"before\n\
    RELAYTRACE 2\n\
    device 52454C415931\n\
    state 2\n\
    mode 5\n\
    value 5001\n\
    now 50\n\
    normal 5000\n\
    emergency 6000\n\
    minover 10\n\
    minunder 20\n\
    profile 7 FFFFFFFFFFFFFFFFFF8000FF 30\n\
    groups 1 65535\n\
    actions 3 4\n\
    over 42949672950 1\n\
    under 0 0\n\
    xvalue 8000\n\
    xnormal 9000\n\
    xemergency 9500\n\
    xminover 40\n\
    xminunder 60\n\
    xprofile 8 FFFFFFFFFFFFFFFFFF8000FF 70\n\
    xgroups 2\n\
    xactions 5 6\n\
    xover 0 0\n\
    xunder 12 0\n\
    scripts 0100\n\
    schedule 0 9 1 0100\n\
    schedule 1 0 5 0100\n\
    schedule 2 0 5 0100\n\
    schedule 3 11 4 0100\n\
    events 0\n";

// Reads a trace without events, and appends its opening and its number of events.
fn add_read(alloc: Global, out: &mut Vec<u8>, text: &[u8]) -> Result<(), AllocError> {
    match read_trace(alloc, text) {
        Ok(trace) => {
            let written = write_opening(alloc, out, &trace.opening);
            drop(trace);
            written?;
            write_event_count(out, 0)
        }
        Err(_) => Err(AllocError),
    }
}

#[test]
fn an_opening_is_written_after_other_text(rt: HostRuntime) {
    let mut out = Vec::new(rt.alloc());
    let begun = out.extend_from_slice(b"before\n");
    let added = add_read(
        rt.alloc(),
        &mut out,
        BUSY.strip_prefix(b"before\n").unwrap_or(b""),
    );
    assert!(rt; begun.is_ok() && added.is_ok() && out.as_slice() == BUSY);
}

#[test]
fn the_greatest_count_is_written(rt: HostRuntime) {
    let mut out = Vec::new(rt.alloc());
    let written = write_event_count(&mut out, 65_536);
    assert!(rt; written.is_ok() && out.as_slice() == b"events 65536\n".as_slice());
}
