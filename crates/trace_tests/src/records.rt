//! Records of events, and civil dates of moments.
use disconnect_control::ControlState;
use relay_core::{Event, Line, Reply};
use std::alloc::{AllocError, Global};
use trace_records::{Record, write_csv, write_csv_head, write_json};

// Event 8 of the worked trace of docs/TRACE.md, with another moment.
const RECORD: &[u8] = b"number,reply,state,supply,moment,time,event
8,ran 0,1,on,830961000,2026-05-01T14:30:00,moment 830961000
{\"event\":\"moment 830961000\",\"moment\":830961000,\"number\":8,\"reply\":\"ran 0\",\"state\":1,\
\"supply\":\"on\",\"time\":\"2026-05-01T14:30:00\"}
";

// Returns the names of the columns and the record of event 8 in both formats.
fn record_text(alloc: Global) -> Result<Vec<u8>, AllocError> {
    let moment = 830_961_000;
    let line = Line {
        reply: Reply::Ran(0),
        state: ControlState::Connected,
        output: true,
    };
    let record = Record::new(alloc, true, 8, &Event::Moment(moment), &line, Some(moment))?;
    let mut out = Vec::new(alloc);
    write_csv_head(alloc, &mut out, true)?;
    write_csv(alloc, &mut out, &record)?;
    write_json(alloc, &mut out, &record)?;
    Ok(out)
}

#[test]
fn a_record_is_written(rt: HostRuntime) {
    assert!(rt; record_text(rt.alloc()).is_ok_and(|text| text.as_slice() == RECORD));
}
