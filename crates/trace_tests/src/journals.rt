//! Journals: traces whose events are all whole lines. tests/command_lines.py and
//! tests/opening_rows.py play journals over the proved executable.
use crate::plays::TRACE;
use crate::writing::NEW;
use cosem_axdr::Octets;
use std::alloc::Global;
use trace_player::{read_trace, write_journal};

// The lines of the trace's events.
static EVENTS: &[u8] = b"events -\n\
    set 1 70 000060030AFF 4 0 1601\n\
    execute 1 70 000060030AFF 1 0F00\n\
    button\n\
    execute 1 70 000060030AFF 2 -\n\
    button\n\
    get 16 70 000060030AFF 2 0\n\
    samples 10 20\n\
    moment 5\n\
    moment 4\n";

// Returns the journal of a text's trace, or `None` if the text is no trace or memory runs out.
fn journal_of(alloc: Global, text: &[u8]) -> Option<Octets> {
    match read_trace(alloc, text) {
        Ok(trace) => {
            let journal = write_journal(alloc, &trace);
            drop(trace);
            journal.ok()
        }
        Err(_) => None,
    }
}

#[test]
fn a_journal_has_the_lines_of_its_trace(rt: HostRuntime) {
    let journal = journal_of(rt.alloc(), TRACE);
    assert!(rt; journal.is_some_and(|text| text.as_slice().strip_prefix(NEW) == Some(EVENTS)));
}
