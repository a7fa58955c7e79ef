//! The lines of a trace.

/// Lines of one port, in order.
pub(crate) type Lines = &'static [&'static str];

/// The lines before the number of events, of a new meter RELAY1 (docs/TRACE.md).
static OPENING: Lines = &[
    "RELAYTRACE 2",
    "device 52454C415931",
    "state 1",
    "mode 0",
    "value 0",
    "now -",
    "normal 4294967295",
    "emergency 4294967295",
    "minover 0",
    "minunder 0",
    "profile 0 FFFFFFFFFFFFFFFFFF8000FF 0",
    "groups",
    "actions 0 0",
    "over 0 0",
    "under 0 0",
    "xvalue 0",
    "xnormal 4294967295",
    "xemergency 4294967295",
    "xminover 0",
    "xminunder 0",
    "xprofile 0 FFFFFFFFFFFFFFFFFF8000FF 0",
    "xgroups",
    "xactions 0 0",
    "xover 0 0",
    "xunder 0 0",
    "scripts 0100",
    "schedule 0 0 5 0100",
    "schedule 1 0 5 0100",
    "schedule 2 0 5 0100",
    "schedule 3 0 5 0100",
];

/// Takes a line from the first list whose next line it is. Returns whether there is one.
fn take_line(lists: &[Lines; 6], taken: &mut [usize; 6], line: &str) -> bool {
    for i in 0..6 {
        if let Some(next) = lists[i].get(taken[i]) {
            if *next == line {
                taken[i] = taken[i].saturating_add(1);
                return true;
            }
        }
    }
    false
}

/// Returns whether all lines of the lists were taken.
fn are_taken(lists: &[Lines; 6], taken: &[usize; 6]) -> bool {
    for i in 0..6 {
        if taken[i] != lists[i].len() {
            return false;
        }
    }
    true
}

/// Returns whether a text is the trace of a new meter, whose further lines are those of the lists,
/// each list in its order.
pub(crate) fn is_merged(text: &[u8], lists: &[Lines; 6]) -> bool {
    let Ok(text) = str::from_utf8(text) else {
        return false;
    };
    let mut taken = [0; 6];
    for (place, line) in text.lines().enumerate() {
        let is_expected = match OPENING.get(place) {
            Some(expected) => *expected == line,
            None => take_line(lists, &mut taken, line),
        };
        if !is_expected {
            return false;
        }
    }
    are_taken(lists, &taken)
}
