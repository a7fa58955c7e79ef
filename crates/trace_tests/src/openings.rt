//! Openings of traces, and the lines after them. tests/opening_rows.py has lines that are refused
//! in an opening.
use cosem_axdr::Octets;
use disconnect_control::{ControlMode, ControlState};
use limiter_core::Count;
use relay_core::{LimiterOpening, Opening};
use std::alloc::Global;
use trace_lines::{next_event, read_event_count};
use trace_openings::read_opening;
use trace_words::{TraceFault, TraceLines, Version};

// A new meter, in version 1.
static NEW_METER: &[u8] = b"RELAYTRACE 1\n\
      device 52454C415931\n\
      state 1\n\
      mode 0\n\
      value 0\n\
      now -\n\
      normal 4294967295\n\
      emergency 4294967295\n\
      minover 0\n\
      minunder 0\n\
      profile 0 FFFFFFFFFFFFFFFFFF8000FF 0\n\
      groups\n\
      actions 0 0\n\
      over 0 0\n\
      under 0 0\n\
      scripts 0100\n\
      schedule 0 0 5 0100\n\
      schedule 1 0 5 0100\n\
      schedule 2 0 5 0100\n\
      schedule 3 0 5 0100\n";

// A meter with settings of its own, in version 2. Script 1 disconnects, and schedule 1 runs it at
// the last second of each month.
static SET_METER: &[u8] = b"RELAYTRACE 2\n\
      device 00\n\
      state 2\n\
      mode 4\n\
      value 10\n\
      now 828282828\n\
      normal 5000\n\
      emergency 1000\n\
      minover 60\n\
      minunder 5\n\
      profile 7 07D00101FF00012800800000 3600\n\
      groups 7 65535\n\
      actions 1 2\n\
      over 3 0\n\
      under 0 0\n\
      xvalue 0\n\
      xnormal 9\n\
      xemergency 8\n\
      xminover 7\n\
      xminunder 6\n\
      xprofile 0 FFFFFFFFFFFFFFFFFF8000FF 0\n\
      xgroups\n\
      xactions 3 4\n\
      xover 0 0\n\
      xunder 42949672950 1\n\
      scripts 010102021200010101020516021200460906000060030AFF0F010F00\n\
      schedule 0 3 5 0100\n\
      schedule 1 1 1 010102020904173B3B000905FFFFFFFEFF\n\
      schedule 2 0 2 0100\n\
      schedule 3 65535 4 0100\n";

// A check of an opening that is read.
#[derive(Clone, Copy)]
enum Asked {
    IsNewMeter,
    IsSetMeter,
}

// Returns whether an opening of this version passes the check.
fn is_as_asked(version: Version, opening: &Opening, asked: Asked) -> bool {
    match asked {
        Asked::IsNewMeter => version == Version::One && is_new_meter(opening),
        Asked::IsSetMeter => version == Version::Two && is_set_meter(opening),
    }
}

// Returns whether the opening that is read from lines passes the check. Openings are dropped only
// here, because the proof that one may be dropped is slow.
fn passes_check(alloc: Global, lines: &mut TraceLines, asked: Asked) -> Result<bool, TraceFault> {
    match read_opening(alloc, lines) {
        Ok((version, opening)) => {
            let is_so = is_as_asked(version, &opening, asked);
            drop(opening);
            Ok(is_so)
        }
        Err(fault) => Err(fault),
    }
}

// Returns whether the opening of a text passes the check, and nothing follows it.
fn is_whole(alloc: Global, text: &[u8], asked: Asked) -> Result<bool, TraceFault> {
    let mut lines = TraceLines::new(text);
    Ok(passes_check(alloc, &mut lines, asked)? && lines.end().is_ok())
}

// Returns whether a limiter has these thresholds and durations.
fn has_limits(limiter: &LimiterOpening, limits: [u32; 4]) -> bool {
    [
        limiter.settings.threshold_normal,
        limiter.settings.threshold_emergency,
        limiter.settings.min_over_threshold_duration,
        limiter.settings.min_under_threshold_duration,
    ] == limits
}

// Returns whether a limiter has this last sample and these runs.
fn has_runs(limiter: &LimiterOpening, value: u32, over: Count, under: Count) -> bool {
    limiter.value == value && limiter.over == over && limiter.under == under
}

// Returns whether a limiter has this profile, these groups and these actions.
fn has_emergency(
    limiter: &LimiterOpening,
    profile: (u16, u32),
    groups: &[u16],
    actions: (u16, u16),
) -> bool {
    (
        limiter.settings.profile.id,
        limiter.settings.profile.duration,
    ) == profile
        && limiter.settings.groups.as_slice() == groups
        && (
            limiter.settings.actions.over,
            limiter.settings.actions.under,
        ) == actions
}

fn count(run: u64, fired: bool) -> Count {
    Count { run, fired }
}

// Returns whether a limiter is that of a new meter.
fn is_new_limiter(limiter: &LimiterOpening) -> bool {
    has_limits(limiter, [4_294_967_295, 4_294_967_295, 0, 0])
        && has_runs(limiter, 0, count(0, false), count(0, false))
        && has_emergency(limiter, (0, 0), &[], (0, 0))
}

// Returns whether a device has this name.
fn is_named(device: &Octets, name: &[u8]) -> bool {
    device.as_slice() == name
}

// Returns whether an opening is that of the new meter.
fn is_new_meter(opening: &Opening) -> bool {
    is_named(&opening.device, b"RELAY1")
        && opening.state == ControlState::Connected
        && opening.mode == ControlMode::Mode0
        && opening.moment.is_none()
        && is_new_limiter(&opening.import)
        && is_new_limiter(&opening.export)
        && opening.scripts.step_count(1).is_none()
        && opening.schedules.first.selector() == 0
}

// Returns whether an opening has the switch of the meter with settings of its own.
fn is_set_switch(opening: &Opening) -> bool {
    is_named(&opening.device, &[0])
        && opening.state == ControlState::ReadyForReconnection
        && opening.mode == ControlMode::Mode4
        && opening.moment == Some(828_282_828)
}

// Returns whether a limiter is the import limiter of that meter.
fn is_set_import(limiter: &LimiterOpening) -> bool {
    has_limits(limiter, [5000, 1000, 60, 5])
        && has_runs(limiter, 10, count(3, false), count(0, false))
        && has_emergency(limiter, (7, 3600), &[7, 65_535], (1, 2))
}

// Returns whether a limiter is the export limiter of that meter.
fn is_set_export(limiter: &LimiterOpening) -> bool {
    has_limits(limiter, [9, 8, 7, 6])
        && has_runs(limiter, 0, count(0, false), count(42_949_672_950, true))
        && has_emergency(limiter, (0, 0), &[], (3, 4))
}

// Returns whether an opening has the scripts and schedules of that meter.
fn has_set_schedules(opening: &Opening) -> bool {
    opening.scripts.step_count(1) == Some(1)
        && opening.schedules.first.selector() == 3
        && opening.schedules.second.selector() == 1
        && opening.schedules.second.fits()
        && opening.schedules.third.selector() == 0
        && opening.schedules.fourth.selector() == 65_535
}

fn is_set_meter(opening: &Opening) -> bool {
    is_set_switch(opening)
        && is_set_import(&opening.import)
        && is_set_export(&opening.export)
        && has_set_schedules(opening)
}

// Returns the number of events that a text states.
fn event_count(text: &[u8]) -> Option<u32> {
    read_event_count(&mut TraceLines::new(text)).ok()
}

// Reads a line as that of an event, which is dropped.
fn skip_event(alloc: Global, version: Version, lines: &mut TraceLines) -> Result<(), TraceFault> {
    match next_event(alloc, version, lines) {
        Ok(event) => {
            drop(event);
            Ok(())
        }
        Err(fault) => Err(fault),
    }
}

// Returns the result of reading the second line of a text, if the first is that of an event.
fn second(alloc: Global, version: Version, text: &[u8]) -> Option<Result<(), TraceFault>> {
    let mut lines = TraceLines::new(text);
    match skip_event(alloc, version, &mut lines) {
        Ok(()) => Some(skip_event(alloc, version, &mut lines)),
        Err(_) => None,
    }
}

#[test]
fn an_opening_of_version_1_is_read(rt: HostRuntime) {
    assert!(rt; matches!(is_whole(rt.alloc(), NEW_METER, Asked::IsNewMeter), Ok(true)));
}

#[test]
fn an_opening_of_version_2_is_read(rt: HostRuntime) {
    assert!(rt; matches!(is_whole(rt.alloc(), SET_METER, Asked::IsSetMeter), Ok(true)));
}

// Lines with the number of events, each with the number that is read.
static EVENT_COUNTS: &[(&[u8], Option<u32>)] = &[
    (b"events 0\n", Some(0)),
    (b"events 65536\n", Some(65_536)),
    (b"events 65537\n", None),
    (b"events 1", None),
    (b"events\n", None),
    (b"event 1\n", None),
];

// Returns whether each text states this number of events.
fn are_counts(texts: &[(&[u8], Option<u32>)]) -> bool {
    for (text, count) in texts {
        if event_count(text) != *count {
            return false;
        }
    }
    true
}

#[test]
fn there_are_up_to_65536_events(rt: HostRuntime) {
    assert!(rt; are_counts(EVENT_COUNTS));
}

// The result of reading the second line of two events.
type Second = (Version, &'static [u8], Result<(), TraceFault>);

// Texts of two events, each with the result of reading the second.
static SECONDS: &[Second] = &[
    (Version::Two, b"button\npairs 1 2\n", Ok(())),
    (
        Version::One,
        b"button\npairs 1 2\n",
        Err(TraceFault::Line(2)),
    ),
    (Version::Two, b"button\nbuttons\n", Err(TraceFault::Line(2))),
    (Version::Two, b"button\nbutton", Err(TraceFault::Line(2))),
    (Version::Two, b"button\n", Err(TraceFault::Line(2))),
];

fn are_seconds(alloc: Global, rows: &[Second]) -> bool {
    for (version, text, wanted) in rows {
        if second(alloc, *version, text) != Some(*wanted) {
            return false;
        }
    }
    true
}

#[test]
fn events_are_read_line_by_line(rt: HostRuntime) {
    assert!(rt; are_seconds(rt.alloc(), SECONDS));
}

// The rest of a trace after its last event, and the result of reading its end.
static ENDS: &[(&[u8], Result<(), TraceFault>)] = &[
    (b"", Ok(())),
    (b"\n", Err(TraceFault::Line(1))),
    (b" ", Err(TraceFault::Line(1))),
    (b"button\n", Err(TraceFault::Line(1))),
];

// Returns whether each text has this result if no further line of a trace is expected.
fn are_ends(texts: &[(&[u8], Result<(), TraceFault>)]) -> bool {
    for (text, wanted) in texts {
        if TraceLines::new(text).end() != *wanted {
            return false;
        }
    }
    true
}

#[test]
fn a_trace_ends_with_its_last_line(rt: HostRuntime) {
    assert!(rt; are_ends(ENDS));
}
