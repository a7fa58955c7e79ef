//! Schedules: when they are due, and which entries fit their type. tests/object_rows.py has each
//! form of their attributes.
use crate::texts::data;
use action_schedule::{ActionSchedule, ScheduleAttribute, ScheduleFault, ScheduleType};
use cosem_axdr::Data;
use cosem_names::UnknownNumber;
use std::alloc::Global;

/// Script 1 of the script table. This text and those below are Data in hexadecimal digits.
const SCRIPT: &str = "0202090600000A006AFF120001";

/// One entry, for the last second of each month.
const LAST_SECOND: &str = "010102020904173B3B000905FFFFFFFEFF";

/// 31 March 2028, 23:59:59, in seconds since 1 January 2000, as all moments here.
const MARCH: u32 = 891_475_199;

/// Writes an attribute, and returns the fault of the write, if it has one.
fn set(
    alloc: Global,
    schedule: &mut ActionSchedule,
    attribute: ScheduleAttribute,
    value: &Data,
) -> Option<ScheduleFault> {
    match attribute {
        ScheduleAttribute::ExecutedScript => schedule.set_script(value).err(),
        ScheduleAttribute::Kind => schedule.set_kind(value).err(),
        ScheduleAttribute::ExecutionTime => schedule.set_entries(alloc, value).err(),
    }
}

/// Returns the fault of writing this text, if it has one. Returns `None` if the text is not Data.
fn fault_of(
    alloc: Global,
    schedule: &mut ActionSchedule,
    attribute: ScheduleAttribute,
    text: &str,
) -> Option<Option<ScheduleFault>> {
    let value = data(alloc, text)?;
    let fault = set(alloc, schedule, attribute, &value);
    drop(value);
    Some(fault)
}

/// Writes the type of a schedule, and returns whether it is accepted.
fn is_of_kind(schedule: &mut ActionSchedule, kind: u8) -> bool {
    let value = Data::Enum(kind);
    let is_taken = schedule.set_kind(&value).is_ok();
    drop(value);
    is_taken
}

/// Writes script 1, a type, and the entries of this text, and returns whether they are accepted.
fn is_prepared(alloc: Global, schedule: &mut ActionSchedule, kind: u8, entries: &str) -> bool {
    let script_fault = fault_of(alloc, schedule, ScheduleAttribute::ExecutedScript, SCRIPT);
    let has_kind = is_of_kind(schedule, kind);
    let entries_fault = fault_of(alloc, schedule, ScheduleAttribute::ExecutionTime, entries);
    script_fault == Some(None) && has_kind && entries_fault == Some(None)
}

/// The type of a schedule of the last second of each month, the moment before, the moment now, and
/// whether the schedule is due.
static DUE: [(u8, u32, u32, bool); 10] = [
    (1, 888_710_398, 888_710_399, false),
    (1, 888_710_399, 888_796_799, true),
    (1, 888_796_798, 888_796_799, true),
    (1, 888_796_799, 888_796_800, false),
    (1, 5, 5, false),
    // A jump looks back a day.
    (1, 883_612_800, 888_883_198, true),
    (1, 883_612_800, 888_883_199, false),
    (1, 883_612_800, 888_883_200, false),
    // A schedule that does not fit its type is never due.
    (2, 888_796_798, 888_796_799, false),
    (2, MARCH - 1, MARCH, false),
];

/// Returns whether a schedule of the last second of each month is due. Returns `None` if it cannot
/// be created.
fn is_due(alloc: Global, kind: u8, previous: u32, now: u32) -> Option<bool> {
    let mut schedule = ActionSchedule::new(alloc);
    let is_prepared = is_prepared(alloc, &mut schedule, kind, LAST_SECOND);
    let is_due = schedule.due(previous, now);
    drop(schedule);
    if is_prepared { Some(is_due) } else { None }
}

#[test]
fn the_last_second_of_a_month(rt: HostRuntime) {
    for (kind, previous, now, due) in &DUE {
        let found = is_due(rt.alloc(), *kind, *previous, *now);
        assert!(rt; found == Some(*due), "{kind}: {previous} to {now}");
    }
}

/// Two entries with the same time, but for the hundredths.
const SAME: &str = "010202020904173B3B00090507EC0319FF02020904173B3BFF090507EC031AFF";

/// Two entries with different times.
const OTHER: &str = "010202020904173B3B00090507EC0319FF02020904173B3A00090507EC031AFF";

/// Two entries with an unspecified second.
const OPEN: &str = "010202020904173BFF00090507EC0319FF02020904173BFF00090507EC031AFF";

/// Two entries, one of which has an unspecified hour.
const HALF_OPEN: &str = "010202020904FF3B0000090507EC0319FF02020904003B0000090507EC031AFF";

/// One entry, for midnight of 25 March 2028.
const PLAIN: &str = "01010202090400000000090507EC0319FF";

/// One entry, whose year is not specified.
const ANY_YEAR: &str = "010102020904000000000905FFFF031907";

/// One entry, whose month is not specified.
const ANY_MONTH: &str = "01010202090400000000090507ECFF1907";

/// One entry, whose day of the month is not specified.
const ANY_DAY: &str = "01010202090400000000090507EC03FF07";

/// One entry, for the last day of a month.
const LAST_DAY: &str = "01010202090400000000090507EC03FE07";

/// Types, entries, and whether a schedule with these entries fits the type.
static FITS: [(u8, &str, bool); 26] = [
    // Type 1 needs one entry, the others any number.
    (1, "0100", false),
    (1, LAST_SECOND, true),
    (
        1,
        "01020202090400000000090507EC0319FF0202090400000000090507EC0319FF",
        false,
    ),
    (2, "0100", true),
    (3, "0100", true),
    (4, "0100", true),
    (5, "0100", true),
    // The times of types 2 and 3 must be the same.
    (2, SAME, true),
    (3, SAME, true),
    (2, OPEN, true),
    (3, OPEN, true),
    (2, OTHER, false),
    (3, OTHER, false),
    (3, HALF_OPEN, false),
    (4, OTHER, true),
    (5, OTHER, true),
    // The dates of types 2 and 4 must be plain.
    (2, PLAIN, true),
    (4, PLAIN, true),
    (2, ANY_YEAR, false),
    (4, ANY_YEAR, false),
    (4, ANY_MONTH, false),
    (4, ANY_DAY, false),
    (4, LAST_DAY, false),
    (3, LAST_DAY, true),
    (5, ANY_YEAR, true),
    (2, LAST_SECOND, false),
];

/// Returns whether a schedule of a type fits it with the entries of this text. Returns `None` if it
/// cannot be created.
fn is_fit(alloc: Global, kind: u8, entries: &str) -> Option<bool> {
    let mut schedule = ActionSchedule::new(alloc);
    let is_prepared = is_prepared(alloc, &mut schedule, kind, entries);
    let is_fit = schedule.fits();
    drop(schedule);
    if is_prepared { Some(is_fit) } else { None }
}

#[test]
fn entries_fit_their_type(rt: HostRuntime) {
    for (kind, entries, fits) in &FITS {
        let found = is_fit(rt.alloc(), *kind, entries);
        assert!(rt; found == Some(*fits), "type {kind}: {entries}");
    }
}

#[test]
fn a_schedule_without_entries_is_never_due(rt: HostRuntime) {
    let schedule = ActionSchedule::without_entries(rt.alloc(), 7, ScheduleType::Type2);
    let is_so = schedule.selector() == 7
        && schedule.kind() == ScheduleType::Type2
        && schedule.fits()
        && !schedule.due(0, 86_400);
    drop(schedule);
    let other = ActionSchedule::without_entries(rt.alloc(), 7, ScheduleType::Type1);
    let is_unfit = !other.fits();
    drop(other);
    assert!(rt; is_so && is_unfit);
}

#[test]
fn attributes_of_a_schedule_have_their_numbers(rt: HostRuntime) {
    assert!(rt;
        ScheduleAttribute::try_from(1) == Err(UnknownNumber(1))
            && ScheduleAttribute::try_from(2) == Ok(ScheduleAttribute::ExecutedScript)
            && ScheduleAttribute::try_from(3) == Ok(ScheduleAttribute::Kind)
            && ScheduleAttribute::try_from(4) == Ok(ScheduleAttribute::ExecutionTime)
            && ScheduleAttribute::try_from(5) == Err(UnknownNumber(5))
    );
}
