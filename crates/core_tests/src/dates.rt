//! Worked values from the standard and a calendar.
use cosem_datetime::{
    DateTimeField, EntryPattern, PatternFault, calendar_laws, moment_of, read_date, read_date_time,
    read_time,
};
use std::test::Fail;

/// Midnight of 26 March 2028, a Sunday: 10,312 days after 1 January 2000.
const MARCH_26: u32 = 890_956_800;

/// The number of seconds of a day.
const DAY: u32 = 86_400;

// A time in which no field is specified.
const ANY_TIME: [u8; 4] = [0xFF, 0xFF, 0xFF, 0xFF];

// The last Sunday of March, of any year.
const LAST_SUNDAY: [u8; 5] = [0xFF, 0xFF, 3, 0xFE, 7];

// The second last day of any month.
const SECOND_LAST: [u8; 5] = [0xFF, 0xFF, 0xFF, 0xFD, 0xFF];

// The last day of any month.
const LAST: [u8; 5] = [0xFF, 0xFF, 0xFF, 0xFE, 0xFF];

fn entry(time: [u8; 4], date: [u8; 5]) -> Result<EntryPattern, PatternFault> {
    Ok(EntryPattern {
        time: read_time(&time)?,
        date: read_date(&date)?,
    })
}

/// Returns whether a date matches the day that begins at that second.
fn matches_day(date: [u8; 5], midnight: u32) -> Result<bool, PatternFault> {
    Ok(entry([0xFF; 4], date)?.matches(midnight))
}

// Dates, each with the second at which a day begins, and whether the date matches that day.
static DAYS: [([u8; 5], u32, bool); 12] = [
    (LAST_SUNDAY, MARCH_26, true),
    (LAST_SUNDAY, MARCH_26 - 7 * DAY, false),
    // The first Sunday of March from day 25 on, of any year.
    ([0xFF, 0xFF, 3, 25, 7], MARCH_26, true),
    // Saturday 1 January 2000, in a week that began in 1999.
    ([0xFF, 0xFF, 12, 31, 6], 0, true),
    ([0xFF, 0xFF, 12, 31, 7], 0, false),
    ([0xFF, 0xFF, 12, 26, 6], 0, true),
    ([0xFF, 0xFF, 12, 25, 6], 0, false),
    ([0x07, 0xD0, 1, 1, 6], 0, true),
    (SECOND_LAST, MARCH_26 + 4 * DAY, true),
    (LAST, MARCH_26 + 4 * DAY, false),
    (LAST, MARCH_26 + 5 * DAY, true),
    (SECOND_LAST, MARCH_26 + 5 * DAY, false),
];

#[test]
fn dates_match_their_days(rt: HostRuntime) {
    for (date, midnight, expected) in &DAYS {
        assert!(rt;
            matches_day(*date, *midnight) == Ok(*expected),
            "{date:?} at {midnight}"
        );
    }
    // The day of the week is wrong: 25 March 2028 is a Saturday.
    for day in 1..32u32 {
        let midnight = MARCH_26 + DAY * day - 26 * DAY;
        assert!(rt; matches_day([0x07, 0xEC, 3, 25, 7], midnight) == Ok(false));
    }
}

/// Two seconds, and whether the last second of a month is after the first and not after the second.
static INTERVALS: [(u32, u32, bool); 6] = [
    (888_710_398, 888_710_399, false),
    (888_796_798, 888_796_799, true),
    (5, 5, false),
    (888_796_799, 888_796_800, false),
    (0, u32::MAX, true),
    (u32::MAX, 0, false),
];

#[test]
fn intervals(rt: HostRuntime) -> Result<(), Fail> {
    let entry = entry([23, 59, 59, 0], [0xFF, 0xFF, 0xFF, 0xFE, 0xFF])?;
    for (after, upto, expected) in &INTERVALS {
        assert!(rt;
            entry.matches_in(*after, *upto) == *expected,
            "{after} to {upto}"
        );
    }
    assert!(rt;
        entry.matches(888_796_799) && !entry.matches(888_796_798) && !entry.date_is_plain()
    );
    Ok(())
}

// Dates, each with whether its year, month and day are all plain numbers.
static PLAIN: [([u8; 5], bool); 7] = [
    ([0x07, 0xEC, 3, 25, 7], true),
    ([0x07, 0xEC, 3, 25, 0xFF], true),
    ([0xFF, 0xFF, 3, 25, 7], false),
    ([0x07, 0xEC, 0xFF, 25, 7], false),
    ([0x07, 0xEC, 3, 0xFD, 7], false),
    ([0x07, 0xEC, 3, 0xFE, 7], false),
    ([0x07, 0xEC, 3, 0xFF, 7], false),
];

// The time 12:00:00.00.
const NOON: [u8; 4] = [12, 0, 0, 0];

// Two times, and whether they are equal but for the hundredths.
static TIMES: [([u8; 4], [u8; 4], bool); 5] = [
    (NOON, [12, 0, 0, 0xFF], true),
    (NOON, [12, 0, 0xFF, 0], false),
    (NOON, [12, 0xFF, 0, 0], false),
    (NOON, [0xFF, 0, 0, 0], false),
    (ANY_TIME, ANY_TIME, true),
];

#[test]
fn dates_are_plain_and_times_are_compared_as_written(rt: HostRuntime) -> Result<(), Fail> {
    for (date, expected) in &PLAIN {
        let found = entry([0xFF; 4], *date)?.date_is_plain();
        assert!(rt; found == *expected, "{date:?}");
    }
    for (one, other, expected) in &TIMES {
        let found = read_time(one)?.same_time(&read_time(other)?);
        assert!(rt; found == *expected, "{one:?} and {other:?}");
    }
    Ok(())
}

// Date-times, each with its moment in seconds since 1 January 2000, if it has one.
static MOMENTS: [([u8; 12], Option<u32>); 21] = [
    // 1 January 2000, 00:01:40.
    ([0x07, 0xD0, 1, 1, 0xFF, 0, 1, 40, 0, 0x80, 0, 0], Some(100)),
    ([0x07, 0xD0, 1, 1, 6, 0, 1, 40, 0, 0, 1, 0xFF], Some(160)),
    ([0x07, 0xD0, 1, 1, 7, 0, 1, 40, 0, 0, 1, 0xFF], None),
    ([0x07, 0xD0, 1, 1, 6, 0, 1, 40, 0, 0xFF, 0xFF, 0], Some(40)),
    ([0x07, 0xD0, 1, 1, 6, 0, 1, 40, 0, 0xFF, 0xFE, 0], None),
    // 31 December 1999, 23:30:00, plus a deviation.
    ([0x07, 0xCF, 12, 31, 5, 23, 30, 0, 0, 0, 60, 0], Some(1_800)),
    ([0x07, 0xCF, 12, 31, 5, 23, 30, 0, 0, 0x80, 0, 0], None),
    ([0x07, 0xCF, 12, 31, 5, 23, 30, 0, 0, 0, 29, 0], None),
    // 7 February 2136, 06:28:15 is the last second.
    (
        [0x08, 0x58, 2, 7, 0xFF, 6, 28, 15, 0, 0, 0, 0],
        Some(u32::MAX),
    ),
    ([0x08, 0x58, 2, 7, 0xFF, 6, 28, 16, 0, 0, 0, 0], None),
    (
        [0x08, 0x58, 2, 7, 0xFF, 6, 29, 15, 0, 0xFF, 0xFF, 0],
        Some(u32::MAX),
    ),
    // Dates that the calendar does not have, and fields that are not specified.
    ([0x07, 0xD1, 2, 29, 0xFF, 0, 0, 0, 0, 0, 0, 0], None),
    (
        [0x07, 0xD0, 2, 29, 0xFF, 0, 0, 0, 0, 0, 0, 0],
        Some(5_097_600),
    ),
    ([0xFF, 0xFF, 1, 1, 0xFF, 0, 0, 0, 0, 0, 0, 0], None),
    ([0x07, 0xD0, 0xFF, 1, 0xFF, 0, 0, 0, 0, 0, 0, 0], None),
    ([0x07, 0xD0, 1, 0xFE, 0xFF, 0, 0, 0, 0, 0, 0, 0], None),
    ([0x07, 0xD0, 1, 1, 0xFF, 0xFF, 0, 0, 0, 0, 0, 0], None),
    ([0x07, 0xD0, 1, 1, 0xFF, 0, 0xFF, 0, 0, 0, 0, 0], None),
    ([0x07, 0xD0, 1, 1, 0xFF, 0, 0, 0xFF, 0, 0, 0, 0], None),
    ([0xFF, 0xFE, 1, 1, 0xFF, 0, 0, 0, 0, 0, 0, 0], None),
    (
        [
            0xFF, 0xFF, 0xFF, 0xFF, 0xFF, 0xFF, 0xFF, 0xFF, 0xFF, 0x80, 0, 0xFF,
        ],
        None,
    ),
];

#[test]
fn moments(rt: HostRuntime) -> Result<(), Fail> {
    calendar_laws();
    for (text, second) in &MOMENTS {
        let field = read_date_time(text)?;
        assert!(rt;
            moment_of(&field) == *second && field.bytes() == *text,
            "{text:?}"
        );
    }
    assert!(rt; DateTimeField::unspecified().bytes() == MOMENTS[20].0);
    Ok(())
}
