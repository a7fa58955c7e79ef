//! Dates, times and date-times alone, and bytes that are none. tests/unproved/long_tests has every
//! value of each field.
use cosem_datetime::{PatternFault, read_date, read_date_time, read_time};

// Sunday 26 March 2028, 12:30:15, as a date-time.
static DATE_TIME: [u8; 12] = [0x07, 0xEC, 3, 26, 7, 12, 30, 15, 0, 0, 60, 0x80];

/// Bytes that are no date, each with the fault. If there are two reasons, that of the length or
/// that of the first field is found.
static NO_DATES: [(&[u8], PatternFault); 6] = [
    (&[0xFF, 0xFF, 0xFD, 0xFF, 0xFF], PatternFault::SeasonMonth),
    (&[0xFF, 0xFF, 13, 1, 0xFF], PatternFault::Range),
    (&[0xFF, 0xFF, 0xFD, 0, 0], PatternFault::SeasonMonth),
    (&[0xFF, 0xFF, 0xFD, 1], PatternFault::Length),
    (&[], PatternFault::Length),
    (
        &[0x07, 0xEC, 3, 26, 7, 12, 30, 15, 0, 0, 60, 0x80],
        PatternFault::Length,
    ),
];

/// Bytes that are no time, each with the fault.
static NO_TIMES: [(&[u8], PatternFault); 3] = [
    (&[0, 60, 0, 0], PatternFault::Range),
    (&[24, 0, 0], PatternFault::Length),
    (&[0x07, 0xEC, 3, 26, 7], PatternFault::Length),
];

#[test]
fn a_date_and_a_time_alone(rt: HostRuntime) {
    let date = [0x07, 0xEC, 3, 26, 7];
    let time = [23, 59, 0xFF, 0xFF];
    assert!(rt;
        matches!(read_date(&date), Ok(found) if found.bytes() == date)
            && matches!(read_time(&time), Ok(found) if found.bytes() == time)
    );
    for (bytes, fault) in &NO_DATES {
        assert!(rt; read_date(bytes).err() == Some(*fault), "{bytes:?}");
    }
    for (bytes, fault) in &NO_TIMES {
        assert!(rt; read_time(bytes).err() == Some(*fault), "{bytes:?}");
    }
    assert!(rt; read_date_time(&DATE_TIME[..11]).err() == Some(PatternFault::Length));
}
