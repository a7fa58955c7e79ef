//! The parts of records.
use record_parts::{civil_text, number_column, number_value, text_of, text_value, write_row};
use std::alloc::{AllocError, Global};
use std::test::Fail;

/// 1 January 1970, as the number of days since 1 January of the year 0.
const FIRST_DAY: u32 = 719_528;

#[test]
fn a_second_is_written(rt: HostRuntime) -> Result<(), Fail> {
    let leap_day = civil_text(rt.alloc(), FIRST_DAY, 951_827_696)?;
    let last = civil_text(rt.alloc(), FIRST_DAY, 4_294_967_295)?;
    assert!(rt;
        leap_day.as_str() == "2000-02-29T12:34:56" && last.as_str() == "2106-02-07T06:28:15"
    );
    Ok(())
}

/// Returns a line of a number, a number that is missing, and a text with a quotation mark.
fn row(alloc: Global) -> Result<Vec<u8>, AllocError> {
    let mut out = Vec::new(alloc);
    let number = number_column(alloc, Some(4_294_967_295))?;
    let missing = number_column(alloc, None)?;
    write_row(
        alloc,
        &mut out,
        &[number.as_slice(), missing.as_slice(), b"a\"b"],
    )?;
    Ok(out)
}

#[test]
fn a_row_is_written(rt: HostRuntime) {
    let row = row(rt.alloc());
    assert!(rt; row.is_ok_and(|row| row.as_slice() == b"4294967295,,\"a\"\"b\"\n".as_slice()));
}

#[test]
fn values_are_written(rt: HostRuntime) -> Result<(), Fail> {
    let bytes = Vec::from_slice(rt.alloc(), b"a\"b")?;
    let text = text_value(Some(text_of(bytes))).to_string(rt.alloc())?;
    let number = number_value(Some(7)).to_string(rt.alloc())?;
    let no_number = number_value(None).to_string(rt.alloc())?;
    let no_text = text_value(None).to_string(rt.alloc())?;
    assert!(rt;
        text.as_str() == "\"a\\\"b\""
            && number.as_str() == "7"
            && no_number.as_str() == "null"
            && no_text.as_str() == "null"
    );
    Ok(())
}
