//! Words, lines and texts are read and written. tests/opening_rows.py has more words that are no
//! numbers or no bytes, and plays them over the proved executable.
use std::alloc::{AllocError, Global};
use std::test::Fail;
use text_lines::{
    TextLines, Words, add_hex, add_number, add_word, end_line, read_hex, read_hex_array,
    read_number, split_line, write_hex, write_number,
};

// Adds some lines of a trace.
fn add_some_lines(alloc: Global, out: &mut Vec<u8>) -> Result<(), AllocError> {
    out.extend_from_slice(b"device")?;
    add_hex(alloc, out, b"RELAY1")?;
    end_line(out)?;
    out.extend_from_slice(b"normal")?;
    add_number(out, 4_294_967_295)?;
    end_line(out)?;
    out.extend_from_slice(b"now")?;
    add_word(out, b"-")?;
    end_line(out)?;
    write_number(out, 0)?;
    write_hex(alloc, out, &[0x0F, 0xA0])
}

#[test]
fn texts_are_written(rt: HostRuntime) -> Result<(), Fail> {
    let mut text = Vec::new(rt.alloc());
    let added = add_some_lines(rt.alloc(), &mut text);
    let same = text.as_slice()
        == b"device 52454C415931\nnormal 4294967295\nnow -\n00FA0".as_slice();
    drop(text);
    assert!(rt; added == Ok(()) && same);
    Ok(())
}

// Words, each with the largest number allowed, and the expected result of reading it. Numbers are
// in decimal, without a sign and without leading zeros.
static NUMBERS: [(&[u8], u64, Option<u64>); 16] = [
    (b"0", 0, Some(0)),
    (b"5", u64::MAX, Some(5)),
    (b"4294967295", 4_294_967_295, Some(4_294_967_295)),
    (b"18446744073709551615", u64::MAX, Some(u64::MAX)),
    // Words that are too large, have leading zeros or a sign, are empty, or have other characters.
    (b"18446744073709551616", u64::MAX, None),
    (b"99999999999999999999999999", u64::MAX, None),
    (b"007", u64::MAX, None),
    (b"00", u64::MAX, None),
    (b"+5", u64::MAX, None),
    (b"-5", u64::MAX, None),
    (b"", u64::MAX, None),
    (b"5a", u64::MAX, None),
    (b"\xC3\xA9", u64::MAX, None),
    // A number greater than the largest allowed is no number.
    (b"255", 255, Some(255)),
    (b"256", 255, None),
    (b"4294967296", 4_294_967_295, None),
];

// Words that are no logical names: empty, too short, too long, in lower case, or with other
// characters.
static NO_NAMES: [&[u8]; 7] = [
    b"",
    b"000060030AF",
    b"000060030A",
    b"000060030AFF00",
    b"000060030aff",
    b"00006003.AFF",
    b" 00060030AFF",
];

// The logical name of the disconnect control (IEC 62056-6-2).
static SWITCH: [u8; 6] = [0, 0, 96, 3, 10, 255];

#[test]
fn numbers_are_read(rt: HostRuntime) {
    for (word, limit, number) in &NUMBERS {
        assert!(rt; read_number(word, *limit) == *number, "of {word:?}");
    }
    assert!(rt; read_hex_array(b"000060030AFF") == Some(SWITCH));
    for word in &NO_NAMES {
        assert!(rt; read_hex_array::<6>(word).is_none(), "of {word:?}");
    }
}

// Words, each with the bytes that it is in hexadecimal. Words in lower case, with an odd number of
// digits, no digit, a dash, or no digits, are no bytes.
static BYTES: [(&[u8], Option<&[u8]>); 7] = [
    (b"52454C415931", Some(b"RELAY1")),
    (b"0F00", Some(&[15, 0])),
    (b"52454c", None),
    (b"524", None),
    (b"5G", None),
    (b"-", None),
    (b"", None),
];

// Returns whether a word is read as these bytes, or is no bytes.
fn is_read_as(alloc: Global, word: &[u8], expected: Option<&[u8]>) -> Result<bool, AllocError> {
    match read_hex(alloc, word)? {
        Some(read) => {
            let is_so = expected == Some(read.as_slice());
            drop(read);
            Ok(is_so)
        }
        None => Ok(expected.is_none()),
    }
}

#[test]
fn bytes_are_read(rt: HostRuntime) {
    for (word, bytes) in &BYTES {
        assert!(rt;
            is_read_as(rt.alloc(), word, *bytes) == Ok(true),
            "of {word:?}"
        );
    }
}

// A text, and its first line with the rest, or none.
type Split = (&'static [u8], Option<(&'static [u8], &'static [u8])>);

// Texts, each with its first line and the rest, or `None` if no line is ended.
static SPLIT: [Split; 4] = [
    (b"state 1\nmode 0\n", Some((b"state 1", b"mode 0\n"))),
    (b"\n", Some((b"", b""))),
    (b"mode 0", None),
    (b"", None),
];

// A line, and its first three words.
type Line = (
    &'static [u8],
    Option<&'static [u8]>,
    Option<&'static [u8]>,
    Option<&'static [u8]>,
);

// Lines, each with its first three words; one blank separates two words.
static WORDS: [Line; 4] = [
    (b"get 16 70", Some(b"get"), Some(b"16"), Some(b"70")),
    (b"button", Some(b"button"), None, None),
    (b"get  16", Some(b"get"), Some(b""), Some(b"16")),
    (b"", Some(b""), None, None),
];

#[test]
fn lines_and_their_words_are_read(rt: HostRuntime) {
    for (text, split) in &SPLIT {
        assert!(rt; split_line(text) == *split, "{text:?}");
    }
    let mut lines = TextLines::new(b"state 1\n\nmode");
    assert!(rt;
        lines.next() == Some(b"state 1".as_slice())
            && lines.next() == Some(b"".as_slice())
            && lines.next().is_none()
            && lines.rest() == b"mode".as_slice()
    );
    for (line, first, second, third) in &WORDS {
        let mut words = Words::new(line);
        assert!(rt;
            words.next() == *first && words.next() == *second && words.next() == *third,
            "{line:?}"
        );
    }
}
