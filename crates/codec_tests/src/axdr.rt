//! Texts of each type of Data: other forms that are read, faults, and the limits of depth, width
//! and length. tests/unproved/long_tests has the value of each text.
use cosem_axdr::{
    Data, DataFault, Items, Octets, append_length, fits, no_spelling_begins_another, number_of,
    read, text_len, text_of_fit_spells, write,
};
use std::alloc::{AllocError, Global};
use std::test::Fail;

// A text of each tag, in the order of the tags.
static TEXTS: [&[u8]; 20] = [
    &[0x00],
    &[0x01, 0x02, 0x11, 0x01, 0x11, 0x02],
    &[0x02, 0x02, 0x00, 0x03, 0x01],
    &[0x03, 0x01],
    &[0x04, 0x05, 0xB8],
    &[0x05, 0xFF, 0xFF, 0xFF, 0xFE],
    &[0x06, 0x00, 0x00, 0x1B, 0x58],
    &[0x09, 0x02, 0xAB, 0xCD],
    &[0x0A, 0x02, b'H', b'I'],
    &[0x0C, 0x02, 0xC3, 0xA9],
    &[0x0F, 0xFE],
    &[0x10, 0xFF, 0xFE],
    &[0x11, 0x07],
    &[0x12, 0x1B, 0x58],
    &[0x14, 0xFF, 0xFF, 0xFF, 0xFF, 0xFF, 0xFF, 0xFF, 0xFE],
    &[0x15, 0x00, 0x00, 0x00, 0x00, 0x00, 0x00, 0x1B, 0x58],
    &[0x16, 0x03],
    &[
        0x19, 0x07, 0xEA, 0x0B, 0x16, 0x07, 0x0C, 0x1E, 0x00, 0x00, 0x80, 0x00, 0x00,
    ],
    &[0x1A, 0x07, 0xEA, 0x0B, 0x16, 0x07],
    &[0x1B, 0x0C, 0x1E, 0x00, 0x00],
];

// Calls the function under test without its contract. A test checks what no clause states, so this
// keeps its own proof small.
fn read_from(alloc: Global, text: &[u8]) -> Result<(Data, usize), DataFault> {
    read(alloc, text)
}

// Returns the fault of reading a text as a Data.
fn fault_of(alloc: Global, text: &[u8]) -> Option<DataFault> {
    read(alloc, text).err()
}

// Returns whether a value is within the limits, has a copy, and is written as these bytes.
fn is_text_of(alloc: Global, value: &Data, bytes: &[u8]) -> Result<bool, AllocError> {
    let copy = value.try_clone(alloc)?;
    let mut text = Octets::new(alloc);
    let written = write(alloc, &copy, &mut text);
    let is_same = copy == *value && text.as_slice() == bytes;
    drop(copy);
    drop(text);
    written?;
    Ok(is_same && fits(value) && text_len(value) == bytes.len() as u64)
}

// Returns whether the whole text is read, and its value written as these bytes.
fn is_written_as(alloc: Global, text: &[u8], bytes: &[u8]) -> bool {
    match read_from(alloc, text) {
        Ok((value, len)) => {
            let written = is_text_of(alloc, &value, bytes);
            drop(value);
            len == text.len() && written == Ok(true)
        }
        Err(_) => false,
    }
}

// A text, and the form in which its value is written.
static OTHER_FORMS: [(&[u8], &[u8]); 3] = [
    (
        &[0x09, 0x82, 0x00, 0x02, 0xAB, 0xCD],
        &[0x09, 0x02, 0xAB, 0xCD],
    ),
    (&[0x03, 0x05], &[0x03, 0x01]),
    (&[0x04, 0x81, 0x05, 0xBF], &[0x04, 0x05, 0xB8]),
];

#[test]
fn other_forms_are_read(rt: HostRuntime) {
    no_spelling_begins_another();
    text_of_fit_spells();
    for (text, written) in &OTHER_FORMS {
        assert!(rt; is_written_as(rt.alloc(), text, written), "{text:?}");
    }
}

#[test]
fn each_part_of_a_text_is_truncated(rt: HostRuntime) {
    for text in &TEXTS {
        for len in 0..text.len() {
            assert!(rt;
                fault_of(rt.alloc(), &text[..len]) == Some(DataFault::Truncated),
                "{len} bytes of {text:?}"
            );
        }
    }
}

// Nine nested structures of one item each, around a null-data.
static NINE_DEEP: [u8; 19] = [
    0x02, 0x01, 0x02, 0x01, 0x02, 0x01, 0x02, 0x01, 0x02, 0x01, 0x02, 0x01, 0x02, 0x01, 0x02, 0x01,
    0x02, 0x01, 0x00,
];

// Bytes that are not a Data, each with the first fault found.
static FAULTS: [(&[u8], DataFault); 11] = [
    (&[0x09, 0x05, 0xAB], DataFault::Truncated),
    (&[], DataFault::Truncated),
    (&[0x0D, 0x00], DataFault::UnknownTag),
    (&[0x01, 0x82, 0x01, 0x00], DataFault::TooLong),
    (&[0x09, 0x82, 0x20, 0x01], DataFault::TooLong),
    (&[0x09, 0x82, 0x1F, 0xFD], DataFault::TooLong),
    (&[0x09, 0x80], DataFault::TooLong),
    (&[0x09, 0x85], DataFault::TooLong),
    (&[0x02, 0x02, 0x0D], DataFault::UnknownTag),
    (&[0x02, 0x02, 0x11, 0x07], DataFault::Truncated),
    (&[0x12, 0x1B], DataFault::Truncated),
];

#[test]
fn the_first_fault_is_the_answer(rt: HostRuntime) {
    for (text, fault) in &FAULTS {
        assert!(rt;
            fault_of(rt.alloc(), text) == Some(*fault),
            "expected {fault:?} for {text:?}"
        );
    }
    // Depth is judged at the ninth tag.
    for len in 17..20 {
        assert!(rt; fault_of(rt.alloc(), &NINE_DEEP[..len]) == Some(DataFault::TooDeep));
    }
    assert!(rt; fault_of(rt.alloc(), &NINE_DEEP[..16]) == Some(DataFault::Truncated));
}

// Returns the text of a string with these bytes, or of an array with the items that they spell.
fn text_with(alloc: Global, tag: u8, bytes: &[u8]) -> Result<Octets, AllocError> {
    let mut text = Octets::new(alloc);
    text.push(tag)?;
    append_length(bytes.len(), &mut text)?;
    text.extend_from_slice(bytes)?;
    Ok(text)
}

// Returns whether the text of a string or an array is read and written.
fn is_size_read(alloc: Global, tag: u8, bytes: &[u8]) -> Result<bool, AllocError> {
    let text = text_with(alloc, tag, bytes)?;
    let is_so = is_written_as(alloc, text.as_slice(), text.as_slice());
    drop(text);
    Ok(is_so)
}

// The bytes of the longest string.
static LONGEST: [u8; 8188] = [0x5A; 8188];

// As many null-data as an array may have.
static NULLS: [u8; 255] = [0x00; 255];

#[test]
fn each_count_of_items_is_read_and_written(rt: HostRuntime) {
    for count in 0..256 {
        let is_read = is_size_read(rt.alloc(), 0x01, &NULLS[..count]);
        assert!(rt; is_read == Ok(true), "{count} items");
    }
}

#[test]
fn each_length_of_a_string_is_read_and_written(rt: HostRuntime) {
    for length in 0..8_189 {
        let is_read = is_size_read(rt.alloc(), 0x09, &LONGEST[..length]);
        assert!(rt; is_read == Ok(true), "{length} bytes");
    }
}

// Returns whether a bit-string of `bits` bits in one byte fits.
fn bits_fit(alloc: Global, bits: usize, byte: u8) -> Result<bool, AllocError> {
    let bytes = Octets::from_slice(alloc, &[byte])?;
    let value = Data::BitString { bits, bytes };
    let is_fit = fits(&value);
    drop(value);
    Ok(is_fit)
}

// The number of bits of a bit-string, its byte, and whether it fits.
static BITS: [(usize, u8, bool); 5] = [
    (5, 0xB8, true),
    (8, 0xFF, true),
    (9, 0xB8, false),
    (0, 0x00, false),
    (5, 0xB9, false),
];

#[test]
fn bit_strings_that_are_not_whole_do_not_fit(rt: HostRuntime) {
    for (bits, byte, fits) in &BITS {
        let found = bits_fit(rt.alloc(), *bits, *byte);
        assert!(rt; found == Ok(*fits), "{bits} of {byte}");
    }
}

// Lengths and their shortest forms.
static LENGTHS: [(usize, &[u8]); 8] = [
    (0, &[0x00]),
    (0x7F, &[0x7F]),
    (0x80, &[0x81, 0x80]),
    (0xFF, &[0x81, 0xFF]),
    (0x100, &[0x82, 0x01, 0x00]),
    (0xFFFF, &[0x82, 0xFF, 0xFF]),
    (0x1_0000, &[0x83, 0x01, 0x00, 0x00]),
    (0x100_0000, &[0x84, 0x01, 0x00, 0x00, 0x00]),
];

// Returns whether a length is written as these bytes.
fn is_length(alloc: Global, length: usize, bytes: &[u8]) -> bool {
    let mut text = Octets::new(alloc);
    let is_done = append_length(length, &mut text).is_ok();
    let is_same = is_done && text.as_slice() == bytes;
    drop(text);
    is_same
}

#[test]
fn lengths_have_their_shortest_form(rt: HostRuntime) {
    for (length, bytes) in &LENGTHS {
        assert!(rt; is_length(rt.alloc(), *length, bytes), "{length}");
    }
    let numbers = [number_of(&[]), number_of(&[1, 2]), number_of(&[1, 0, 0, 0])];
    assert!(rt; numbers == [0, 258, 0x100_0000]);
}

#[test]
fn items_keep_what_is_put_in(rt: HostRuntime) -> Result<(), Fail> {
    let items = Items::from_vec(vec![in rt.alloc(); Data::Null, Data::Unsigned(7)]?);
    let found = !items.is_empty() && items.len() == 2 && items.as_slice().len() == 2;
    assert!(rt; found && items.into_vec().len() == 2);
    Ok(())
}

// Appends three bytes: one, then two.
fn push_three(octets: &mut Octets) -> Result<(), AllocError> {
    octets.push(0xAB)?;
    octets.extend_from_slice(&[0xCD, 0xEF])
}

// Returns whether octets are the three bytes, and a copy is equal to them and returns them.
fn are_three(alloc: Global, octets: &Octets) -> Result<bool, AllocError> {
    let copy = octets.try_clone(alloc)?;
    let is_same = copy == *octets && !octets.is_empty() && octets.len() == 3;
    let bytes = copy.into_vec();
    let are_bytes = bytes.as_slice() == [0xAB, 0xCD, 0xEF].as_slice();
    drop(bytes);
    Ok(is_same && are_bytes)
}

#[test]
fn octets_keep_what_is_put_in(rt: HostRuntime) {
    let mut octets = Octets::new(rt.alloc());
    assert!(rt; push_three(&mut octets).is_ok());
    assert!(rt; are_three(rt.alloc(), &octets) == Ok(true));
    drop(octets);
}
