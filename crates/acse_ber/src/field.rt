//! The fields of an APDU, which may be in any order.
ghost use Rattle.std.specs.Prelude.{◌≡◌, option_map, is_ok};
ghost use Rattle.wire_bytes.specs.Reading.{Reads};
ghost use Rattle.acse_ber.specs.Parts.{field_part};
ghost use Rattle.acse_ber.specs.Reading.{Yields, tag_contents, fields_of, field_of, inner_of};
ghost use Rattle.acse_ber.specs.Reading.{needed_field, needed_inner};

use crate::fault::AcseFault;
use crate::length::read_contents;
use crate::tag::{FIRST_FIELD, LAST_FIELD};
use wire_bytes::Cursor;

// A field of an APDU.
#[derive(Clone, Copy)]
pub(crate) struct Field<'a> {
    // The tag, context-specific: 80 to BF hex.
    pub(crate) tag: u8,
    // The bytes after the length.
    pub(crate) contents: &'a [u8],
}

// Reads the next field: a context-specific tag, the length and the contents.
fn read_field<'a>(reader: &mut Cursor<'a>) -> Result<Field<'a>, AcseFault>
    ensures { Reads (λ field. record { tag = field.tag; contents = field.contents.now }) result
        reader.new (field_part.read reader.old) }
{
    match reader.read_byte(AcseFault::Unreadable)? {
        tag @ FIRST_FIELD..=LAST_FIELD => Ok(Field {
            tag,
            contents: read_contents(reader)?,
        }),
        _ => Err(AcseFault::Unreadable),
    }
}

// Returns the contents of a tag, which must fill the bytes.
#[tactic(auto, unfolding(crate::specs::Reading::tag_contents))]
pub(crate) fn read_tagged(tag: u8, bytes: &[u8]) -> Result<&[u8], AcseFault>
    ensures { Yields (λ contents. contents.now) result (tag_contents tag bytes.now) }
{
    let mut reader = Cursor::new(bytes);
    if reader.read_byte(AcseFault::Unreadable)? != tag {
        return Err(AcseFault::Unreadable);
    }
    let contents = read_contents(&mut reader)?;
    reader.finish(contents, AcseFault::Unreadable)
}

// Returns whether the bytes are a sequence of fields.
pub(crate) fn are_fields(body: &[u8]) -> bool
    ensures { result ≡ is_ok (fields_of body.now) }
{
    let mut reader = Cursor::new(body);
    'fields: while !reader.is_empty() {
        let Ok(_field) = read_field(&mut reader) else {
            return false;
        };
    }
    true
}

// Returns the contents of the field with a tag, or `None` if it is absent. It may not occur twice,
// and the bytes must be a sequence of fields.
#[tactic(auto, unfolding(crate::specs::Reading::field_of))]
pub(crate) fn find_field(tag: u8, body: &[u8]) -> Result<Option<&[u8]>, AcseFault>
    ensures { Yields (λ found. option_map (λ contents. contents.now) found) result
        (field_of tag body.now) }
{
    let mut reader = Cursor::new(body);
    let mut found = None;
    'fields: while !reader.is_empty() {
        let Ok(field) = read_field(&mut reader) else {
            return Err(AcseFault::Unreadable);
        };
        if field.tag == tag {
            if found.is_some() {
                return Err(AcseFault::Unreadable);
            }
            found = Some(field.contents);
        }
    }
    Ok(found)
}

// Returns the contents of an inner tag, which must fill the field with the outer tag, or `None` if
// that field is absent.
#[tactic(auto, unfolding(crate::specs::Reading::inner_of))]
pub(crate) fn find_inner(tag: u8, inner: u8, body: &[u8]) -> Result<Option<&[u8]>, AcseFault>
    ensures { Yields (λ found. option_map (λ contents. contents.now) found) result
        (inner_of tag inner body.now) }
{
    match find_field(tag, body)? {
        Some(contents) => Ok(Some(read_tagged(inner, contents)?)),
        None => Ok(None),
    }
}

// Returns the contents of the field with a tag, which must be present.
pub(crate) fn find_required(tag: u8, body: &[u8]) -> Result<&[u8], AcseFault>
    ensures { Yields (λ contents. contents.now) result (needed_field tag body.now) }
{
    find_field(tag, body)?.ok_or(AcseFault::Unreadable)
}

// Returns the contents of an inner tag, which must fill the field with the outer tag. That field
// must be present.
pub(crate) fn find_needed_inner(tag: u8, inner: u8, body: &[u8]) -> Result<&[u8], AcseFault>
    ensures { Yields (λ contents. contents.now) result (needed_inner tag inner body.now) }
{
    find_inner(tag, inner, body)?.ok_or(AcseFault::Unreadable)
}
