//! Fields of one byte that may be unspecified (FF hex), shared by dates and times.
ghost use Rattle.std.specs.Prelude.{◌≡◌};
ghost use Rattle.cosem_datetime.specs.Fields.{field_byte};
ghost use Rattle.cosem_datetime.specs.Reading.{field_of};
ghost use Rattle.cosem_datetime.specs.Matching.{holds};

use crate::fault::PatternFault;

// The byte of a field that is not specified.
pub(crate) const NOT_SPECIFIED: u8 = 0xFF;

// Reads a field of one byte: `None` if it is not specified, else a number from `low` to `high`.
pub(crate) fn read_field(byte: u8, low: u8, high: u8) -> Result<Option<u8>, PatternFault>
    ensures { result ≡ field_of low high byte }
{
    if byte == NOT_SPECIFIED {
        Ok(None)
    } else if low <= byte && byte <= high {
        Ok(Some(byte))
    } else {
        Err(PatternFault::Range)
    }
}

// Returns the byte of a field.
pub(crate) fn byte_of(field: Option<u8>) -> u8
    ensures { result ≡ field_byte field }
{
    field.unwrap_or(NOT_SPECIFIED)
}

// Returns whether a field is the number, or not specified.
pub(crate) fn field_holds(field: Option<u8>, number: u32) -> bool
    ensures { result ≡ holds field number }
{
    match field {
        None => true,
        Some(field) => u32::from(field) == number,
    }
}
