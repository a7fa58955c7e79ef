//! An item of a GET and its result: an attribute with or without selective access, a value or a
//! result code (IEC 62056-5-3).
use crate::name::AttrRef;
use crate::result_code::ResultCode;
use cosem_axdr::Data;

/// An attribute, and whether only a part of it was requested:
/// Cosem-Attribute-Descriptor-With-Selection (IEC 62056-5-3). Which part is not kept, since the
/// meter refuses all of them.
#[derive(Clone, Copy, Debug, PartialEq, Eq)]
pub struct AttributeSelection {
    /// The attribute that the request names.
    pub attr: AttrRef,
    /// Whether the request has an access selection, which selects a part of the attribute.
    pub selected: bool,
}

/// The result of reading an attribute: Get-Data-Result (IEC 62056-5-3).
#[derive(Debug, Drop)]
pub enum GetResult {
    /// The value of the attribute.
    Value(Data),
    /// Why the attribute is not read.
    Code(ResultCode),
}
