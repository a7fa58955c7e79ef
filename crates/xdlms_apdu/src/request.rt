//! The requests GET, SET and ACTION as values, one variant for each form (IEC 62056-5-3).
use crate::block::DataBlock;
use crate::invoke_id::InvokeId;
use cosem_axdr::Data;
use cosem_names::{AttributeSelection, MethodRef};
use wire_bytes::Listed;

/// A client's request: GET, SET or ACTION (IEC 62056-5-3).
#[derive(Debug, Drop)]
pub enum Request {
    /// Get-Request-Normal: reads an attribute.
    Get {
        id: InvokeId,
        target: AttributeSelection,
    },
    /// Get-Request-Next: asks for the next block. The number is that of the last block received.
    GetNext {
        id: InvokeId,
        number: u32,
    },
    /// Get-Request-With-List: reads several attributes.
    GetList {
        id: InvokeId,
        targets: Listed<AttributeSelection>,
    },
    /// Set-Request-Normal: sets an attribute.
    Set {
        id: InvokeId,
        target: AttributeSelection,
        value: Data,
    },
    /// Set-Request-With-First-Datablock: an attribute and the first block of its new value.
    SetFirst {
        id: InvokeId,
        target: AttributeSelection,
        block: DataBlock,
    },
    /// Set-Request-With-Datablock: a further block of the value.
    SetNext {
        id: InvokeId,
        block: DataBlock,
    },
    /// Action-Request-Normal: invokes a method, with a parameter if it has one.
    Action {
        id: InvokeId,
        method: MethodRef,
        parameter: Option<Data>,
    },
    /// Action-Request-With-First-Pblock: a method and the first block of its parameter.
    ActionFirst {
        id: InvokeId,
        method: MethodRef,
        block: DataBlock,
    },
    /// Action-Request-With-Pblock: a further block of the parameter.
    ActionNext {
        id: InvokeId,
        block: DataBlock,
    },
}
