//! The responses to GET, SET and ACTION as values, and ExceptionResponse (IEC 62056-5-3).
use crate::block::DataBlock;
use crate::invoke_id::InvokeId;
use cosem_names::{GetResult, ResultCode};
use wire_bytes::Listed;

/// The state-error and service-error of an ExceptionResponse: why a request gets no response of its
/// service (IEC 62056-5-3).
#[derive(Clone, Copy, Debug, PartialEq, Eq)]
pub enum Exception {
    /// service-not-allowed, operation-not-possible: the service is not available here or now.
    NotAllowed,
    /// service-unknown, service-not-supported: the service is not known.
    Unknown,
    /// service-not-allowed, other-reason: the service is known, but its bytes cannot be read.
    Unreadable,
}

/// A meter's response to a GET, SET or ACTION, or an exception (IEC 62056-5-3).
#[derive(Debug, Drop)]
pub enum Response {
    /// Get-Response-Normal: the value, or the reason why it is not returned.
    Get {
        id: InvokeId,
        result: GetResult,
    },
    /// Get-Response-With-Datablock with raw data: one block of the value.
    GetBlock {
        id: InvokeId,
        block: DataBlock,
    },
    /// Get-Response-With-Datablock with a result: the reason why the block is not returned.
    GetBlockRefused {
        id: InvokeId,
        last: bool,
        number: u32,
        code: ResultCode,
    },
    /// Get-Response-With-List: for each attribute its value, or the reason why it is not returned.
    GetList {
        id: InvokeId,
        results: Listed<GetResult>,
    },
    /// Set-Response-Normal: the result of the SET.
    Set {
        id: InvokeId,
        code: ResultCode,
    },
    /// Set-Response-Datablock: acknowledges the block with this number.
    SetBlock {
        id: InvokeId,
        number: u32,
    },
    /// Set-Response-Last-Datablock: acknowledges the last block, which has this number, with the
    /// result of the SET.
    SetLastBlock {
        id: InvokeId,
        code: ResultCode,
        number: u32,
    },
    /// Action-Response-Normal without return parameters: the result of the method.
    Action {
        id: InvokeId,
        code: ResultCode,
    },
    /// Action-Response-Next-Pblock: acknowledges the block with this number.
    ActionBlock {
        id: InvokeId,
        number: u32,
    },
    /// ExceptionResponse.
    Exception(Exception),
}
