//! Data and their hexadecimal texts.
use cosem_axdr::{Data, Octets};
use std::alloc::Global;

/// Returns the Data at the start of some bytes.
fn read(alloc: Global, bytes: &[u8]) -> Option<Data> {
    match cosem_axdr::read(alloc, bytes) {
        Ok((value, _)) => Some(value),
        Err(_) => None,
    }
}

/// Returns the bytes of a hexadecimal text.
fn bytes(alloc: Global, text: &str) -> Option<Vec<u8>> {
    hex::decode(alloc, text).ok()
}

/// Returns the Data of a hexadecimal text. Returns `None` if it is not Data, or if out of memory.
pub(crate) fn data(alloc: Global, text: &str) -> Option<Data> {
    let bytes = bytes(alloc, text)?;
    let value = read(alloc, bytes.as_slice());
    drop(bytes);
    value
}

/// Returns whether Data is written as these bytes.
fn is_written(alloc: Global, value: &Data, bytes: &[u8]) -> bool {
    let mut written = Octets::new(alloc);
    let is_done = cosem_axdr::write(alloc, value, &mut written).is_ok();
    let found = is_done && written.as_slice() == bytes;
    drop(written);
    found
}

/// Returns whether Data is written as the bytes of this text.
pub(crate) fn is_text(alloc: Global, value: &Data, text: &str) -> bool {
    match bytes(alloc, text) {
        Some(expected) => {
            let found = is_written(alloc, value, expected.as_slice());
            drop(expected);
            found
        }
        None => false,
    }
}
