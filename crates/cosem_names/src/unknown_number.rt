//! The error of the conversions from a number to a variant.
use thiserror::Error;

/// A number that no variant of the type has.
#[derive(Clone, Copy, Debug, PartialEq, Eq, Error)]
#[error("no value has the number {0}")]
pub struct UnknownNumber(pub u8);
