//! Invoke-Id-And-Priority (IEC 62056-5-3), the byte that links a response to its request.

/// Invoke-Id-And-Priority: a request's identifier, service class and priority. The response repeats
/// it (IEC 62056-5-3).
#[derive(Clone, Copy, Debug, PartialEq, Eq)]
pub struct InvokeId(pub u8);
