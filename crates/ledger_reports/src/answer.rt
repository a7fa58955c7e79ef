//! `StateAnswer`: the state that a meter reported.
use crate::line::MeterState;
use cosem_axdr::Octets;

/// The state that a meter reported when it was asked about a job: the name and the address of the
/// job, and the state.
#[derive(Debug, Drop)]
pub struct StateAnswer {
    /// The name of the job.
    pub name: Octets,
    /// The address of the meter.
    pub address: Octets,
    /// The state, and when the asking began.
    pub answer: MeterState,
}
