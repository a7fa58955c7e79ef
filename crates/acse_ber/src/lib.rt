//! The APDUs that open and release an association, AARQ, AARE, RLRQ and RLRE of the ACSE in BER,
//! and the decision on an AARQ (IEC 62056-5-3; DLMS UA Green Book).
#![tactic(auto)]

mod aare;
mod aare_reading;
mod aare_writing;
mod aarq;
mod aarq_making;
mod aarq_reading;
mod aarq_writing;
mod conformance;
pub mod diagnostic;
mod fault;
mod field;
mod field_writing;
mod identifier;
mod initiate;
mod judging;
mod laws;
mod length;
mod release;
pub mod tag;
mod verdict;

pub use aare::{ACCEPTED, Aare, Info, REJECTED_PERMANENT};
pub use aare_reading::read_aare;
pub use aare_writing::write_aare;
pub use aarq::Aarq;
pub use aarq_making::low_level_aarq;
pub use aarq_reading::read_aarq;
pub use aarq_writing::write_aarq;
pub use conformance::Conformance;
pub use fault::AcseFault;
pub use judging::{MANAGEMENT_CLIENT, MAX_PASSWORD, OFFERED_CONFORMANCE, PUBLIC_CLIENT, judge};
pub use laws::{
    management_needs_the_password, no_spelling_begins_another, release_is_normal,
    spelled_aare_is_fit, spelled_aarq_is_fit, text_of_fit_aare_spells, text_of_fit_aarq_spells,
    written_length_is_shortest,
};
pub use release::{RELEASE_REQUEST, RELEASE_RESPONSE, is_release};
pub use verdict::Verdict;
