//! Blocks of power samples and their masks: which samples are over a limiter's threshold and which
//! under it, one bit for each sample. A limiter monitors a value against a threshold (IEC
//! 62056-6-2, class 71), and takes whole runs of samples on one side of it from these masks.
#![tactic(auto)]

mod lanes;
mod runs;
mod samples;

pub use lanes::{Masks, classify, classify_plain};
pub use runs::run_from;
pub use samples::{Block, BlockMade, MAX_VALUES, Scan, Scans};
