//! The journal of a meter with its relay, before a run and after it.
use crate::fault::JournalFault;
use crate::relay::{Relay, SupplyOutput};
use crate::worker::FailureAction;
use durable_lines::DurableFile;

/// What the events of a meter go to: the file of its journal, and its relay.
#[derive(Drop)]
pub struct JournalParts<F: DurableFile, W: SupplyOutput> {
    /// The file. That of a meter with a relay alone is [`NoFile`](crate::NoFile).
    pub file: F,
    /// The relay, if there is one.
    pub relay: Option<Relay<W>>,
}

/// The journal of a meter.
#[derive(Drop)]
pub struct MeterJournal<F: DurableFile, W: SupplyOutput, A: FailureAction> {
    /// The file, which has whole lines, all of them on the disk, and the relay, which was given the
    /// supply output at the start.
    pub parts: JournalParts<F, W>,
    /// What is done if the journal or the relay fails, such as to end the listening.
    pub on_failure: A,
}

/// How the worker of a journal ended.
#[derive(Drop)]
pub struct JournalEnd<F: DurableFile, W: SupplyOutput> {
    /// The file and the relay.
    pub parts: JournalParts<F, W>,
    /// The number of lines of the history, all of which the file has, or why the journal failed.
    pub saved: Result<u64, JournalFault>,
}
