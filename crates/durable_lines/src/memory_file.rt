//! `MemoryFile`: a durable file in memory whose crashes a test can choose.
ghost use Rattle.std.specs.Prelude.{◌≡◌, ◌≤◌, ◌-◌, ◌^◌, ◌++◌, ◌∷◌, [], ⊤, IfOk, OnOk, OnErr};
ghost use Rattle.std.specs.Prelude.{IsSomeAnd, Some, length, slice_get};
ghost use Rattle.durable_lines.specs.FileState.{seen_of, text_left_by, text_left_uncut, synced_with};
ghost use Rattle.durable_lines.specs.FileState.{IsLeft};
ghost use Rattle.durable_lines.specs.Moments.{past_model, ElapsesIn};
ghost use Rattle.durable_lines.specs.MemoryFile.{bytes_of, moment_of, states_of, syncs_left};
ghost use Rattle.durable_lines.specs.MemoryFile.{HasFailed};

use crate::byte_fate::ByteFate;
use crate::durable_file::DurableFile;
use crate::fault::FileFault;
use crate::file_state::FileState;
use std::alloc::{AllocError, Global};

/// A durable file in memory, for tests. It keeps its state at each moment, so that a test can see
/// what a crash at any of them leaves. A moment passes with each append, cut and sync that returns
/// `Ok`; they are counted from 0.
#[derive(Drop)]
pub struct MemoryFile {
    alloc: Global,
    state: FileState,
    past: Vec<FileState>,
    syncs_left: u64,
    has_failed: bool,
}

impl MemoryFile {
    /// Returns a file with these bytes, all of them on the disk. Its syncs never fail in practice:
    /// only sync number 18,446,744,073,709,551,616 does.
    pub fn new(alloc: Global, bytes: Vec<u8>) -> MemoryFile
        ensures bytes { bytes_of result ≡ bytes.items }
        ensures synced { states_of result ≡ synced_with bytes.items ∷ [] }
        ensures syncs { syncs_left result ≡ 2 ^ 64 - 1 }
        ensures unfailed { ¬ HasFailed result }
    {
        MemoryFile::failing_after(alloc, bytes, u64::MAX)
    }

    /// Returns a file with these bytes, all of them on the disk, that fails at the sync after
    /// `syncs` successful ones.
    pub fn failing_after(alloc: Global, bytes: Vec<u8>, syncs: u64) -> MemoryFile
        ensures bytes { bytes_of result ≡ bytes.items }
        ensures synced { states_of result ≡ synced_with bytes.items ∷ [] }
        ensures syncs { syncs_left result ≡ syncs }
        ensures unfailed { ¬ HasFailed result }
    {
        MemoryFile {
            alloc,
            state: FileState::synced_with(alloc, bytes),
            past: Vec::new(alloc),
            syncs_left: syncs,
            has_failed: false,
        }
    }

    /// Returns the number of the present moment: that of the changes and syncs so far.
    pub fn moment(&self) -> usize
        ensures { result ≡ moment_of self.now }
    {
        self.past.len()
    }

    /// Returns the bytes that the file has at present.
    pub fn bytes(&self) -> Result<Vec<u8>, AllocError>
        ensures { IfOk result (λ bytes. bytes.items ≡ bytes_of self.now) }
    {
        self.state.bytes(self.alloc)
    }

    /// Returns the number of bytes that at a moment were appended and not synced.
    pub fn unsynced_len(&self, moment: usize) -> usize
        requires { moment ≤ moment_of self.now }
        ensures { IsSomeAnd (slice_get (states_of self.now) moment) (λ s. result ≡ length s.added) }
    {
        self.state_at(moment).added_len()
    }

    /// Returns the bytes that a crash at a moment leaves if all cuts are on the disk, and if the
    /// crash makes this of the bytes that were appended and not synced, from the first on. A byte
    /// without a fate is missing.
    pub fn after_crash(&self, moment: usize, fates: &[ByteFate]) -> Result<Vec<u8>, AllocError>
        requires { moment ≤ moment_of self.now }
        ensures bytes { IfOk result (λ left. IsSomeAnd (slice_get (states_of self.now) moment)
            (λ s. left.items ≡ text_left_by fates.now s)) }
        ensures possible { IfOk result (λ left.
            IsSomeAnd (slice_get (states_of self.now) moment) (λ s. IsLeft s left.items)) }
    {
        self.state_at(moment).torn(self.alloc, fates)
    }

    /// Returns the bytes that a crash at a moment leaves if the cuts since the last sync are not on
    /// the disk, or only in part: the first `len` of the synced bytes, but no fewer than the cuts
    /// left.
    pub fn after_undone_cut(&self, moment: usize, len: usize) -> Result<Vec<u8>, AllocError>
        requires { moment ≤ moment_of self.now }
        ensures bytes { IfOk result (λ left. IsSomeAnd (slice_get (states_of self.now) moment)
            (λ s. left.items ≡ text_left_uncut len s)) }
        ensures possible { IfOk result (λ left.
            IsSomeAnd (slice_get (states_of self.now) moment) (λ s. IsLeft s left.items)) }
    {
        self.state_at(moment).uncut(self.alloc, len)
    }

    // Returns the present state.
    pub(crate) fn state(&self) -> &FileState
        ensures { result.now ≡ self.now.state }
    {
        &self.state
    }

    // Returns the state at a moment.
    fn state_at(&self, moment: usize) -> &FileState
        requires { moment ≤ moment_of self.now }
        ensures { slice_get (states_of self.now) moment ≡ Some result.now }
    {
        match self.past.get(moment) {
            Some(state) => state,
            None => &self.state,
        }
    }
}

// Replaces the state, and keeps the one before.
#[tactic(auto, using(crate::proofs::PastLemmas::changes))]
fn replace(
    alloc: Global,
    state: &mut FileState,
    past: &mut Vec<FileState>,
    next: FileState,
) -> Result<(), AllocError>
    ensures state { OnOk result (state.new ≡ next) }
    ensures unchanged { OnErr result (state.new ≡ state.old) }
    ensures time { ElapsesIn IsLeft past.old.items state.old past.new.items state.new }
{
    past.push(state.copy(alloc)?)?;
    *state = next;
    Ok(())
}

impl DurableFile for MemoryFile {
    ghost model = { past_model IsLeft seen_of (λ m. m.state) (λ m. m.past.items) HasFailed };

    #[tactic(auto, using(crate::proofs::StateLemmas::file_steps))]
    fn read(&mut self, alloc: Global) -> Result<Vec<u8>, FileFault> {
        if self.has_failed {
            return Err(FileFault::Failed);
        }
        Ok(self.state.bytes(alloc)?)
    }

    #[tactic(auto, using(crate::proofs::StateLemmas::file_steps))]
    fn append(&mut self, bytes: &[u8]) -> Result<(), FileFault> {
        if self.has_failed {
            return Err(FileFault::Failed);
        }
        let next = self.state.with_added(self.alloc, bytes)?;
        Ok(replace(self.alloc, &mut self.state, &mut self.past, next)?)
    }

    #[tactic(auto, using(crate::proofs::StateLemmas::file_steps))]
    fn cut(&mut self, len: usize) -> Result<(), FileFault> {
        if self.has_failed {
            return Err(FileFault::Failed);
        }
        let next = self.state.with_cut(self.alloc, len)?;
        Ok(replace(self.alloc, &mut self.state, &mut self.past, next)?)
    }

    #[tactic(auto, using(crate::proofs::StateLemmas::file_steps))]
    fn sync(&mut self) -> Result<(), FileFault> {
        if self.has_failed {
            return Err(FileFault::Failed);
        }
        let Some(syncs_left) = self.syncs_left.checked_sub(1) else {
            self.has_failed = true;
            return Err(FileFault::Failed);
        };
        let next = FileState::synced_with(self.alloc, self.state.bytes(self.alloc)?);
        replace(self.alloc, &mut self.state, &mut self.past, next)?;
        self.syncs_left = syncs_left;
        Ok(())
    }
}
