//! `MemoryPlace`: a name in memory whose file can be replaced, with crashes that a test can choose.
ghost use Rattle.std.specs.Prelude.{◌≡◌, ◌≤◌, ◌++◌, ◌∷◌, [], IfOk, OnErr, OnOk, IsSomeAnd, List};
ghost use Rattle.std.specs.Prelude.{None, Some, length, slice_get, ℕ, ⊤};
ghost use Rattle.durable_lines.specs.FileState.{after_append, after_cut, text_left_by, seen_of};
ghost use Rattle.durable_lines.specs.FileState.{synced_with, IsLeft};
ghost use Rattle.durable_lines.specs.MemoryPlace.{file_after, moment_of, name_of, states_of};
ghost use Rattle.durable_lines.specs.MemoryPlace.{MayBeLeft};
ghost use Rattle.durable_lines.specs.Moments.{past_model, ElapsesIn};

use crate::byte_fate::ByteFate;
use crate::durable_file::DurableFile;
use crate::fault::FileFault;
use crate::file_state::FileState;
use crate::memory_file::MemoryFile;
use crate::place::Place;
use std::alloc::{AllocError, Global};

// The file that has the name, and the one that had it if the rename is not on the disk.
#[derive(Drop)]
pub(crate) struct PlaceState {
    current: FileState,
    previous: Option<FileState>,
}

impl PlaceState {
    // Returns a state with this file and a copy of the one that had the name before.
    fn with_current(&self, alloc: Global, current: FileState) -> Result<PlaceState, AllocError>
        ensures { IfOk result (λ next. next
            ≡ record { current = current; previous = self.now.previous }) }
    {
        match &self.previous {
            Some(file) => Ok(PlaceState {
                current,
                previous: Some(file.copy(alloc)?),
            }),
            None => Ok(PlaceState {
                current,
                previous: None,
            }),
        }
    }

    // Returns a copy of the state.
    fn copy(&self, alloc: Global) -> Result<PlaceState, AllocError>
        ensures { IfOk result (λ copy. copy ≡ self.now) }
    {
        let current = self.current.copy(alloc)?;
        self.with_current(alloc, current)
    }

    // Returns the state after an append to the file that has the name.
    fn with_added(&self, alloc: Global, bytes: &[u8]) -> Result<PlaceState, AllocError>
        ensures { IfOk result (λ next. next ≡ record {
          current = after_append bytes.now self.now.current;
          previous = self.now.previous;
        }) }
    {
        let current = self.current.with_added(alloc, bytes)?;
        self.with_current(alloc, current)
    }

    // Returns the state after a cut of the file that has the name.
    fn with_cut(&self, alloc: Global, len: usize) -> Result<PlaceState, AllocError>
        ensures state { IfOk result (λ next. next ≡ record {
          current = after_cut len self.now.current;
          previous = self.now.previous;
        }) }
        ensures within { OnOk result (self.now.current.kept ≤ length self.now.current.synced) }
    {
        let current = self.current.with_cut(alloc, len)?;
        self.with_current(alloc, current)
    }

    // Returns the state after a rename that is not on the disk.
    fn renamed(&self, alloc: Global, draft: &FileState) -> Result<PlaceState, AllocError>
        ensures { IfOk result (λ next. next
            ≡ record { current = draft.now; previous = Some self.now.current }) }
    {
        let current = draft.copy(alloc)?;
        let previous = Some(self.current.copy(alloc)?);
        Ok(PlaceState { current, previous })
    }

    // Returns the file that has the name after a crash.
    fn file(&self, is_renamed: bool) -> &FileState
        ensures file { result.now ≡ file_after is_renamed self.now }
        ensures possible { (c : List ℕ) → IsLeft result.now c → MayBeLeft self.now c }
    {
        match &self.previous {
            Some(file) if !is_renamed => file,
            _ => &self.current,
        }
    }
}

/// A name in memory, for tests. It keeps its state at each moment, so that a test can see what a
/// crash at any of them leaves under the name. A moment passes with each append, cut, rename and
/// sync, of the file or of the folder, that returns `Ok`; they are counted from 0.
#[derive(Drop)]
pub struct MemoryPlace {
    alloc: Global,
    state: PlaceState,
    past: Vec<PlaceState>,
}

impl MemoryPlace {
    /// Returns a name whose file has these bytes, all of them on the disk.
    pub fn new(alloc: Global, bytes: Vec<u8>) -> MemoryPlace
        ensures { states_of result
            ≡ record { current = synced_with bytes.items; previous = None } ∷ [] }
    {
        MemoryPlace {
            alloc,
            state: PlaceState {
                current: FileState::synced_with(alloc, bytes),
                previous: None,
            },
            past: Vec::new(alloc),
        }
    }

    /// Returns a name whose file has got it by a rename that is not on the disk, as a process that
    /// was killed may leave it: `bytes` are those of the file, `previous` those of the file that a
    /// crash may leave under the name. The bytes of both are on the disk.
    pub fn after_rename(alloc: Global, bytes: Vec<u8>, previous: Vec<u8>) -> MemoryPlace
        ensures { states_of result ≡ record {
          current = synced_with bytes.items;
          previous = Some (synced_with previous.items);
        } ∷ [] }
    {
        MemoryPlace {
            alloc,
            state: PlaceState {
                current: FileState::synced_with(alloc, bytes),
                previous: Some(FileState::synced_with(alloc, previous)),
            },
            past: Vec::new(alloc),
        }
    }

    /// Returns the bytes of the file that has the name.
    pub fn bytes(&self) -> Result<Vec<u8>, AllocError>
        ensures { IfOk result (λ bytes. bytes.items ≡ seen_of (name_of self.now)) }
    {
        self.state.current.bytes(self.alloc)
    }

    /// Returns the number of the present moment: that of the changes and syncs so far.
    pub fn moment(&self) -> usize
        ensures { result ≡ moment_of self.now }
    {
        self.past.len()
    }

    /// Returns the bytes that a crash at a moment leaves under the name: those of the file that had
    /// it, if a rename is not on the disk and `is_renamed` is false, else those of the file that
    /// has it. `fates` are those of its bytes that were appended and not synced.
    pub fn after_crash(
        &self,
        moment: usize,
        is_renamed: bool,
        fates: &[ByteFate],
    ) -> Result<Vec<u8>, AllocError>
        requires { moment ≤ moment_of self.now }
        ensures bytes { IfOk result (λ left. IsSomeAnd (slice_get (states_of self.now) moment)
            (λ s. left.items ≡ text_left_by fates.now (file_after is_renamed s))) }
        ensures possible { IfOk result (λ left.
            IsSomeAnd (slice_get (states_of self.now) moment) (λ s. MayBeLeft s left.items)) }
    {
        self.state_at(moment)
            .file(is_renamed)
            .torn(self.alloc, fates)
    }

    // Returns the state at a moment.
    fn state_at(&self, moment: usize) -> &PlaceState
        requires { moment ≤ moment_of self.now }
        ensures { slice_get (states_of self.now) moment ≡ Some result.now }
    {
        match self.past.get(moment) {
            Some(state) => state,
            None => &self.state,
        }
    }
}

// Replaces the state, and keeps the one before.
#[tactic(auto, using(crate::proofs::PastLemmas::changes))]
fn change(
    alloc: Global,
    state: &mut PlaceState,
    past: &mut Vec<PlaceState>,
    next: PlaceState,
) -> Result<(), AllocError>
    ensures state { OnOk result (state.new ≡ next) }
    ensures unchanged { OnErr result (state.new ≡ state.old) }
    ensures time { ElapsesIn MayBeLeft past.old.items state.old past.new.items state.new }
{
    past.push(state.copy(alloc)?)?;
    *state = next;
    Ok(())
}

impl DurableFile for MemoryPlace {
    ghost model = { past_model MayBeLeft (λ s. seen_of s.current) (λ p. p.state)
        (λ p. p.past.items) (λ _. ⊥) };

    #[tactic(auto, using(crate::proofs::PlaceLemmas::place_steps))]
    fn read(&mut self, alloc: Global) -> Result<Vec<u8>, FileFault> {
        Ok(self.state.current.bytes(alloc)?)
    }

    #[tactic(auto, using(crate::proofs::PlaceLemmas::place_steps))]
    fn append(&mut self, bytes: &[u8]) -> Result<(), FileFault> {
        let next = self.state.with_added(self.alloc, bytes)?;
        Ok(change(self.alloc, &mut self.state, &mut self.past, next)?)
    }

    #[tactic(auto, using(crate::proofs::PlaceLemmas::place_steps))]
    fn cut(&mut self, len: usize) -> Result<(), FileFault> {
        let next = self.state.with_cut(self.alloc, len)?;
        Ok(change(self.alloc, &mut self.state, &mut self.past, next)?)
    }

    #[tactic(auto, using(crate::proofs::PlaceLemmas::place_steps))]
    fn sync(&mut self) -> Result<(), FileFault> {
        let bytes = self.state.current.bytes(self.alloc)?;
        let next = PlaceState {
            current: FileState::synced_with(self.alloc, bytes),
            previous: None,
        };
        Ok(change(self.alloc, &mut self.state, &mut self.past, next)?)
    }
}

impl Place for MemoryPlace {
    type Draft = MemoryFile;

    ghost named = { λ p c. IsLeft (name_of p) c };

    ghost drafts_act = { λ acts. acts };

    #[tactic(auto, using(crate::proofs::PlaceLemmas::place_steps))]
    fn create_draft(&mut self) -> Result<MemoryFile, FileFault> {
        Ok(MemoryFile::new(self.alloc, Vec::new(self.alloc)))
    }

    #[tactic(auto, using(crate::proofs::PlaceLemmas::place_steps))]
    fn rename(&mut self, draft: MemoryFile) -> Result<(), FileFault> {
        let renamed = self.state.renamed(self.alloc, draft.state());
        drop(draft);
        let next = renamed?;
        Ok(change(self.alloc, &mut self.state, &mut self.past, next)?)
    }

    #[tactic(auto, using(crate::proofs::PlaceLemmas::place_steps))]
    fn sync_folder(&mut self) -> Result<(), FileFault> {
        let next = PlaceState {
            current: self.state.current.copy(self.alloc)?,
            previous: None,
        };
        Ok(change(self.alloc, &mut self.state, &mut self.past, next)?)
    }
}
