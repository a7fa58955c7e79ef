//! `FileState`: a file in memory at one moment, with what was written since the last sync.
ghost use Rattle.std.specs.Prelude.{◌≡◌, ◌≤◌, ◌++◌, length, IfOk, OnOk};
ghost use Rattle.durable_lines.specs.FileState.{after_append, after_cut, text_left_by};
ghost use Rattle.durable_lines.specs.FileState.{text_left_uncut};
ghost use Rattle.durable_lines.specs.FileState.{seen_of, synced_with, torn_text, IsLeft};

use crate::byte_fate::ByteFate;
use std::alloc::{AllocError, Global};
use std::marker::Model;

// The bytes of the last sync, the number of them that no cut has removed, and the bytes appended
// after those.
#[derive(Drop)]
pub(crate) struct FileState {
    synced: Vec<u8>,
    kept: usize,
    added: Vec<u8>,
}

impl Model for FileState {
    ghost use Rattle.std.specs.Prelude.{◌≤◌, length};
    ghost use Rattle.durable_lines.specs.FileState.{State};

    ghost Value = { State };

    ghost view = { λ s. record { synced = s.synced.items; kept = s.kept; added = s.added.items } };

    ghost invariant = { λ s. s.kept ≤ length s.synced.items };
}

impl FileState {
    // Returns the state of a file that is synced with these bytes.
    pub(crate) fn synced_with(alloc: Global, bytes: Vec<u8>) -> FileState
        ensures { result ≡ synced_with bytes.items }
    {
        FileState {
            kept: bytes.len(),
            synced: bytes,
            added: Vec::new(alloc),
        }
    }

    // Returns a copy of the state.
    pub(crate) fn copy(&self, alloc: Global) -> Result<FileState, AllocError>
        ensures { IfOk result (λ copy. copy ≡ self.now) }
    {
        let synced = self.synced.to_vec(alloc)?;
        let added = self.added.to_vec(alloc)?;
        Ok(FileState {
            synced,
            kept: self.kept,
            added,
        })
    }

    // Returns the bytes that a read returns.
    pub(crate) fn bytes(&self, alloc: Global) -> Result<Vec<u8>, AllocError>
        ensures { IfOk result (λ bytes. bytes.items ≡ seen_of self.now) }
    {
        let mut bytes = self.synced[..self.kept].to_vec(alloc)?;
        bytes.extend_from_slice(&self.added)?;
        Ok(bytes)
    }

    // Returns the state after an append.
    pub(crate) fn with_added(&self, alloc: Global, bytes: &[u8]) -> Result<FileState, AllocError>
        ensures state { IfOk result (λ next. next ≡ after_append bytes.now self.now) }
    {
        let mut next = self.copy(alloc)?;
        next.added.extend_from_slice(bytes)?;
        Ok(next)
    }

    // Returns the state after a cut.
    pub(crate) fn with_cut(&self, alloc: Global, len: usize) -> Result<FileState, AllocError>
        ensures state { IfOk result (λ next. next ≡ after_cut len self.now) }
        ensures within { OnOk result (self.now.kept ≤ length self.now.synced) }
    {
        let mut next = self.copy(alloc)?;
        if len <= next.kept {
            next.kept = len;
            next.added.clear();
        } else {
            next.added.truncate(len - next.kept);
        }
        Ok(next)
    }

    // Returns what a crash leaves if the cuts are on the disk.
    pub(crate) fn torn(&self, alloc: Global, fates: &[ByteFate]) -> Result<Vec<u8>, AllocError>
        ensures bytes { IfOk result (λ left. left.items ≡ text_left_by fates.now self.now) }
        ensures possible { IfOk result (λ left. IsLeft self.now left.items) }
    {
        let mut left = self.synced[..self.kept].to_vec(alloc)?;
        append_torn(&mut left, fates, &self.added)?;
        Ok(left)
    }

    // Returns what a crash leaves if the cuts are not on the disk, or only in part.
    pub(crate) fn uncut(&self, alloc: Global, len: usize) -> Result<Vec<u8>, AllocError>
        ensures bytes { IfOk result (λ left. left.items ≡ text_left_uncut len self.now) }
        ensures possible { IfOk result (λ left. IsLeft self.now left.items) }
    {
        let len = len.max(self.kept).min(self.synced.len());
        self.synced[..len].to_vec(alloc)
    }

    // Returns the number of bytes that were appended since the last sync and not cut.
    pub(crate) fn added_len(&self) -> usize
        ensures { result ≡ length self.now.added }
    {
        self.added.len()
    }
}

// Appends the bytes that a crash leaves of some bytes, each of which has a fate.
fn append_torn(left: &mut Vec<u8>, fates: &[ByteFate], bytes: &[u8]) -> Result<(), AllocError>
    ensures { OnOk result (left.new.items ≡ left.old.items ++ torn_text fates.now bytes.now) }
{
    let mut fates = fates;
    let mut bytes = bytes;
    'bytes: while let [byte, next_bytes @ ..] = bytes {
        let [fate, next_fates @ ..] = fates else {
            return Ok(());
        };
        match fate {
            ByteFate::Kept => left.push(*byte)?,
            ByteFate::Zeroed => left.push(0)?,
            ByteFate::Missing => return Ok(()),
        }
        fates = next_fates;
        bytes = next_bytes;
    }
    Ok(())
}
