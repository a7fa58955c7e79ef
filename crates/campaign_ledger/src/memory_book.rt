//! `MemoryBook`: a book in memory, for tests.
ghost use Rattle.std.specs.Prelude.{◌≡◌, ◌-◌, ◌^◌, ⊤, false, OnOk};
ghost use Rattle.campaign_ledger.specs.Entries.{entry_at};
ghost use Rattle.campaign_ledger.specs.MemoryBook.{EntersMarks, EntersOutcomes};
ghost use Rattle.campaign_ledger.specs.MemoryBook.{LeavesEntries, IsMarked, IsKept};
ghost use Rattle.campaign_ledger.specs.MemoryBook.{left_marked, left_kept};

use crate::book::{Book, PlaceOutcome};
use crate::entry::LedgerEntry;
use crate::fault::LedgerFault;
use client_core::Outcome;
use std::marker::Model;

/// A book in memory, for tests: a crash leaves its entries. Contracts see the entries, the number
/// of calls before one fails, and whether one failed.
#[derive(Drop)]
pub struct MemoryBook {
    entries: Vec<LedgerEntry>,
    calls_left: u64,
    has_failed: bool,
}

impl Model for MemoryBook {
    ghost use Rattle.campaign_ledger.specs.MemoryBook.{MemoryState};

    ghost Value = { MemoryState };

    ghost view = { λ book. record {
      entries = book.entries.items;
      calls_left = book.calls_left;
      has_failed = book.has_failed;
    } };
}

impl MemoryBook {
    /// Returns a book with these entries. Its calls never fail in practice: only call number
    /// 18,446,744,073,709,551,616 does.
    pub fn new(entries: Vec<LedgerEntry>) -> MemoryBook
        ensures entries { result.entries ≡ entries.items }
        ensures calls { result.calls_left ≡ 2 ^ 64 - 1 }
        ensures unfailed { result.has_failed ≡ false }
    {
        MemoryBook::failing_after(entries, u64::MAX)
    }

    /// Returns a book with these entries whose calls fail after this number of successful ones.
    pub fn failing_after(entries: Vec<LedgerEntry>, calls: u64) -> MemoryBook
        ensures entries { result.entries ≡ entries.items }
        ensures calls { result.calls_left ≡ calls }
        ensures unfailed { result.has_failed ≡ false }
    {
        MemoryBook {
            entries,
            calls_left: calls,
            has_failed: false,
        }
    }

    /// Returns the entries that a crash leaves.
    pub fn into_entries(self) -> Vec<LedgerEntry>
        ensures { result.items ≡ self.entries }
    {
        self.entries
    }

    // Counts a call of the book. Fails if no more calls are left, or one has failed.
    fn count_call(&mut self) -> Result<(), LedgerFault>
        ensures entries { self.new.entries ≡ self.old.entries }
    {
        match self.calls_left.checked_sub(1) {
            Some(calls) if !self.has_failed => {
                self.calls_left = calls;
                Ok(())
            }
            _ => {
                self.has_failed = true;
                Err(LedgerFault::Failed)
            }
        }
    }
}

// Returns the entry of a place in a list: `MaybeSent` if it has no such place.
fn entry_in(entries: &[LedgerEntry], place: u32) -> LedgerEntry
    ensures { result ≡ entry_at entries.now place }
{
    match entries.get(place as usize) {
        Some(entry) => *entry,
        None => LedgerEntry::MaybeSent,
    }
}

// Marks places: the entry of each was `NotSent`. Fails if it was not, also by an earlier one of
// these places.
fn enter_marks(entries: &mut Vec<LedgerEntry>, marks: &[u32]) -> Result<(), LedgerFault>
    ensures { OnOk result (EntersMarks marks.now entries.old.items entries.new.items) }
{
    'marks: for place in marks {
        if entry_in(entries, *place) != LedgerEntry::NotSent {
            return Err(LedgerFault::Failed);
        }
        entries[*place as usize] = LedgerEntry::MaybeSent;
    }
    Ok(())
}

// Sets the entries of places to their outcomes: none had one. Fails if one had, also by an earlier
// one of these outcomes.
fn enter_outcomes(
    entries: &mut Vec<LedgerEntry>,
    outcomes: &[PlaceOutcome],
) -> Result<(), LedgerFault>
    ensures { OnOk result (EntersOutcomes outcomes.now entries.old.items entries.new.items) }
{
    'outcomes: for ended in outcomes {
        let place = ended.place as usize;
        if place >= entries.len()
            || matches!(entry_in(entries, ended.place), LedgerEntry::Came(_))
        {
            return Err(LedgerFault::Failed);
        }
        entries[place] = LedgerEntry::Came(ended.outcome);
    }
    Ok(())
}

impl Book for MemoryBook {
    ghost is_honest = { λ _. ⊤ };

    ghost may_leave = { λ book left. LeavesEntries book.entries left };

    ghost is_marked = { λ book place. IsMarked book.entries place };

    ghost keeps = { λ book place outcome. IsKept book.entries place outcome };

    ghost stays_marked = { λ book place left marked leaves.
        left_marked book.entries place left marked leaves };

    ghost stays_kept = { λ book place outcome left marked kept leaves.
        left_kept book.entries place outcome left kept leaves };

    fn mark(&mut self, place: u32) -> Result<bool, LedgerFault> {
        self.count_call()?;
        match self.entries.get_mut(place as usize) {
            Some(entry) => {
                let is_new = matches!(entry, LedgerEntry::NotSent);
                if is_new {
                    *entry = LedgerEntry::MaybeSent;
                }
                Ok(is_new)
            }
            None => Ok(false),
        }
    }

    fn record(&mut self, place: u32, outcome: Outcome) -> Result<(), LedgerFault> {
        self.count_call()?;
        match self.entries.get_mut(place as usize) {
            Some(entry) => {
                *entry = LedgerEntry::Came(outcome);
                Ok(())
            }
            None => {
                self.has_failed = true;
                Err(LedgerFault::Failed)
            }
        }
    }

    fn commit(&mut self, marks: &[u32], outcomes: &[PlaceOutcome]) -> Result<(), LedgerFault> {
        self.count_call()?;
        self.has_failed = true;
        let alloc = *self.entries.allocator();
        let Ok(mut entries) = Vec::from_slice(alloc, self.entries.as_slice()) else {
            return Err(LedgerFault::Memory);
        };
        enter_marks(&mut entries, marks)?;
        enter_outcomes(&mut entries, outcomes)?;
        self.entries = entries;
        self.has_failed = false;
        Ok(())
    }
}
