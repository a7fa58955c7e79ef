//! Builds the board of a campaign that has not begun.
ghost use Rattle.std.specs.Prelude.{◌≡◌, ◌≤◌, ◌<◌, ◌^◌, length, replicate, IfOk};
ghost use Rattle.campaign_ledger.specs.declared.entry.LedgerEntry.TheVariants.{NotSent};
ghost use Rattle.campaign_board.specs.Building.{AreBeforeOf, AreNew};

use crate::board::Board;
use crate::place::BoardPlace;
use crate::places::entry_of;
use campaign_ledger::{Book, LedgerEntry};
use client_core::Job;
use std::alloc::{AllocError, Global};
use std::collections::HashMap;

/// Returns the entries of a campaign without a ledger: the command of no job was sent.
pub fn blank_entries(alloc: Global, count: usize) -> Result<Vec<LedgerEntry>, AllocError>
    ensures { IfOk result (λ entries. entries.items ≡ replicate count NotSent) }
{
    let mut entries = Vec::new(alloc);
    entries.resize(count, LedgerEntry::NotSent)?;
    Ok(entries)
}

// Returns places whose jobs wait.
fn new_places(alloc: Global, count: usize) -> Result<Vec<BoardPlace>, AllocError>
    ensures { IfOk result (λ places. AreNew count places.items) }
{
    let mut places = Vec::with_capacity(alloc, count)?;
    'places: for _made in 0..count {
        places.push(BoardPlace::new())?;
    }
    Ok(places)
}

// Returns for each job the last earlier one of its address that has to be run: the last one whose
// place came before, by the map from addresses to places.
fn find_before(
    alloc: Global,
    jobs: &[Job],
    found: &[LedgerEntry],
) -> Result<Vec<Option<u32>>, AllocError>
    requires { length jobs.now ≤ 2 ^ 32 }
    ensures { IfOk result (λ before. AreBeforeOf jobs.now found.now before.items) }
{
    let mut before = Vec::with_capacity(alloc, jobs.len())?;
    let mut last: HashMap<&[u8], u32> = HashMap::new(alloc);
    for at in 0..jobs.len() {
        let address = jobs[at].address.as_slice();
        let earlier = match entry_of(found, at) {
            LedgerEntry::NotSent => last.insert(address, at as u32)?,
            _ => last.get(&address).copied(),
        };
        before.push(earlier)?;
    }
    Ok(before)
}

impl<B: Book> Board<B> {
    ghost use Rattle.campaign_board.specs.Boards.{IsNewBoard};

    /// Returns the board of a campaign with these jobs, none of which has begun.
    ///
    /// `found` has the entry that the book has of each job: one whose command may have been sent
    /// is never begun. At most `limit` connections are open at a time.
    pub fn new(
        alloc: Global,
        book: B,
        jobs: &[Job],
        found: Vec<LedgerEntry>,
        limit: usize,
    ) -> Result<Board<B>, AllocError>
        requires { length jobs.now ≤ 2 ^ 32 }
        ensures board { IfOk result (IsNewBoard B.is_honest B.is_marked jobs.now found.items
            limit) }
        ensures book { IfOk result (λ board. board.book ≡ book) }
    {
        let places = new_places(alloc, jobs.len())?;
        let before = find_before(alloc, jobs, found.as_slice())?;
        Ok(Board::from_parts(alloc, book, places, found, before, limit))
    }
}
