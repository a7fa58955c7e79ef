//! `Ledger`: gives the permits for the commands of one run of a campaign.
ghost use Rattle.std.specs.Prelude.{◌≡◌, ◌≢◌, ◌<◌, ℕ, [], false, length, IsTrue, IfOk, IfErr};
ghost use Rattle.std.specs.Prelude.{IfSome, IfNone, IsErrOf, OnOk, OnErr, Ok, None};
ghost use Rattle.client_core.specs.declared.job.Outcome.{Outcome};
ghost use Rattle.campaign_ledger.specs.declared.entry.LedgerEntry.TheVariants.{NotSent, MaybeSent};
ghost use Rattle.campaign_ledger.specs.declared.entry.LedgerEntry.TheVariants.{Came};
ghost use Rattle.campaign_ledger.specs.declared.fault.LedgerFault.TheVariants.{Failed};
ghost use Rattle.campaign_ledger.specs.Entries.{HasCome, HasGone, entry_at, entry_after_begin};
ghost use Rattle.campaign_ledger.specs.Grants.{LedgerState, permits_in, Grants};

use crate::book::Book;
use crate::entry::LedgerEntry;
use crate::fault::LedgerFault;
use crate::permit::Permit;
use client_core::Outcome;
use std::marker::Model;

/// The ledger of a campaign during one run. Contracts see its book, the entry of each place, and
/// whether a call has failed.
///
/// A place without an entry gets no permit. After a call failed, every later call returns `Failed`.
#[derive(Drop)]
pub struct Ledger<B: Book> {
    book: B,
    entries: Vec<LedgerEntry>,
    has_failed: bool,
}

impl<B: Book> Model for Ledger<B> {
    ghost use Rattle.campaign_ledger.specs.Grants.{LedgerState};

    ghost Value = { LedgerState B };

    ghost view = { λ ledger. record {
      book = ledger.book;
      entries = ledger.entries.items;
      has_failed = ledger.has_failed;
    } };
}

impl<B: Book> Ledger<B> {
    /// Returns the ledger of a run that has this book and found these entries in it, one for each
    /// job of the campaign.
    pub fn new(book: B, entries: Vec<LedgerEntry>) -> Ledger<B>
        ensures book { result.book ≡ book }
        ensures entries { result.entries ≡ entries.items }
        ensures unfailed { result.has_failed ≡ false }
    {
        Ledger {
            book,
            entries,
            has_failed: false,
        }
    }

    /// Returns the book in which the ledger stores its entries.
    pub fn book(&self) -> &B
        ensures { result.now ≡ self.now.book }
    {
        &self.book
    }

    /// Returns the entries, one for each place.
    pub fn entries(&self) -> &[LedgerEntry]
        ensures { result.now ≡ self.now.entries }
    {
        self.entries.as_slice()
    }

    /// Returns the number of places.
    pub fn len(&self) -> usize
        ensures { result ≡ length self.now.entries }
    {
        self.entries.len()
    }

    /// Returns whether a call has failed.
    pub fn has_failed(&self) -> bool
        ensures { result ≡ self.now.has_failed }
    {
        self.has_failed
    }

    /// Returns the entry of a place: `MaybeSent` if the campaign has no such place.
    pub fn entry(&self, place: u32) -> LedgerEntry
        ensures { result ≡ entry_at self.now.entries place }
    {
        match self.entries.get(place as usize) {
            Some(entry) => *entry,
            None => LedgerEntry::MaybeSent,
        }
    }

    /// Asks for the permit to send the command of a place.
    ///
    /// The book has marked the place before the permit is returned. Returns `None` if the command
    /// may have been sent before, or the campaign has no such place. Of a place whose entry says
    /// `NotSent` that means that the book had its mark; for any other place nothing changes. After
    /// an error no entry is changed, but the place may be marked in the book.
    pub fn begin(&mut self, place: u32) -> Result<Option<Permit>, LedgerFault>
        ensures grants { Grants B.is_honest B.is_marked self.old self.new (permits_in result) }
        ensures permit { IfOk result (λ given. IfSome given (λ permit. permit ≡ place)) }
        ensures refused { IfOk result (λ given. IfNone given
            (HasGone (entry_at self.new.entries place))) }
        ensures taken { B.is_honest self.new.book → IfOk result (λ given. IfNone given
            (entry_at self.old.entries place ≡ NotSent → B.is_marked self.old.book place)) }
        ensures remains_kept { B.is_honest self.new.book → (other : ℕ) (kept : Outcome)
            → B.keeps self.old.book other kept → B.keeps self.new.book other kept }
        ensures entry { OnOk result (entry_at self.new.entries place
            ≡ entry_after_begin (entry_at self.old.entries place)) }
        ensures known { self.old.has_failed ≡ false → entry_at self.old.entries place ≢ NotSent
            → (result ≡ Ok None) × (self.new ≡ self.old) }
        ensures unfailed { OnOk result (self.new.has_failed ≡ false) }
        ensures others { (other : ℕ) → other ≢ place
            → entry_at self.new.entries other ≡ entry_at self.old.entries other }
        ensures len { length self.new.entries ≡ length self.old.entries }
        ensures unchanged_on_error { OnErr result (self.new.entries ≡ self.old.entries) }
        ensures failed { OnErr result (IsTrue self.new.has_failed) }
        ensures remains_failed { IsTrue self.old.has_failed → IsErrOf result Failed }
    {
        if self.has_failed {
            return Err(LedgerFault::Failed);
        }
        if !matches!(self.entry(place), LedgerEntry::NotSent) {
            return Ok(None);
        }
        match self.book.mark(place) {
            Ok(is_new) => {
                self.entries[place as usize] = LedgerEntry::MaybeSent;
                Ok(if is_new {
                    Some(Permit::new(place))
                } else {
                    None
                })
            }
            Err(fault) => {
                self.has_failed = true;
                Err(fault)
            }
        }
    }

    /// Stores the outcome of a place in the book. Fails if an outcome of the place is known: the
    /// first one is never replaced. After an error no entry is changed, but the outcome may be in
    /// the book.
    pub fn record(&mut self, place: u32, outcome: Outcome) -> Result<(), LedgerFault>
        requires { place < length self.old.entries }
        ensures grants { Grants B.is_honest B.is_marked self.old self.new [] }
        ensures recorded { B.is_honest self.new.book
            → OnOk result (B.keeps self.new.book place outcome) }
        ensures remains_kept { B.is_honest self.new.book → (other : ℕ) (kept : Outcome)
            → other ≢ place → B.keeps self.old.book other kept → B.keeps self.new.book other kept }
        ensures first { OnOk result (¬ HasCome (entry_at self.old.entries place)) }
        ensures entry { OnOk result (entry_at self.new.entries place ≡ Came outcome) }
        ensures unfailed { OnOk result (self.new.has_failed ≡ false) }
        ensures others { (other : ℕ) → other ≢ place
            → entry_at self.new.entries other ≡ entry_at self.old.entries other }
        ensures len { length self.new.entries ≡ length self.old.entries }
        ensures unchanged_on_error { OnErr result (self.new.entries ≡ self.old.entries) }
        ensures failed { OnErr result (IsTrue self.new.has_failed) }
        ensures remains_failed { IsTrue self.old.has_failed → IsErrOf result Failed }
    {
        if self.has_failed {
            return Err(LedgerFault::Failed);
        }
        if matches!(self.entry(place), LedgerEntry::Came(_)) {
            self.has_failed = true;
            return Err(LedgerFault::Failed);
        }
        match self.book.record(place, outcome) {
            Ok(()) => {
                self.entries[place as usize] = LedgerEntry::Came(outcome);
                Ok(())
            }
            Err(fault) => {
                self.has_failed = true;
                Err(fault)
            }
        }
    }

    /// Drops the ledger, and returns the book in which it stored its entries.
    pub fn into_book(self) -> B
        ensures { result ≡ self.book }
    {
        let Ledger { book, entries, .. } = self;
        drop(entries);
        book
    }

    /// Drops the ledger, and returns its book and its entries.
    pub fn into_parts(self) -> (B, Vec<LedgerEntry>)
        ensures book { result.0 ≡ self.book }
        ensures entries { result.1.items ≡ self.entries }
    {
        let Ledger { book, entries, .. } = self;
        (book, entries)
    }
}
