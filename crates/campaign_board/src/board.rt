//! `Board`: all places of a campaign, and its book.
ghost use Rattle.std.specs.Prelude.{◌≡◌, ◌==◌, ◌++◌, ◌∷◌, [], ◌+◌, ◌<◌, ◌≤◌, length, slice_get};
ghost use Rattle.std.specs.Bool.{OnTrue};
ghost use Rattle.std.specs.Prelude.{vec_len, vec_capacity};
ghost use Rattle.acse_ber.specs.Password.{IsPassword};
ghost use Rattle.campaign_board.specs.Updates.{is_talking};

use crate::place::{BoardPlace, Ending};
use crate::places::{
    are_settled, clear_marked, end_at, ending_by, is_decided_at, is_not_sent, is_open_at, is_ready,
    is_waiting_at, keep_due, next_text_at, open_at, receive_at,
};
use crate::talk::Talk;
use campaign_ledger::{Book, LedgerEntry, LedgerFault, PlaceOutcome};
use client_core::{Job, Outcome};
use cosem_axdr::Octets;
use std::alloc::{AllocError, Global};
use std::marker::Model;
use std::mem;

/// The places of a campaign, one for each job, and the book of its ledger.
///
/// The board keeps what the history of the campaign may do: in contracts, `IsBoard` relates it to
/// the steps so far, and each call adds a step that may follow them.
#[derive(Drop)]
pub struct Board<B: Book> {
    book: B,
    places: Vec<BoardPlace>,
    found: Vec<LedgerEntry>,
    before: Vec<Option<u32>>,
    busy: usize,
    limit: usize,
    // The places whose requests waited for their marks when bytes came, in any order. It decides
    // which marks are committed next, and nothing is proved of it: each is tested again then.
    due: Vec<u32>,
    outcomes: Vec<PlaceOutcome>,
}

impl<B: Book> Model for Board<B> {
    ghost use Rattle.std.specs.Prelude.{◌+◌, ◌≤◌, vec_len, vec_capacity};
    ghost use Rattle.campaign_board.specs.Boards.{BoardState};

    ghost Value = { BoardState B };

    ghost view = { λ board. record {
      book = board.book;
      places = board.places.items;
      found = board.found.items;
      before = board.before.items;
      busy = board.busy;
      limit = board.limit;
      outcomes = board.outcomes.items;
    } };

    // Each open place has room for its outcome, so that no end fails.
    ghost invariant = { λ board.
        vec_len board.outcomes + board.busy ≤ vec_capacity board.outcomes };
}

// Appends an outcome to a list that has room for it.
fn store(outcomes: &mut Vec<PlaceOutcome>, outcome: PlaceOutcome)
    requires { vec_len outcomes.old < vec_capacity outcomes.old }
    ensures items { outcomes.new.items ≡ outcomes.old.items ++ outcome ∷ [] }
    ensures len { vec_len outcomes.new ≡ vec_len outcomes.old + 1 }
    ensures capacity { vec_capacity outcomes.old ≤ vec_capacity outcomes.new }
{
    let _stored = outcomes.push(outcome);
}

impl<B: Book> Board<B> {
    ghost use Rattle.campaign_board.specs.Boards.{Begins, Gives, Hears, Ends, Commits};
    ghost use Rattle.campaign_board.specs.Boards.{TellsEnding, IsSettled, KeepsBook};

    // Returns a board of these parts, without open connections and outcomes_since outcomes.
    pub(crate) fn from_parts(
        alloc: Global,
        book: B,
        places: Vec<BoardPlace>,
        found: Vec<LedgerEntry>,
        before: Vec<Option<u32>>,
        limit: usize,
    ) -> Board<B>
        ensures { result ≡ record {
          book = book;
          places = places.items;
          found = found.items;
          before = before.items;
          busy = 0;
          limit = limit;
          outcomes = [];
        } }
    {
        Board {
            book,
            places,
            found,
            before,
            busy: 0,
            limit,
            due: Vec::new(alloc),
            outcomes: Vec::new(alloc),
        }
    }

    /// Returns the number of places.
    pub fn len(&self) -> usize
        ensures { result ≡ length self.now.places }
    {
        self.places.len()
    }

    /// Returns whether no connection is open.
    pub fn is_idle(&self) -> bool
        ensures { result ≡ (self.now.busy == 0) }
    {
        self.busy == 0
    }

    /// Returns whether a further connection may be opened.
    pub fn has_room(&self) -> bool {
        self.busy < self.limit
    }

    /// Returns whether marks or outcomes wait to be committed.
    pub fn has_uncommitted(&self) -> bool {
        !self.due.is_empty() || !self.outcomes.is_empty()
    }

    /// Returns whether the connection of a place is open.
    pub fn is_open(&self, at: u32) -> bool
        ensures { result ≡ is_talking (slice_get self.now.places at) }
    {
        is_open_at(self.places.as_slice(), at as usize)
    }

    /// Returns whether a place is open, its bytes so far settle the outcome, and its request does
    /// not wait for its mark.
    pub fn is_decided(&self, at: u32) -> bool {
        is_decided_at(self.places.as_slice(), at as usize)
    }

    /// Returns the last earlier job of each place's address that has to be run.
    pub fn jobs_before(&self) -> &[Option<u32>]
        ensures { result.now ≡ self.now.before }
    {
        self.before.as_slice()
    }

    /// Returns the end of a place: the outcome of all its bytes once its connection is over, or the
    /// one found. A command that may have been sent before has the outcome `Unknown`.
    pub fn ending(&self, at: u32) -> Option<Ending>
        ensures { TellsEnding B.is_honest B.is_marked self.now at result }
    {
        ending_by(self.found.as_slice(), self.places.as_slice(), at as usize)
    }

    /// Returns whether each place has its outcome: no job is left to be run, and none is running.
    pub fn is_settled(&self) -> bool
        ensures { OnTrue result (IsSettled B.is_honest B.is_marked self.now) }
    {
        are_settled(self.found.as_slice(), self.places.as_slice())
    }

    /// Begins the job of a place, and returns whether it began: it may if it waits, its ledger's
    /// entry is `NotSent`, a connection is free, and the earlier jobs of its address that have to
    /// be run are over. The password has 1 to 32 bytes. If out of memory, nothing changes.
    pub fn begin(
        &mut self,
        alloc: Global,
        at: u32,
        job: &Job,
        password: &Octets,
    ) -> Result<bool, AllocError>
        requires { IsPassword password.now }
        ensures begins { Begins B.is_honest B.is_marked self.old at job.now password.now result
            self.new }
        ensures book { self.new.book ≡ self.old.book }
    {
        let at = at as usize;
        if self.busy >= self.limit {
            return Ok(false);
        }
        if !is_not_sent(self.found.as_slice(), at) {
            return Ok(false);
        }
        if !is_waiting_at(self.places.as_slice(), at) {
            return Ok(false);
        }
        if !is_ready(self.places.as_slice(), self.before.as_slice(), at) {
            return Ok(false);
        }
        self.outcomes.reserve(self.busy + 1)?;
        let talk = Talk::start(alloc, job, password)?;
        let talk = Box::new(alloc, talk)?;
        open_at(&mut self.places, at, talk);
        self.busy += 1;
        Ok(true)
    }

    /// Returns the next message for the meter of a place that may be sent now: `None` if none is
    /// due, if it is the request, which waits for its mark, or if the place is not open. Does not
    /// allocate.
    pub fn next_text(&mut self, at: u32) -> Option<Octets>
        ensures gives { Gives B.is_honest B.is_marked self.old at result self.new }
        ensures book { self.new.book ≡ self.old.book }
    {
        next_text_at(&mut self.places, at as usize)
    }

    /// Processes bytes of the meter of a place. If its request then waits for its mark, the mark is
    /// among those that are committed next. If out of memory, the bytes or the mark may be lost:
    /// end the conversation.
    pub fn receive(&mut self, alloc: Global, at: u32, bytes: &[u8]) -> Result<(), AllocError>
        ensures hears { Hears B.is_honest B.is_marked self.old at bytes.now result self.new }
        ensures book { self.new.book ≡ self.old.book }
    {
        match receive_at(&mut self.places, alloc, at as usize, bytes) {
            Ok(true) => match self.due.push(at) {
                Ok(()) => Ok(()),
                Err(_) => Err(AllocError),
            },
            Ok(false) => Ok(()),
            Err(_) => Err(AllocError),
        }
    }

    /// Ends the conversation of a place, and returns its outcome: that of all its bytes, or `None`
    /// if the place is not open. If its request was given, the outcome waits to be committed. Does
    /// not allocate.
    pub fn end(&mut self, at: u32) -> Option<Outcome>
        ensures ends { Ends B.is_honest B.is_marked self.old at result self.new }
        ensures book { self.new.book ≡ self.old.book }
    {
        if self.busy == 0 {
            return None;
        }
        match end_at(&mut self.places, at as usize) {
            Some(ending) => {
                self.busy -= 1;
                if ending.was_asked {
                    let outcome = ending.outcome;
                    store(&mut self.outcomes, PlaceOutcome { place: at, outcome });
                }
                Some(ending.outcome)
            }
            None => None,
        }
    }

    /// Commits the marks of the places whose requests wait for them, and all outcomes that wait, in
    /// one step: from then on these requests may be sent. Replaces `marked` by these places. After
    /// an error none of them is marked, their requests are never sent, and the outcomes still wait.
    pub fn commit(&mut self, marked: &mut Vec<u32>) -> Result<(), LedgerFault>
        ensures commits { Commits B.is_honest B.is_marked self.old marked.new.items result
            self.new }
        ensures kept { KeepsBook B.is_honest B.is_marked self.old.book self.new.book }
    {
        mem::swap(&mut self.due, marked);
        self.due.clear();
        keep_due(marked, self.places.as_slice());
        match self
            .book
            .commit(marked.as_slice(), self.outcomes.as_slice())
        {
            Ok(()) => {
                clear_marked(&mut self.places, marked.as_slice());
                self.outcomes.clear();
                Ok(())
            }
            Err(fault) => Err(fault),
        }
    }

    /// Drops the board, and returns its book.
    pub fn into_book(self) -> B
        ensures { result ≡ self.book }
    {
        let Board { book, .. } = self;
        book
    }
}
