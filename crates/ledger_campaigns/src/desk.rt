//! `Desk`: a ledger as the value of a turn lock, which answers one request at each turn.
ghost use Rattle.std.specs.Prelude.{◌≡◌, [], ⊤, false};
ghost use Rattle.campaign_ledger.specs.Grants.{Grants};
ghost use Rattle.ledger_campaigns.specs.declared.request.LedgerRequest.TheVariants.{Begin, Record};
ghost use Rattle.ledger_campaigns.specs.Desks.{DeskState, IsAnswer, IsLegalHistory, Stands};
ghost use Rattle.ledger_campaigns.specs.Desks.{ledger_after, permits_of};

use crate::request::{LedgerAnswer, LedgerRequest};
use campaign_ledger::{Book, Ledger};
use client_core::Outcome;
use std::alloc::{AllocError, Global};
use std::marker::Model;
use std::snapshot::Snapshot;
use turn_lock::Turned;

/// A ledger that can be the value of a turn lock. Contracts see the ledger, and the ledger as it
/// was when this value was made.
#[derive(Drop)]
pub struct Desk<B: Book> {
    ledger: Ledger<B>,
    start: Snapshot<Ledger<B>>,
}

impl<B: Book> Model for Desk<B> {
    ghost use Rattle.ledger_campaigns.specs.Desks.{DeskState};

    ghost Value = { DeskState B };

    ghost view = { λ desk. record { ledger = desk.ledger; start = desk.start.value } };
}

impl<B: Book> Desk<B> {
    /// Wraps a ledger. Does not allocate.
    pub fn new(ledger: Ledger<B>) -> Desk<B>
        ensures ledger { result.ledger ≡ ledger }
        ensures start { result.start ≡ ledger }
        ensures empty { Stands B.is_honest B.is_marked B.keeps result [] }
    {
        let start = Snapshot::of(&ledger);
        Desk { ledger, start }
    }

    /// Drops the desk, and returns its ledger.
    pub fn into_ledger(self) -> Ledger<B>
        ensures { result ≡ self.ledger }
    {
        self.ledger
    }

    // Asks the ledger for the permit of a place.
    fn begin(&mut self, place: u32) -> LedgerAnswer<B>
        ensures start { self.new.start ≡ self.old.start }
        ensures answer { IsAnswer B.is_honest B.is_marked B.keeps self.old.ledger (Begin place)
            result }
        ensures now { ledger_after result ≡ self.new.ledger }
        ensures grants { Grants B.is_honest B.is_marked self.old.ledger self.new.ledger
            (permits_of result) }
    {
        match self.ledger.begin(place) {
            Ok(Some(permit)) => LedgerAnswer::Given(permit, Snapshot::of(&self.ledger)),
            Ok(None) => LedgerAnswer::Refused(Snapshot::of(&self.ledger)),
            Err(fault) => LedgerAnswer::Failed(fault, Snapshot::of(&self.ledger)),
        }
    }

    // Stores the outcome of a place.
    fn record(&mut self, place: u32, outcome: Outcome) -> LedgerAnswer<B>
        ensures start { self.new.start ≡ self.old.start }
        ensures answer { IsAnswer B.is_honest B.is_marked B.keeps self.old.ledger
            (Record place outcome) result }
        ensures now { ledger_after result ≡ self.new.ledger }
        ensures grants { Grants B.is_honest B.is_marked self.old.ledger self.new.ledger
            (permits_of result) }
    {
        if place as usize >= self.ledger.len() {
            return LedgerAnswer::Refused(Snapshot::of(&self.ledger));
        }
        match self.ledger.record(place, outcome) {
            Ok(()) => LedgerAnswer::Recorded(Snapshot::of(&self.ledger)),
            Err(fault) => LedgerAnswer::Failed(fault, Snapshot::of(&self.ledger)),
        }
    }

    // Answers a request of a worker: gives a permit, or stores an outcome.
    fn answer(&mut self, request: LedgerRequest) -> LedgerAnswer<B>
        ensures start { self.new.start ≡ self.old.start }
        ensures answer { IsAnswer B.is_honest B.is_marked B.keeps self.old.ledger request result }
        ensures now { ledger_after result ≡ self.new.ledger }
        ensures grants { Grants B.is_honest B.is_marked self.old.ledger self.new.ledger
            (permits_of result) }
    {
        match request {
            LedgerRequest::Begin(place) => self.begin(place),
            LedgerRequest::Record(place, outcome) => self.record(place, outcome),
        }
    }
}

impl<B: Book> Turned for Desk<B> {
    type Event = LedgerRequest;

    type Reply = LedgerAnswer<B>;

    type Origin = Ledger<B>;

    ghost origin = { λ desk. desk.start };

    ghost legal = { λ start calls. IsLegalHistory B.is_honest B.is_marked B.keeps start calls };

    ghost stands = { λ desk calls. Stands B.is_honest B.is_marked B.keeps desk calls };

    ghost sure = { λ _. ⊤ };

    ghost is_legal = { λ desk calls stands. record {
      answers = stands.answers;
      apart = stands.grants.apart;
      not_sent = stands.grants.not_sent;
    } };

    fn turn(
        &mut self,
        _alloc: Global,
        event: LedgerRequest,
    ) -> Result<LedgerAnswer<B>, AllocError> {
        Ok(self.answer(event))
    }
}
