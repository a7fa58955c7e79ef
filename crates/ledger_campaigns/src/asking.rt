//! Requests to a shared ledger through a port.
ghost use Rattle.std.specs.Prelude.{◌≡◌, IfOk, IfSome, IfNone, OnOk, OnErr, OnSome};
ghost use Rattle.turn_lock.specs.History.{StartsWith};
ghost use Rattle.turn_lock.specs.Shown.{IsSame};
ghost use Rattle.campaign_ledger.specs.Runs.{IsIn};
ghost use Rattle.ledger_campaigns.specs.declared.request.LedgerRequest.TheVariants.{Begin, Record};
ghost use Rattle.ledger_campaigns.specs.Desks.{permit_result, permits_given, stored_result};
ghost use Rattle.ledger_campaigns.specs.Desks.{EndsStored, HasAsked, IsAskedToStore, IsRefused};

use crate::desk::Desk;
use crate::request::{LedgerAnswer, LedgerRequest};
use campaign_ledger::{Book, LedgerFault, Permit};
use client_core::Outcome;
use std::alloc::Global;
use std::sync::Wait;
use turn_lock::Port;

/// Waits for a turn and asks for the permit to send the command of a place.
///
/// The permit is the only one that any port of the lock gets for this place. Returns `None` if the
/// command may have been sent before. Returns `Failed` if the ledger has failed, or if all turns of
/// the lock were drawn.
pub fn ask_to_send<B: Book, W: Wait>(
    rt: &W,
    alloc: Global,
    port: &mut Port<Desk<B>>,
    place: u32,
) -> Result<Option<Permit>, LedgerFault>
    ensures same { IsSame port.old port.new }
    ensures seen { StartsWith port.new.known.seen port.old.known.seen }
    ensures permit { IfOk result (λ given. IfSome given (λ permit. permit ≡ place)) }
    ensures given { IfOk result (λ given. OnSome given
        (IsIn place (permits_given port.new.known.seen))) }
    ensures refused { IfOk result (λ given. IfNone given (IsRefused place port.new)) }
    ensures failed { OnErr result (IsRefused place port.new) }
    ensures last_call { HasAsked (Begin place) permit_result result port.old port.new }
{
    match port.call(rt, alloc, LedgerRequest::Begin(place)) {
        Ok(answer) => permit_in(answer),
        Err(_) => Err(LedgerFault::Failed),
    }
}

/// Waits for a turn and stores the outcome of a place, so that whatever a crash leaves has it.
/// Returns `Failed` if the ledger has failed, if the campaign has no such place, or if all turns of
/// the lock were drawn.
pub fn report_outcome<B: Book, W: Wait>(
    rt: &W,
    alloc: Global,
    port: &mut Port<Desk<B>>,
    place: u32,
    outcome: Outcome,
) -> Result<(), LedgerFault>
    ensures same { IsSame port.old port.new }
    ensures seen { StartsWith port.new.known.seen port.old.known.seen }
    ensures stored { OnOk result (EndsStored B.is_honest B.keeps place outcome
        port.new.known.seen) }
    ensures asked_to_store { IsAskedToStore place outcome port.new }
    ensures last_call { HasAsked (Record place outcome) stored_result result port.old port.new }
{
    match port.call(rt, alloc, LedgerRequest::Record(place, outcome)) {
        Ok(answer) => stored_result(answer),
        Err(_) => Err(LedgerFault::Failed),
    }
}

// Returns whether an answer says that the outcome is stored.
fn stored_result<B: Book>(answer: LedgerAnswer<B>) -> Result<(), LedgerFault>
    ensures { result ≡ stored_result answer }
{
    match answer {
        LedgerAnswer::Given(_permit, _ledger) => Err(LedgerFault::Failed),
        LedgerAnswer::Refused(_ledger) => Err(LedgerFault::Failed),
        LedgerAnswer::Recorded(_ledger) => Ok(()),
        LedgerAnswer::Failed(fault, _ledger) => Err(fault),
    }
}

// Returns the permit of an answer.
fn permit_in<B: Book>(answer: LedgerAnswer<B>) -> Result<Option<Permit>, LedgerFault>
    ensures { result ≡ permit_result answer }
{
    match answer {
        LedgerAnswer::Given(permit, _ledger) => Ok(Some(permit)),
        LedgerAnswer::Refused(_ledger) => Ok(None),
        LedgerAnswer::Recorded(_ledger) => Ok(None),
        LedgerAnswer::Failed(fault, _ledger) => Err(fault),
    }
}
