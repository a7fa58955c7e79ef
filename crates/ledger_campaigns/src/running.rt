//! Runs one job at one meter, with a permit of the shared ledger.
ghost use Rattle.std.specs.Prelude.{◌≡◌, ◌⊎◌, IfOk, IfNone, OnSome};
ghost use Rattle.acse_ber.specs.Password.{IsPassword};
ghost use Rattle.turn_lock.specs.Shown.{IsSame};
ghost use Rattle.client_core.specs.declared.job.Outcome.TheVariants.{Unknown};
ghost use Rattle.campaign_ledger.specs.declared.entry.LedgerEntry.TheVariants.{NotSent};
ghost use Rattle.campaign_ledger.specs.Runs.{IsIn};
ghost use Rattle.head_end.specs.Attempts.{unused, row_in};
ghost use Rattle.head_end.specs.Conversations.{Converses, Speaks};
ghost use Rattle.head_end.specs.Rows.{IsOutcome};
ghost use Rattle.ledger_campaigns.specs.Desks.{IsRefused, permits_given};
ghost use Rattle.ledger_campaigns.specs.Uses.{IsNewUse, IsRowFor, IsToldOutcome, IsUse, MayAsk};
ghost use Rattle.ledger_campaigns.specs.Uses.{IsSwitching, SpeaksIfGiven, asked_through};

use crate::asking::{ask_to_send, report_outcome};
use crate::desk::Desk;
use crate::place::LedgeredPlace;
use campaign_ledger::{Book, LedgerEntry, Permit};
use client_core::{Client, Job, Outcome, Verb};
use cosem_axdr::Octets;
use head_end::{Attempt, Connection, Connector, Row, converse, give_up};
use std::alloc::{AllocError, Global};
use std::sync::Wait;
use turn_lock::Port;

/// A job of a campaign on a ledger: its place in the list, counted from 0, the entry that the run
/// found there, and the password, 1 to 32 bytes.
#[derive(Clone, Copy)]
pub struct LedgeredJob<'a> {
    /// The job: its name, its meter and its request.
    pub job: &'a Job,
    /// The place of the job in the list, counted from 0.
    pub place: u32,
    /// The entry that the ledger had at the start of the run.
    pub found: LedgerEntry,
    /// The password of the meter's management client, 1 to 32 bytes.
    pub password: &'a Octets,
}

// The right to send the request of a job: a permit for a switching command, none for a question.
#[derive(Drop)]
enum Clearance {
    // A switching command may be sent, with this permit.
    Command(Permit),
    // A question may be sent without a permit.
    Question,
}

/// Runs a job and stores its row in its place.
///
/// A job whose command may have been sent before is not run: its row is the outcome that was found,
/// or unknown. A switching command is sent only after the ledger gave the permit for its place; if
/// it gives none, the connection is closed unused and the row is unknown. The outcome of a
/// conversation is stored in the ledger; if that fails, the ledger gives no further permit.
pub fn run_ledgered_job<C: Connector, B: Book, W: Wait>(
    rt: &W,
    alloc: Global,
    task: &LedgeredJob<'_>,
    place: &mut LedgeredPlace<C, B>,
)
    requires unused { place.old.attempt.stage ≡ unused }
    requires password { IsPassword task.now.password.now }
    ensures row { IsRowFor (C.tells place.old.attempt.source.value) task.now.job.now task.now.found
        place.new.row }
    ensures attempt { IsUse task.now.found (asked_through task.now.place place.new.port)
        task.now.job.now task.now.password.now place.new.row place.new.attempt.stage }
    ensures port { IsSame place.old.port place.new.port }
{
    match task.found {
        LedgerEntry::NotSent => {
            let row = run_new_job(rt, alloc, task, &mut place.attempt, &mut place.port);
            place.row = row;
        }
        LedgerEntry::MaybeSent => place.row = Row::Came(Outcome::Unknown),
        LedgerEntry::Came(outcome) => place.row = Row::Came(outcome),
    }
}

// Runs a job whose command was not sent before.
fn run_new_job<C: Connector, B: Book, W: Wait>(
    rt: &W,
    alloc: Global,
    task: &LedgeredJob<'_>,
    attempt: &mut Attempt<C>,
    port: &mut Port<Desk<B>>,
) -> Row
    requires unused { attempt.old.stage ≡ unused }
    requires password { IsPassword task.now.password.now }
    ensures row { IsRowFor (C.tells attempt.old.source.value) task.now.job.now NotSent result }
    ensures attempt { IsNewUse (asked_through task.now.place port.new)
        task.now.job.now task.now.password.now result attempt.new.stage }
    ensures port { IsSame port.old port.new }
{
    match try_new_job(rt, alloc, task, attempt, port) {
        Ok(outcome) => Row::Came(outcome),
        Err(_) => Row::Memory,
    }
}

// Runs a job whose command was not sent before, and returns its outcome. The messages are allocated
// before it connects.
fn try_new_job<C: Connector, B: Book, W: Wait>(
    rt: &W,
    alloc: Global,
    task: &LedgeredJob<'_>,
    attempt: &mut Attempt<C>,
    port: &mut Port<Desk<B>>,
) -> Result<Outcome, AllocError>
    requires unused { attempt.old.stage ≡ unused }
    requires password { IsPassword task.now.password.now }
    ensures outcome { IfOk result (λ outcome. IsOutcome
        (C.tells attempt.old.source.value task.now.job.now.address) task.now.job.now.verb outcome
        ⊎ (outcome ≡ Unknown)) }
    ensures attempt { IsNewUse (asked_through task.now.place port.new)
        task.now.job.now task.now.password.now (row_in result) attempt.new.stage }
    ensures port { IsSame port.old port.new }
{
    let mut client = Client::start(alloc, task.job, task.password)?;
    match attempt.connect(&task.job.address) {
        Ok(mut connection) => {
            let outcome = converse_if_given(rt, alloc, task, port, &mut client, &mut connection);
            attempt.close(connection);
            outcome
        }
        Err(_) => Ok(give_up(&mut client)),
    }
}

// Asks for the permit that the job needs, converses if it is given, and returns the outcome.
// Without a permit nothing is sent, and the outcome is unknown.
fn converse_if_given<K: Connection, B: Book, W: Wait>(
    rt: &W,
    alloc: Global,
    task: &LedgeredJob<'_>,
    port: &mut Port<Desk<B>>,
    client: &mut Client,
    connection: &mut K,
) -> Result<Outcome, AllocError>
    ensures forecast { IfOk result (IsToldOutcome client.old (K.forecast connection.old)) }
    ensures log { SpeaksIfGiven task.now.job.now.verb (asked_through task.now.place port.new)
        client.old
        (K.log connection.old) result (K.log connection.new) }
    ensures port { IsSame port.old port.new }
{
    let Some(clearance) = clearance_for(rt, alloc, task.job.verb, task.place, port) else {
        return Ok(Outcome::Unknown);
    };
    let outcome = converse_cleared(alloc, clearance, client, connection)?;
    // If the outcome cannot be stored, the ledger gives no further permit: it has failed, or all
    // turns of its lock were drawn.
    let _stored = report_outcome(rt, alloc, port, task.place, outcome);
    Ok(outcome)
}

// Converses with the meter, uses up the clearance, and returns the outcome.
fn converse_cleared<K: Connection>(
    alloc: Global,
    clearance: Clearance,
    client: &mut Client,
    connection: &mut K,
) -> Result<Outcome, AllocError>
    ensures forecast { IfOk result (Converses client.old (K.forecast connection.old)) }
    ensures log { Speaks client.old (K.log connection.old) result (K.log connection.new) }
{
    drop(clearance);
    converse(alloc, client, connection)
}

// Returns the clearance for the request of a place, or `None` if its permit is not given.
fn clearance_for<B: Book, W: Wait>(
    rt: &W,
    alloc: Global,
    verb: Verb,
    place: u32,
    port: &mut Port<Desk<B>>,
) -> Option<Clearance>
    ensures given { OnSome result (MayAsk verb (IsIn place (permits_given port.new.known.seen))) }
    ensures refused { IfNone result (IsSwitching verb × IsRefused place port.new) }
    ensures port { IsSame port.old port.new }
{
    match verb {
        Verb::Disconnect | Verb::Reconnect => command_clearance(rt, alloc, place, port),
        Verb::ReadState => Some(Clearance::Question),
    }
}

// Returns the clearance for a switching command, or `None` if its permit is not given.
fn command_clearance<B: Book, W: Wait>(
    rt: &W,
    alloc: Global,
    place: u32,
    port: &mut Port<Desk<B>>,
) -> Option<Clearance>
    ensures given { OnSome result (IsIn place (permits_given port.new.known.seen)) }
    ensures refused { IfNone result (IsRefused place port.new) }
    ensures port { IsSame port.old port.new }
{
    match ask_to_send(rt, alloc, port, place) {
        Ok(Some(permit)) => Some(Clearance::Command(permit)),
        Ok(None) => None,
        Err(_) => None,
    }
}
