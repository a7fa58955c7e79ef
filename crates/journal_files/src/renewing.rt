//! Renews a journal: replaces its file by one that begins later and has its last events.
ghost use Rattle.std.specs.Prelude.{◌≡◌, ◌≢◌, ◌⊎◌, ℕ, List, Ok, IfErr, IfOk, IsErrOf, IsTrue, OnOk};
ghost use Rattle.std.specs.List.{All};
ghost use Rattle.durable_lines.specs.Calls.{HasFailedPart};
ghost use Rattle.durable_lines.specs.CrashModel.{LeavesOnly, Narrows, HasOneOutcome, PassesTime};
ghost use Rattle.durable_lines.specs.Holding.{IsSameOrRenewed};
ghost use Rattle.durable_lines.specs.Lines.{IsReady, IsText};
ghost use Rattle.journal_files.specs.Faults.{IsRenewFault, IsUnwritable};
ghost use Rattle.journal_files.specs.RenewedFile.{IsRenewedUnless};
ghost use Rattle.journal_files.specs.Renewals.{IsLaterTrace, IsRenewalOf, IsRenewedAs};
ghost use Rattle.journal_files.specs.Renewals.{IsRenewedOver};
ghost use Rattle.relay_core.specs.Agreeing.{Agree, IsWorld};
ghost use Rattle.relay_core.specs.Opening.{IsFitOpening, world_of_opening};
ghost use Rattle.relay_core.specs.Runs.{world_after};
ghost use Rattle.relay_core.specs.Stands.{StandsFor};
ghost use Rattle.relay_core.specs.World.{World};
ghost use Rattle.trace_lines.specs.Traced.{FitsLine};
ghost use Rattle.trace_player.specs.Journals.{IsJournal, journal_text};
ghost use Rattle.trace_player.specs.Traces.{trace_of};

use crate::fault::StartFault;
use cosem_axdr::Octets;
use durable_lines::{DurableFile, FileFault, Place, is_text, replace};
use relay_core::{Opening, RelayCore};
use relay_events::{Event, Events};
use relay_recorder::Trace;
use std::alloc::{AllocError, Global};
use trace_lines::fits_line;
use trace_player::{MAX_BYTES, apply_events, is_journal, read_trace, write_journal};

// Applies events to a core, and returns its saved state after them.
fn apply_and_save(
    alloc: Global,
    core: &mut RelayCore,
    events: &[Event],
) -> Result<Opening, AllocError>
    ensures fit { IfOk result IsFitOpening }
    ensures range { IfOk result (λ opening. IsWorld (world_of_opening opening)) }
    ensures agrees { IfOk result (λ opening. (w : World) → StandsFor core.old w
        → Agree (world_of_opening opening) (world_after events.now w)) }
{
    apply_events(alloc, core, events)?;
    core.to_opening(alloc)
}

// Returns the saved state of a meter after events, from the one before them.
fn opening_after(alloc: Global, opening: &Opening, events: &[Event]) -> Result<Opening, AllocError>
    requires { IsFitOpening opening.now }
    ensures fit { IfOk result IsFitOpening }
    ensures range { IfOk result (λ later. IsWorld (world_of_opening later)) }
    ensures agrees { IfOk result (λ later. Agree (world_of_opening later)
        (world_after events.now (world_of_opening opening.now))) }
{
    let mut core = RelayCore::from_fit_opening(alloc, opening)?;
    let later = apply_and_save(alloc, &mut core, events);
    drop(core);
    later
}

// Returns copies of events.
fn copy_events(alloc: Global, events: &[Event]) -> Result<Events, AllocError>
    ensures { IfOk result (λ copies. copies ≡ events.now) }
{
    let mut copies = Events::new(alloc);
    'events: for event in events {
        copies.push(event.try_copy(alloc)?)?;
    }
    Ok(copies)
}

// Returns the trace that begins before the last `depth` events of a trace, or the same trace if it
// has no more.
#[tactic(auto, using(crate::proofs::RenewalLemmas::shorten_trace))]
fn shorten_trace(alloc: Global, trace: &Trace, depth: usize) -> Result<Trace, AllocError>
    requires { IsFitOpening trace.now.opening }
    ensures { IfOk result (IsLaterTrace depth trace.now) }
{
    let events = trace.events.as_slice();
    let (before, kept) = events.split_at(events.len().saturating_sub(depth));
    let opening = opening_after(alloc, &trace.opening, before)?;
    match copy_events(alloc, kept) {
        Ok(events) => Ok(Trace { opening, events }),
        Err(error) => {
            drop(opening);
            Err(error)
        }
    }
}

// Returns whether each event fits its line.
fn are_fit(events: &[Event]) -> bool
    ensures { IsTrue result → All FitsLine events.now }
{
    events.iter().all(|event| fits_line(event))
}

// Returns the text of the journal of a trace, which is read back as that trace. That the lines fit
// and have no byte 0 is tested, since no contract says it of events and an opening that were read:
// `Line(1)` says that one of these tests failed, whichever line it was.
fn write_readable(alloc: Global, trace: &Trace) -> Result<Octets, StartFault>
    requires { IsFitOpening trace.now.opening }
    ensures text { IfOk result (λ text. text ≡ journal_text trace.now) }
    ensures read_back { IfOk result (λ text. trace_of text ≡ Ok trace.now) }
    ensures is_text { IfOk result IsText }
    ensures journal { IfOk result IsJournal }
    ensures fault { IfErr result IsUnwritable }
{
    if !are_fit(trace.events.as_slice()) {
        return Err(StartFault::Line(1));
    }
    let text = write_journal(alloc, trace)?;
    if text.len() > MAX_BYTES {
        return Err(StartFault::TooLong);
    }
    if !is_text(text.as_slice()) || !is_journal(text.as_slice()) {
        return Err(StartFault::Line(1));
    }
    Ok(text)
}

// Returns the text of the journal of a trace that begins later than another, if both are of a meter
// with the same name.
fn write_same(alloc: Global, trace: &Trace, later: &Trace) -> Result<Octets, StartFault>
    requires { IsFitOpening later.now.opening }
    ensures device { OnOk result (later.now.opening.device ≡ trace.now.opening.device) }
    ensures text { IfOk result (λ text. text ≡ journal_text later.now) }
    ensures read_back { IfOk result (λ text. trace_of text ≡ Ok later.now) }
    ensures is_text { IfOk result IsText }
    ensures journal { IfOk result IsJournal }
    ensures fault { IfErr result IsUnwritable }
{
    if later.opening.device.as_slice() != trace.opening.device.as_slice() {
        return Err(StartFault::OtherMeter);
    }
    write_readable(alloc, later)
}

// Returns the text of the journal of a trace that begins later.
#[tactic(auto, using(crate::proofs::RenewalLemmas::renewal_of))]
fn write_later(alloc: Global, trace: &Trace, depth: usize) -> Result<Octets, StartFault>
    requires { IsFitOpening trace.now.opening }
    ensures renewed { IfOk result (λ text. (old : List ℕ) → trace_of old ≡ Ok trace.now
        → IsRenewalOf depth old text) }
    ensures is_text { IfOk result IsText }
    ensures fault { IfErr result IsUnwritable }
{
    let later = shorten_trace(alloc, trace, depth)?;
    let text = write_same(alloc, trace, &later);
    drop(later);
    text
}

// Returns the text of a journal after its renewal.
#[tactic(auto, using(crate::proofs::FaultLemmas::renew_faults))]
fn renew_text(alloc: Global, text: &[u8], depth: usize) -> Result<Octets, StartFault>
    ensures renewed { IfOk result (IsRenewalOf depth text.now) }
    ensures is_text { IfOk result IsText }
    ensures cause { IfErr result (IsRenewFault text.now) }
    ensures unfailed { IfErr result (λ fault. fault ≢ StartFault.File) }
{
    let trace = read_trace(alloc, text)?;
    let renewed = write_later(alloc, &trace, depth);
    drop(trace);
    renewed
}

// Returns the text of the journal of a file after its renewal.
#[tactic(auto, using(crate::proofs::FaultLemmas::renew_faults))]
fn renew_text_of<F: DurableFile>(
    alloc: Global,
    file: &mut F,
    depth: usize,
) -> Result<Octets, StartFault>
    ensures renewed { IfOk result (λ text. F.model.acts
        → IsRenewalOf depth (F.model.seen file.old) text) }
    ensures is_text { IfOk result IsText }
    ensures cause { IfErr result (λ fault. F.model.acts
        → IsRenewFault (F.model.seen file.old) fault) }
    ensures failed { IsErrOf result StartFault.File → F.model.has_failed file.new }
    ensures unchanged { F.model.seen file.new ≡ F.model.seen file.old }
    ensures identity { F.model.identity file.new ≡ F.model.identity file.old }
    ensures crash { Narrows (F.model.may_leave file.old) (F.model.may_leave file.new) }
    ensures time { PassesTime F.model file.old file.new }
{
    let bytes = file.read(alloc)?;
    let text = renew_text(alloc, bytes.as_slice(), depth);
    drop(bytes);
    text
}

/// Renews a journal, so that it does not grow for ever: replaces the file of a place by one with a
/// later opening and the last events of the file, at most `depth`. The place is then ready for
/// [`append_lines`](durable_lines::append_lines). A meter that is resumed from the new file answers
/// as one that is resumed from the old.
///
/// After `Ok` every crash leaves the new journal under the name; a crash during the call leaves it,
/// or what could be left before. Errors: `File` if a call on the place or its draft failed;
/// `TooLong` or `Line` if the old text is not read as a trace, with the number of its first wrong
/// line, or if the new one would not be, then always `Line(1)`: an event does not fit its line, or
/// a line has a byte 0, which no contract excludes; `OtherMeter` if the new one had another device
/// name, which no contract excludes either; `Memory`. After an error the name has the old file or
/// the new one.
#[tactic(auto, using(crate::proofs::FaultLemmas::renew_faults))]
pub fn renew_journal<P: Place>(alloc: Global, place: &mut P, depth: usize) -> Result<(), StartFault>
    ensures renewed { OnOk result (P.model.acts
        → IsRenewalOf depth (P.model.seen place.old) (P.model.seen place.new)) }
    ensures durable { OnOk result (P.model.acts
        → HasOneOutcome (P.model.seen place.new) (P.model.may_leave place.new)) }
    ensures settled { OnOk result (IsReady P.model place.new) }
    ensures identity { P.model.identity place.new ≡ P.model.identity place.old }
    ensures cause { IfErr result (λ fault. P.model.acts
        → IsRenewFault (P.model.seen place.old) fault) }
    ensures failed { IsErrOf result StartFault.File
        → HasFailedPart P.model P.Draft.model
        (λ text. P.model.acts → IsRenewalOf depth (P.model.seen place.old) text) place.new }
    // A crash at any moment of the call leaves what could be left before, or the new journal.
    ensures any_moment { P.model.acts → LeavesOnly P.model place.old place.new
        (λ c. P.model.may_leave place.old c ⊎ IsRenewalOf depth (P.model.seen place.old) c) }
{
    let text = renew_text_of(alloc, place, depth)?;
    Ok(replace(place, text.as_slice())?)
}

/// Renews a journal as [`renew_journal`] does if its file has more than `limit` bytes. Otherwise
/// nothing changes.
#[tactic(auto, using(crate::proofs::RenewalLemmas::renewals, crate::proofs::FaultLemmas::renew_faults))]
pub fn renew_long_journal<P: Place>(
    alloc: Global,
    place: &mut P,
    depth: usize,
    limit: usize,
) -> Result<(), StartFault>
    requires { IsReady P.model place.old }
    ensures renewed { OnOk result (P.model.acts
        → IsRenewedOver limit depth (P.model.seen place.old) (P.model.seen place.new)) }
    ensures settled { OnOk result (IsReady P.model place.new) }
    ensures identity { P.model.identity place.new ≡ P.model.identity place.old }
    ensures cause { IfErr result (λ fault. P.model.acts
        → IsRenewFault (P.model.seen place.old) fault) }
    ensures failed { IsErrOf result StartFault.File
        → HasFailedPart P.model P.Draft.model
        (λ text. P.model.acts → IsRenewalOf depth (P.model.seen place.old) text) place.new }
    // A crash at any moment of the call leaves what could be left before, or the new journal.
    ensures any_moment { P.model.acts → LeavesOnly P.model place.old place.new
        (λ c. P.model.may_leave place.old c ⊎ IsRenewalOf depth (P.model.seen place.old) c) }
{
    let bytes = place.read(alloc)?;
    let len = bytes.len();
    drop(bytes);
    if len <= limit {
        return Ok(());
    }
    renew_journal(alloc, place, depth)
}

// Renews a journal as `renew_journal` does, with the file of its place as one that lines are
// appended to while the journal's meter runs. If the text is not renewed, its file stays, and the
// fault is returned.
#[tactic(auto, using(crate::proofs::RenewalLemmas::file_renewals))]
pub(crate) fn renew_file<P: Place>(
    alloc: Global,
    place: &mut P,
    depth: usize,
) -> Result<Option<StartFault>, FileFault>
    requires { IsReady P.model place.old }
    ensures settled { OnOk result (IsReady P.model place.new) }
    ensures renewed { OnOk result (P.model.acts
        → IsSameOrRenewed IsRenewedAs (P.model.seen place.old) (P.model.seen place.new)) }
    ensures outcome { IfOk result (λ held_back. P.model.acts
        → IsRenewedUnless depth held_back (P.model.seen place.old) (P.model.seen place.new)) }
    ensures identity { P.model.identity place.new ≡ P.model.identity place.old }
    // A crash at any moment of the call leaves the old journal or the new one.
    ensures any_moment { P.model.acts → LeavesOnly P.model place.old place.new
        (IsSameOrRenewed IsRenewedAs (P.model.seen place.old)) }
{
    match renew_text_of(alloc, place, depth) {
        Ok(text) => {
            replace(place, text.as_slice())?;
            Ok(None)
        }
        Err(StartFault::File) => Err(FileFault::Failed),
        Err(fault) => Ok(Some(fault)),
    }
}
