//! Begins a journal: its first text, written as a whole.
ghost use Rattle.std.specs.Prelude.{◌≡◌, ◌⊎◌, ℕ, List, IfErr, IfOk, IsErrOf, OnOk};
ghost use Rattle.durable_lines.specs.Calls.{HasFailedPart, OverflowsDraft};
ghost use Rattle.durable_lines.specs.CrashModel.{LeavesOnly};
ghost use Rattle.durable_lines.specs.Lines.{IsReady};
ghost use Rattle.journal_files.specs.Faults.{IsBeginFault};
ghost use Rattle.journal_files.specs.Journals.{IsBegun, IsJournalOf};

use crate::fault::StartFault;
use cosem_axdr::Octets;
use durable_lines::{Place, is_text, replace};
use relay_recorder::Recorder;
use std::alloc::Global;
use trace_player::write_journal;

// Returns the text of the journal of a recorder.
fn journal_of(alloc: Global, recorder: &Recorder) -> Result<Octets, StartFault>
    ensures journal { IfOk result (IsJournalOf recorder.now) }
    ensures fault { IfErr result (λ given. given ≡ StartFault.Memory) }
{
    let trace = recorder.export(alloc)?;
    let text = write_journal(alloc, &trace);
    drop(trace);
    Ok(text?)
}

/// Writes the journal of a recorder under the name of a place: the state of its meter before the
/// events that it keeps, and these events. The place is then ready for
/// [`append_lines`](durable_lines::append_lines).
///
/// After `Ok` every crash leaves that journal under the name; a crash during the call leaves it, or
/// what could be left before. Errors: `Memory`; `File` if a call on the place or its draft failed,
/// after which the name has the old file or the new one; `TooLong` if the text exceeds the limit of
/// a draft; `Line(1)` if the text has a byte 0, which is tested, since no contract excludes it.
#[tactic(auto, using(crate::proofs::FaultLemmas::begin_faults))]
pub fn begin_journal<P: Place>(
    alloc: Global,
    place: &mut P,
    recorder: &Recorder,
) -> Result<(), StartFault>
    ensures journal { OnOk result (P.model.acts
        → IsBegun recorder.now (P.model.seen place.new) (P.model.may_leave place.new)) }
    ensures settled { OnOk result (IsReady P.model place.new) }
    ensures identity { P.model.identity place.new ≡ P.model.identity place.old }
    ensures cause { IfErr result (IsBeginFault recorder.now) }
    ensures failed { IsErrOf result StartFault.File
        → HasFailedPart P.model P.Draft.model
        (IsJournalOf recorder.now) place.new }
    ensures too_long { IsErrOf result StartFault.TooLong → (text : List ℕ)
        × IsJournalOf recorder.now text
        × OverflowsDraft P.Draft.model text }
    // A crash at any moment of the call leaves what could be left before, or the new journal.
    ensures any_moment { P.model.acts → LeavesOnly P.model place.old place.new
        (λ c. P.model.may_leave place.old c ⊎ IsJournalOf recorder.now c) }
{
    let text = journal_of(alloc, recorder)?;
    if !is_text(text.as_slice()) {
        return Err(StartFault::Line(1));
    }
    Ok(replace(place, text.as_slice())?)
}
