//! Resumes a journal: judges its text, cuts an interrupted line, and continues where its lines end.
ghost use Rattle.std.specs.Prelude.{◌≡◌, ◌≢◌, ◌+◌, ◌⊎◌, [], Ok, IfOk, IfErr, OnOk, IsErrOf};
ghost use Rattle.std.specs.Prelude.{length};
ghost use Rattle.durable_lines.specs.CrashModel.{LeavesOnly};
ghost use Rattle.durable_lines.specs.Lines.{HasLinesAfterDamage, IsReady, lines_in, text_of};
ghost use Rattle.journal_files.specs.Faults.{IsRefusal, IsResumeFault};
ghost use Rattle.journal_files.specs.Journals.{Continues};
ghost use Rattle.relay_core.specs.Opening.{IsFitOpening};
ghost use Rattle.relay_recorder.specs.Recording.{IsCapacity};
ghost use Rattle.trace_player.specs.Journals.{IsJournal};
ghost use Rattle.trace_player.specs.Traces.{trace_of};

use crate::fault::StartFault;
use cosem_axdr::Octets;
use durable_lines::{DurableFile, damaged_at, recover};
use relay_recorder::{Recorder, Trace};
use std::alloc::Global;
use trace_player::{is_journal, read_trace, resume_recorder};

/// A journal that was resumed.
#[derive(Drop)]
pub struct Resumed {
    /// The recorder of the meter, which has no events yet.
    pub recorder: Recorder,
    /// The number of bytes of an interrupted write that were cut.
    pub cut: usize,
}

// Reads the trace of a journal's text, for the meter of this name.
#[tactic(auto, using(crate::proofs::FaultLemmas::resume_faults))]
fn judge_trace(alloc: Global, text: &[u8], device: &Octets) -> Result<Trace, StartFault>
    ensures trace { IfOk result (λ trace. trace_of text.now ≡ Ok trace) }
    ensures journal { OnOk result (IsJournal text.now) }
    ensures fit { IfOk result (λ trace. IsFitOpening trace.opening) }
    ensures device { IfOk result (λ trace. trace.opening.device ≡ device.now) }
    ensures undamaged { OnOk result (¬ HasLinesAfterDamage text.now) }
    ensures cause { IfErr result (IsResumeFault device.now text.now) }
    ensures unfailed { IfErr result (λ fault. fault ≢ StartFault.File) }
{
    let trace = read_trace(alloc, text)?;
    if !is_journal(text) {
        drop(trace);
        return Err(StartFault::Counted);
    }
    if trace.opening.device.as_slice() != device.as_slice() {
        drop(trace);
        return Err(StartFault::OtherMeter);
    }
    if let Some(at) = damaged_at(text) {
        drop(trace);
        return Err(StartFault::Damaged(at));
    }
    Ok(trace)
}

/// Resumes the journal of the meter with this name: reads it, cuts what an interrupted write has
/// left after its last whole line, and returns the recorder of a meter that continues where its
/// lines end, which keeps at most `depth` events, 1 to 1,024. The file is then ready for
/// [`append_lines`](durable_lines::append_lines).
///
/// Errors, in this order: `File` if a call on the file failed; `TooLong`; `Line` with the number of
/// the first line that is not that of a trace; `Counted`; `OtherMeter`; `Damaged` if whole lines
/// follow a damaged one. After these the file is as it was, unless a call failed after the text was
/// found right. `Memory` can occur at any point. A crash during the call loses no line.
#[tactic(auto, using(crate::proofs::RenewalLemmas::read_stays, crate::proofs::FaultLemmas::resume_faults))]
pub fn resume_journal<F: DurableFile>(
    alloc: Global,
    file: &mut F,
    device: &Octets,
    depth: u16,
) -> Result<Resumed, StartFault>
    requires { IsCapacity depth }
    ensures empty { IfOk result (λ resumed. resumed.recorder.events ≡ []) }
    ensures capacity { IfOk result (λ resumed. resumed.recorder.capacity ≡ depth) }
    ensures continues { IfOk result (λ resumed. F.model.acts
        → Continues device.now (F.model.seen file.old) resumed.recorder) }
    ensures cause { IfErr result (λ fault. F.model.acts
        → IsResumeFault device.now (F.model.seen file.old) fault) }
    ensures failed { IsErrOf result StartFault.File → F.model.has_failed file.new }
    ensures refused { IfErr result (λ fault. IsRefusal fault
        → F.model.seen file.new ≡ F.model.seen file.old) }
    // At most one line ends in what is cut.
    ensures cut { OnOk result (F.model.acts → ¬ HasLinesAfterDamage (F.model.seen file.old)) }
    ensures seen { OnOk result (F.model.acts
        → F.model.seen file.new ≡ text_of (lines_in (F.model.seen file.old))) }
    ensures count { IfOk result (λ resumed. F.model.acts
        → length (text_of (lines_in (F.model.seen file.old))) + resumed.cut
        ≡ length (F.model.seen file.old)) }
    ensures settled { OnOk result (IsReady F.model file.new) }
    // A crash at any moment of the call leaves the same lines, or what it could have left before.
    ensures any_moment { F.model.acts → LeavesOnly F.model file.old file.new
        (λ c. F.model.may_leave file.old c ⊎ (lines_in c ≡ lines_in (F.model.seen file.old))) }
    ensures identity { F.model.identity file.new ≡ F.model.identity file.old }
{
    let bytes = file.read(alloc)?;
    let judged = judge_trace(alloc, bytes.as_slice(), device);
    drop(bytes);
    let trace = judged?;
    match recover(alloc, file) {
        Ok(found) => {
            let cut = found.cut;
            drop(found);
            let made = resume_recorder(alloc, &trace, depth);
            drop(trace);
            Ok(Resumed {
                recorder: made?,
                cut,
            })
        }
        Err(fault) => {
            drop(trace);
            Err(StartFault::from(fault))
        }
    }
}
