//! `save`: appends the lines that were not taken yet to the file of a journal.
ghost use Rattle.std.specs.Prelude.{◌≡◌, ◌≤◌, ℕ, List, IfOk, OnOk, IsErrOf, Some, length};
ghost use Rattle.durable_lines.specs.CrashModel.{LeavesOnly};
ghost use Rattle.durable_lines.specs.Lines.{IsReady};
ghost use Rattle.relay_core.specs.declared.opening.Opening.{Opening};
ghost use Rattle.turn_lock.specs.Calls.{Watches};
ghost use Rattle.turn_lock.specs.Shown.{IsSame};
ghost use Rattle.shared_meter.specs.Calls.{IsLegal, switches_of};
ghost use Rattle.shared_meter.specs.Pending.{lines_of_calls, IsRest};
ghost use Rattle.meter_journal.specs.Saving.{IsSaved, IsSavedFrom};

use crate::fault::JournalFault;
use durable_lines::{DurableFile, FileFault, append_and_renew};
use shared_meter::{Finding, Kept, Question};
use std::alloc::Global;
use std::sync::Wait;
use turn_lock::Port;

/// The result of a save.
#[derive(Debug, Drop)]
pub struct Saved {
    /// The number of lines of the history so far, all of which are on the disk.
    pub count: u64,
    /// How often the supply output was changed in the history so far.
    pub switches: u64,
    /// Memory for the text of the next save.
    pub room: Vec<u8>,
}

// Takes the text of the lines after the first `taken`, the number of all lines, and that of the
// changes of the supply output.
fn take_lines<W: Wait>(
    rt: &W,
    alloc: Global,
    port: &mut Port<Kept>,
    taken: u64,
    room: Vec<u8>,
) -> Result<(Vec<u8>, u64, u64), JournalFault>
    ensures same { IsSame port.old port.new }
    ensures watches { Watches IsLegal port.old.known port.new.known }
    ensures lines { IfOk result
        (λ found. IsRest (lines_of_calls port.new.known.seen) taken found.0.items found.1) }
    ensures switches { IfOk result (λ found. (origin : Opening)
        → port.new.known.origin ≡ Some origin
        → found.2 ≡ switches_of origin port.new.known.seen) }
    ensures turns { IsErrOf result JournalFault.Turns → port.old.bound ≤ port.new.known.drawn }
    ensures not_file { ¬ IsErrOf result (JournalFault.File FileFault.Failed) }
{
    match port.inspect(rt, alloc, Question::Take { taken, room }) {
        Some(
            Finding::Taken {
                text,
                count,
                switches,
            },
        ) => Ok((text, count, switches)),
        Some(_) => Err(JournalFault::Lines),
        None => Err(JournalFault::Turns),
    }
}

/// Appends the lines of the port's history after the first `taken`, which were taken before, to the
/// file, waits until they are on the disk, and renews the file if it is to be renewed. The lines
/// that are noted meanwhile are written into `room`, so that its memory is used again. If there are
/// no further lines, nothing is synced.
///
/// After `Ok` the file holds all lines of the history that the port has seen, each once, in order,
/// and every crash leaves them. A crash during the call leaves a front of them, with at least the
/// first `taken`. Errors: `Lines` if a line was lost, another number of lines was taken before, or
/// the meter has no journal; `Turns` if all turns of the lock were drawn; `File` if the file failed
/// or would exceed its limit. After an error some of the lines may be lost, so the journal cannot
/// be continued.
pub fn save<F: DurableFile, W: Wait>(
    rt: &W,
    alloc: Global,
    port: &mut Port<Kept>,
    file: &mut F,
    taken: u64,
    room: Vec<u8>,
) -> Result<Saved, JournalFault>
    requires settled { IsReady F.model file.old }
    ensures same { IsSame port.old port.new }
    ensures watches { Watches IsLegal port.old.known port.new.known }
    ensures count { IfOk result
        (λ saved. saved.count ≡ length (lines_of_calls port.new.known.seen)) }
    ensures settled { OnOk result (IsReady F.model file.new) }
    ensures switches { IfOk result (λ saved. (origin : Opening)
        → port.new.known.origin ≡ Some origin
        → saved.switches ≡ switches_of origin port.new.known.seen) }
    ensures saved { IfOk result (λ saved. F.model.acts → (first : List (List ℕ))
        → IsSaved F.model.renews first taken port.old.known.seen (F.model.seen file.old)
        → IsSaved F.model.renews first saved.count port.new.known.seen (F.model.seen file.new)) }
    // A crash at any moment of the call leaves a front of the lines.
    ensures any_moment { F.model.acts → (first : List (List ℕ))
        → IsSaved F.model.renews first taken port.old.known.seen (F.model.seen file.old)
        → LeavesOnly F.model file.old file.new
        (IsSavedFrom F.model.renews taken first port.new.known.seen) }
    ensures identity { F.model.identity file.new ≡ F.model.identity file.old }
    ensures turns { IsErrOf result JournalFault.Turns → port.old.bound ≤ port.new.known.drawn }
    ensures failed { IsErrOf result (JournalFault.File FileFault.Failed)
        → F.model.has_failed file.new }
{
    let (text, count, switches) = take_lines(rt, alloc, port, taken, room)?;
    match append_and_renew(file, text.as_slice()) {
        Ok(()) => Ok(Saved {
            count,
            switches,
            room: text,
        }),
        Err(fault) => Err(JournalFault::File(fault)),
    }
}
