//! The loop that saves a journal until it is stopped.
ghost use Rattle.std.specs.Prelude.{◌≡◌, ◌≤◌, IfErr, IfOk, IfSome, OnOk, Some, length};
ghost use Rattle.durable_lines.specs.CrashModel.{LeavesOnly};
ghost use Rattle.durable_lines.specs.Lines.{IsReady, lines_in};
ghost use Rattle.relay_core.specs.declared.opening.Opening.{Opening};
ghost use Rattle.turn_lock.specs.Calls.{Watches};
ghost use Rattle.turn_lock.specs.Shown.{IsSame};
ghost use Rattle.shared_meter.specs.Calls.{IsLegal};
ghost use Rattle.shared_meter.specs.Pending.{lines_of_calls};
ghost use Rattle.meter_journal.specs.Faults.{FailsFor};
ghost use Rattle.meter_journal.specs.Relaying.{IsRelayed, OnRelay};
ghost use Rattle.meter_journal.specs.Saving.{AreOnDisk, IsAllSaved, IsFileOf, IsSavedFrom};

use crate::fault::JournalFault;
use crate::journal::JournalParts;
use crate::last_save::JournalIdentity;
use crate::progress::JournalProgress;
use crate::relay::{SupplyOutput, follow_changes};
use crate::saving::{Saved, save};
use durable_lines::DurableFile;
use shared_meter::Kept;
use std::alloc::Global;
use std::sync::Wait;
use turn_lock::Port;

// Saves lines again and again, gives the relay the changes by their events, and announces each
// number of lines on the disk, until the journal is stopped and a last save has found no further
// line. The history has no line when it begins. Returns the number of all lines of the history, and
// only if the journal was asked to stop.
//
// Errors: those of a save, after which some of the lines may be lost, and `Relay`.
pub(crate) fn keep_lines<F: DurableFile, O: SupplyOutput, L: JournalIdentity, W: Wait>(
    rt: &W,
    alloc: Global,
    port: &mut Port<Kept>,
    parts: &mut JournalParts<F, O>,
    progress: &JournalProgress<F, L>,
    room: Vec<u8>,
) -> Result<u64, JournalFault>
    requires lock { port.old.lock ≡ L.lock }
    requires file { IsFileOf F.model L.file L.first parts.old.file }
    requires settled { IsReady F.model parts.old.file }
    ensures same { IsSame port.old port.new }
    ensures identity { F.model.identity parts.new.file ≡ F.model.identity parts.old.file }
    ensures watches { Watches IsLegal port.old.known port.new.known }
    ensures may_end { OnOk result L.may_end }
    ensures counted { IfOk result
        (λ count. count ≡ length (lines_of_calls port.new.known.seen)) }
    ensures fails { IfErr result
        (FailsFor (port.new.bound ≤ port.new.known.drawn) (F.model.has_failed parts.new.file)) }
    ensures settled { OnOk result (IsReady F.model parts.new.file) }
    ensures all_saved { OnOk result (F.model.acts → IsAllSaved F.model.renews
        (lines_in (F.model.seen parts.old.file)) port.new.known.seen
        (F.model.seen parts.new.file)) }
    ensures any_moment { F.model.acts → LeavesOnly F.model parts.old.file parts.new.file
        (IsSavedFrom F.model.renews 0 (lines_in (F.model.seen parts.old.file))
        port.new.known.seen) }
    ensures relayed { (origin : Opening) → port.new.known.origin ≡ Some origin
        → IfSome parts.old.relay (λ relay. relay.given ≡ 0)
        → OnRelay (IsRelayed O.contents (AreOnDisk F.model (F.model.identity parts.old.file)
        (lines_in (F.model.seen parts.old.file))) origin port.new.known.seen result)
        parts.old.relay parts.new.relay }
{
    // (no effect: the contract needs this law)
    port.history_is_legal();
    let mut saved = Saved {
        count: 0,
        switches: 0,
        room,
    };
    'saving: for _ in rt.forever() {
        let seen = progress.requests();
        let is_last = progress.is_stopped();
        let Saved {
            count: before,
            switches: _,
            room,
        } = saved;
        saved = save(rt, alloc, port, &mut parts.file, before, room)?;
        follow_changes(&mut parts.relay, saved.switches)?;
        if saved.count != before {
            progress.announce(rt, port, saved.count);
        } else if is_last {
            return Ok(saved.count);
        } else {
            progress.sleep(rt, seen);
        }
    }
    unreachable!()
}
