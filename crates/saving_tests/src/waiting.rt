//! What a session learns that waits for lines of a journal.
ghost use Rattle.std.specs.Prelude.{◌≡◌, IfSome};
ghost use Rattle.durable_lines.specs.Lines.{IsSettled};
ghost use Rattle.meter_journal.specs.Faults.{IsSaveFault};
ghost use Rattle.meter_journal.specs.Saving.{IsFileOf};
ghost use Rattle.meter_journal.specs.declared.fault.JournalFault.{JournalFault};

use crate::fronts::{FIRST, first_file};
use crate::meters::asked_port;
use crate::relays::Given;
use durable_lines::{DurableFile, FileFault, MemoryFile, recover};
use meter_journal::{
    FailureAction, JournalEnd, JournalFault, JournalIdentity, JournalParts, JournalProgress,
    JournalWorker, MeterJournal,
};
use port_threads::Worker;
use shared_meter::{Durability, Kept};
use std::alloc::Global;
use std::marker::Brand;
use std::sync::Wait;
use std::test::Fail;
use turn_lock::Port;

/// Does nothing when a journal fails.
#[derive(Drop)]
struct Nothing;

impl FailureAction for Nothing {
    fn act(self, _fault: JournalFault) {}
}

/// Runs the worker of a journal that is asked to stop, through a port. Returns the journal's handle
/// with the port, and the number of lines that were saved or the fault, as far as there was memory
/// for them.
pub(crate) fn run_journal<L: JournalIdentity + Send + Sync, W: Wait>(
    rt: &W,
    alloc: Global,
    file: MemoryFile,
    mut port: Port<Kept>,
) -> (
    Option<(JournalProgress<MemoryFile, L>, Port<Kept>)>,
    Option<Result<u64, JournalFault>>,
)
    requires settled { IsSettled ⟦<MemoryFile as DurableFile>⟧.model file }
    requires of_file { IsFileOf ⟦<MemoryFile as DurableFile>⟧.model L.file L.first file }
    requires same_lock { port.lock ≡ L.lock }
    requires may_end { L.may_end }
    requires may_fail { (fault : JournalFault)
        → IsSaveFault ⟦<MemoryFile as DurableFile>⟧.model L.file L.lock fault → L.may_fail fault }
    ensures { IfSome result.0 (λ r. r.1.lock ≡ L.lock) }
{
    let Ok(progress) = JournalProgress::<MemoryFile, L>::new(alloc, &mut port, &file) else {
        drop(file);
        drop(port);
        return (None, None);
    };
    progress.stop();
    let parts: JournalParts<MemoryFile, Given> = JournalParts { file, relay: None };
    let journal = MeterJournal {
        parts,
        on_failure: Nothing,
    };
    let Ok(worker) = JournalWorker::new(alloc, journal, &progress, 64) else {
        return (Some((progress, port)), None);
    };
    let (back, end) = worker.work(rt, alloc, port);
    let JournalEnd { parts, saved } = end;
    drop(parts);
    (Some((progress, back)), Some(saved))
}

/// What a port learned of a journal that has ended.
#[derive(Clone, Copy, Debug, PartialEq, Eq)]
struct Waits {
    /// The result of the worker.
    end: Option<Result<u64, JournalFault>>,
    /// Whether a wait for no line returned true.
    has_none: bool,
    /// Whether a wait for one line returned true, by another handle.
    has_one: bool,
    /// Whether a wait for three lines returned true.
    has_three: bool,
    /// Whether a wait for four lines returned true.
    has_four: bool,
    /// Whether the journal has failed.
    has_failed: bool,
    /// The number of lines on the disk.
    lines: u64,
}

/// Runs a journal, and then waits for its lines through the port. Returns `None` if out of memory.
fn waits_after<L: JournalIdentity + Send + Sync, W: Wait>(
    rt: &W,
    alloc: Global,
    file: MemoryFile,
    port: Port<Kept>,
) -> Option<Waits>
    requires settled { IsSettled ⟦<MemoryFile as DurableFile>⟧.model file }
    requires of_file { IsFileOf ⟦<MemoryFile as DurableFile>⟧.model L.file L.first file }
    requires same_lock { port.lock ≡ L.lock }
    requires may_end { L.may_end }
    requires may_fail { (fault : JournalFault)
        → IsSaveFault ⟦<MemoryFile as DurableFile>⟧.model L.file L.lock fault → L.may_fail fault }
{
    let (ran, end) = run_journal::<L, W>(rt, alloc, file, port);
    let Some((progress, mut port)) = ran else {
        return None;
    };
    let Ok(other) = progress.share() else {
        drop(port);
        return None;
    };
    let has_none = progress.wait(rt, &mut port, 0);
    let has_one = other.wait(rt, &mut port, 1);
    let has_three = progress.wait(rt, &mut port, 3);
    let has_four = progress.wait(rt, &mut port, 4);
    let has_failed = progress.has_failed(&port);
    drop(port);
    let waits = Waits {
        end,
        has_none,
        has_one,
        has_three,
        has_four,
        has_failed,
        lines: progress.lines(),
    };
    drop(other);
    drop(progress);
    Some(waits)
}

#[test]
fn a_wait_returns_true_for_saved_lines(rt: HostRuntime) -> Result<(), Fail> {
    let alloc = rt.alloc();
    let port = asked_port(&rt, alloc)?.ok_or("an event got no reply")?;
    let mut file = first_file(alloc)?;
    recover(alloc, &mut file)?;
    let waits = waits_after::<Brand, _>(&rt, alloc, file, port).ok_or("no journal")?;
    assert!(rt; waits.end == Some(Ok(3)));
    assert!(rt; waits.has_none && waits.has_one && waits.has_three);
    assert!(rt; !waits.has_four && !waits.has_failed);
    assert!(rt; waits.lines == 3);
    Ok(())
}

#[test]
fn a_wait_returns_false_if_the_sync_fails(rt: HostRuntime) -> Result<(), Fail> {
    let alloc = rt.alloc();
    let port = asked_port(&rt, alloc)?.ok_or("an event got no reply")?;
    let mut file = MemoryFile::failing_after(alloc, FIRST.to_vec(alloc)?, 2);
    recover(alloc, &mut file)?;
    let waits = waits_after::<Brand, _>(&rt, alloc, file, port).ok_or("no journal")?;
    assert!(rt; waits.end == Some(Err(JournalFault::File(FileFault::Failed))));
    assert!(rt; waits.has_none && !waits.has_one && !waits.has_three && !waits.has_four);
    assert!(rt; waits.has_failed && waits.lines == 0);
    Ok(())
}
