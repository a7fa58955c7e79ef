//! Ports that settle: they wait until the lines of all calls that they have seen are on the disk.
ghost use Rattle.std.specs.Prelude.{◌≡◌};
ghost use Rattle.durable_lines.specs.Lines.{IsSettled};
ghost use Rattle.meter_journal.specs.Faults.{IsSaveFault};
ghost use Rattle.meter_journal.specs.Saving.{IsFileOf};
ghost use Rattle.meter_journal.specs.declared.fault.JournalFault.{JournalFault};

use crate::fronts::{FIRST, first_file};
use crate::meters::asked_port;
use crate::waiting::run_journal;
use durable_lines::{DurableFile, MemoryFile, recover};
use meter_journal::JournalIdentity;
use relay_events::Event;
use shared_meter::{Durability, Finding, Kept, Question, settle};
use std::alloc::Global;
use std::marker::Brand;
use std::sync::Wait;
use std::test::Fail;
use turn_lock::Port;

/// What a port learned that settled before and after a press.
#[derive(Clone, Copy, Debug, PartialEq, Eq)]
struct Settled {
    /// Whether it settled for three lines before the press, twice.
    is_settled: bool,
    /// Whether the press was replied to, and a question in the same turn found four lines.
    is_pressed: bool,
    /// Whether it settled for four lines after the press.
    is_press_settled: bool,
    /// Whether the journal has failed.
    has_failed: bool,
    /// The number of lines on the disk.
    lines: u64,
}

/// Runs a journal with this file through another port of the meter, and then settles the port twice
/// before a press and once after it. Returns `None` if out of memory.
fn settle_port<L: JournalIdentity + Send + Sync, W: Wait>(
    rt: &W,
    alloc: Global,
    file: MemoryFile,
    mut port: Port<Kept>,
    other: Port<Kept>,
) -> Option<Settled>
    requires settled { IsSettled ⟦<MemoryFile as DurableFile>⟧.model file }
    requires of_file { IsFileOf ⟦<MemoryFile as DurableFile>⟧.model L.file L.first file }
    requires same_lock { (port.lock ≡ L.lock) × (other.lock ≡ L.lock) }
    requires may_end { L.may_end }
    requires may_fail { (fault : JournalFault)
        → IsSaveFault ⟦<MemoryFile as DurableFile>⟧.model L.file L.lock fault → L.may_fail fault }
{
    let (ran, _end) = run_journal::<L, W>(rt, alloc, file, other);
    let Some((progress, other)) = ran else {
        drop(port);
        return None;
    };
    drop(other);
    let is_settled = settle(rt, &mut port, &progress, None, 3)
        && settle(rt, &mut port, &progress, Some(3), 3);
    let pressed = port.call_and_inspect(rt, alloc, Event::Button, Question::Count);
    let is_press_settled = settle(rt, &mut port, &progress, None, 4);
    let has_failed = progress.has_failed(&port);
    drop(port);
    let settled = Settled {
        is_settled,
        is_pressed: matches!(pressed, Ok((_, Finding::Count(4)))),
        is_press_settled,
        has_failed,
        lines: progress.lines(),
    };
    drop(progress);
    Some(settled)
}

/// Settles a port of a meter that replied to three events, as [`settle_port`] does. Returns `None`
/// if an event got no reply, or if out of memory.
fn settle_asked<W: Wait>(rt: &W, alloc: Global, file: MemoryFile) -> Option<Settled>
    requires { IsSettled ⟦<MemoryFile as DurableFile>⟧.model file }
{
    let Ok(Some(mut port)) = asked_port(rt, alloc) else {
        drop(file);
        return None;
    };
    let Ok(other) = port.split() else {
        drop(file);
        drop(port);
        return None;
    };
    settle_port::<Brand, W>(rt, alloc, file, port, other)
}

#[test]
fn a_port_settles_once_its_lines_are_on_the_disk(rt: HostRuntime) -> Result<(), Fail> {
    let alloc = rt.alloc();
    let mut file = first_file(alloc)?;
    recover(alloc, &mut file)?;
    let settled = settle_asked(&rt, alloc, file).ok_or("no port or no journal")?;
    assert!(rt; settled.is_settled && settled.is_pressed && !settled.is_press_settled);
    assert!(rt; settled.lines == 3 && !settled.has_failed);
    Ok(())
}

#[test]
fn a_port_does_not_settle_if_the_sync_fails(rt: HostRuntime) -> Result<(), Fail> {
    let alloc = rt.alloc();
    let mut file = MemoryFile::failing_after(alloc, FIRST.to_vec(alloc)?, 2);
    recover(alloc, &mut file)?;
    let settled = settle_asked(&rt, alloc, file).ok_or("no port or no journal")?;
    assert!(rt; settled.has_failed && !settled.is_settled && !settled.is_press_settled);
    assert!(rt; settled.lines == 0);
    Ok(())
}
