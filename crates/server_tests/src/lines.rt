//! The lines of a journal: each event that may change the meter is noted while its lock is held, in
//! the order of the calls, and is taken once.
ghost use Rattle.std.specs.Prelude.{◌<◌, ◌≤◌};

use crate::ports::{lock_over, new_recorder};
use cosem_axdr::Data;
use cosem_names::{AttrRef, ClassId, Level, Obis};
use relay_events::Event;
use shared_meter::{Finding, Kept, PendingLines, Question};
use std::alloc::{AllocError, Global};
use std::sync::Wait;
use std::test::Fail;
use turn_lock::{Port, Shared};

/// control_mode of the supply switch.
const MODE: AttrRef = AttrRef {
    class: ClassId(70),
    name: Obis([0, 0, 96, 3, 10, 255]),
    number: 4,
};

/// Returns a management client's read of control_mode.
fn read_mode() -> Event {
    Event::Get {
        level: Level::Management,
        attr: MODE,
        selected: false,
    }
}

/// Returns a management client's write of mode 1.
fn write_mode() -> Event {
    Event::Set {
        level: Level::Management,
        attr: MODE,
        selected: false,
        value: Data::Enum(1),
    }
}

/// Returns a lock over a new meter with a journal, and its first port.
fn new_journal(alloc: Global, bound: u64) -> Result<(Shared<Kept>, Port<Kept>), AllocError>
    requires { (0 < bound) × (bound ≤ 1000) }
{
    let pending = PendingLines::new(alloc, 64)?;
    match new_recorder(alloc) {
        Ok(recorder) => lock_over(alloc, Kept::with_journal(recorder, pending), bound),
        Err(error) => {
            drop(pending);
            Err(error)
        }
    }
}

/// Returns the number of lines, or `None` if they are not all known.
fn count<W: Wait>(rt: &W, alloc: Global, port: &mut Port<Kept>) -> Option<u64> {
    match port.inspect(rt, alloc, Question::Count)? {
        Finding::Count(count) => Some(count),
        Finding::Taken { .. } | Finding::Incomplete => None,
    }
}

/// Takes the lines after the first `taken`, and returns their text and the number of all lines.
fn take<W: Wait>(
    rt: &W,
    alloc: Global,
    port: &mut Port<Kept>,
    taken: u64,
) -> Option<(Vec<u8>, u64)> {
    let room = Vec::new(alloc);
    match port.inspect(rt, alloc, Question::Take { taken, room })? {
        Finding::Taken {
            text,
            count,
            switches: _,
        } => Some((text, count)),
        Finding::Count(_) | Finding::Incomplete => None,
    }
}

/// Returns whether the lines after the first `taken` are these, and `count` is the number of all.
fn are_next_lines<W: Wait>(
    rt: &W,
    alloc: Global,
    port: &mut Port<Kept>,
    taken: u64,
    lines: &[u8],
    count: u64,
) -> bool {
    match take(rt, alloc, port, taken) {
        Some((text, all)) => text.as_slice() == lines && all == count,
        None => false,
    }
}

/// Calls the meter, and returns whether it replied.
fn ask<W: Wait>(rt: &W, alloc: Global, port: &mut Port<Kept>, event: Event) -> bool {
    port.call(rt, alloc, event).is_ok()
}

#[test]
fn changing_events_are_noted_and_taken_once(rt: HostRuntime) -> Result<(), Fail> {
    let alloc = rt.alloc();
    let (shared, mut port) = new_journal(alloc, 100)?;
    let none = count(&rt, alloc, &mut port) == Some(0)
        && are_next_lines(&rt, alloc, &mut port, 0, b"", 0);
    let are_replies = ask(&rt, alloc, &mut port, write_mode())
        && ask(&rt, alloc, &mut port, read_mode())
        && ask(&rt, alloc, &mut port, Event::Button);
    let two = count(&rt, alloc, &mut port) == Some(2)
        && are_next_lines(
            &rt,
            alloc,
            &mut port,
            0,
            b"set 1 70 000060030AFF 4 0 1601\nbutton\n",
            2,
        );
    let third = ask(&rt, alloc, &mut port, Event::Moment(5))
        && are_next_lines(&rt, alloc, &mut port, 2, b"moment 5\n", 3)
        && are_next_lines(&rt, alloc, &mut port, 3, b"", 3);
    drop(port);
    drop(shared);
    assert!(rt; none && are_replies && two && third);
    Ok(())
}

#[test]
fn lines_are_not_taken_from_another_place(rt: HostRuntime) -> Result<(), Fail> {
    let alloc = rt.alloc();
    let (shared, mut port) = new_journal(alloc, 100)?;
    let is_reply = ask(&rt, alloc, &mut port, Event::Button);
    let other = take(&rt, alloc, &mut port, 1).is_none();
    let still = are_next_lines(&rt, alloc, &mut port, 0, b"button\n", 1);
    let again = take(&rt, alloc, &mut port, 0).is_none();
    drop(port);
    drop(shared);
    assert!(rt; is_reply && other && still && again);
    Ok(())
}

#[test]
fn a_meter_without_a_journal_has_no_lines(rt: HostRuntime) -> Result<(), Fail> {
    let alloc = rt.alloc();
    let recorder = new_recorder(alloc)?;
    let (shared, mut port) = lock_over(alloc, Kept::new(recorder), 100)?;
    let is_reply = ask(&rt, alloc, &mut port, Event::Button);
    let is_none = count(&rt, alloc, &mut port).is_none()
        && take(&rt, alloc, &mut port, 0).is_none();
    drop(port);
    drop(shared);
    assert!(rt; is_reply && is_none);
    Ok(())
}

#[test]
fn a_question_uses_up_a_turn(rt: HostRuntime) -> Result<(), Fail> {
    let alloc = rt.alloc();
    let (shared, mut port) = new_journal(alloc, 2)?;
    let is_reply = ask(&rt, alloc, &mut port, Event::Button);
    let one = count(&rt, alloc, &mut port);
    let over = port.inspect(&rt, alloc, Question::Count).is_none();
    drop(port);
    drop(shared);
    assert!(rt; is_reply && one == Some(1) && over);
    Ok(())
}
