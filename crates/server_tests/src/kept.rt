//! A meter behind its lock: a port reads what another wrote, and calls are refused once all turns
//! are drawn. tests/hostile.py has threads call a meter at full speed.
ghost use Rattle.std.specs.Prelude.{◌≡◌};

use crate::ports::new_lock;
use cosem_axdr::Data;
use cosem_names::{AttrRef, ClassId, Level, Obis};
use disconnect_control::ControlState;
use meter_server::{CallFault, Kept, Port, Recorder, Shared};
use relay_core::{Event, Reply};
use std::alloc::{AllocError, Global};
use std::sync::Wait;
use std::test::Fail;

/// threshold_normal of the import limiter.
const THRESHOLD: AttrRef = AttrRef {
    class: ClassId(71),
    name: Obis([0, 0, 17, 0, 0, 255]),
    number: 4,
};

/// Returns whether an event writes 7,000 as the threshold.
fn is_write(event: &Event) -> bool {
    match event {
        Event::Set {
            attr,
            value: Data::DoubleLongUnsigned(number),
            ..
        } => *attr == THRESHOLD && *number == 7_000,
        _ => false,
    }
}

/// Returns whether an event reads the threshold.
fn is_read(event: &Event) -> bool {
    match event {
        Event::Get { attr, .. } => *attr == THRESHOLD,
        _ => false,
    }
}

/// The state of a meter when its lock is closed, the number of its events, and what they are.
#[derive(Clone, Copy, Debug, PartialEq, Eq)]
struct Left {
    state: ControlState,
    threshold: u32,
    count: u16,
    are_write_and_read: bool,
    are_presses: bool,
}

/// Returns whether the events of a recorder are a write of the threshold and a read of it.
fn are_write_and_read(recorder: &Recorder) -> bool {
    if recorder.count() != 2 {
        return false;
    }
    is_write(recorder.event(0)) && is_read(recorder.event(1))
}

/// Returns whether the event of this index, if there is one, is a press of the button.
fn is_press(recorder: &Recorder, i: u16) -> bool {
    if i < recorder.count() {
        matches!(recorder.event(i), Event::Button)
    } else {
        true
    }
}

/// Returns whether the first four events of a recorder, or as many as there are, are presses of the
/// button.
fn are_presses(recorder: &Recorder) -> bool {
    for i in 0..4 {
        if !is_press(recorder, i) {
            return false;
        }
    }
    true
}

/// Returns the state of a recorder's core and its events.
fn left_of(recorder: &Recorder) -> Left {
    Left {
        state: recorder.core().state(),
        threshold: recorder.core().threshold(),
        count: recorder.count(),
        are_write_and_read: are_write_and_read(recorder),
        are_presses: are_presses(recorder),
    }
}

/// Closes a lock and returns the state of its meter, or `None` if the lock is busy.
fn close_lock(shared: Shared<Kept>, port: Port<Kept>) -> Option<Left>
    requires { port.lock ≡ shared }
{
    match shared.close(port) {
        Ok(kept) => {
            let recorder = kept.into_recorder();
            let left = left_of(&recorder);
            drop(recorder);
            Some(left)
        }
        Err((_, shared, port)) => {
            drop(shared);
            drop(port);
            None
        }
    }
}

/// Returns the code of a reply, or 255 if it has none.
fn code(reply: &Reply) -> u8 {
    match reply {
        Reply::Code(code) => code.code(),
        _ => 255,
    }
}

/// Returns the number in a reply, or 0 if it has none.
fn number(reply: &Reply) -> u32 {
    match reply {
        Reply::Value(Data::DoubleLongUnsigned(number)) => *number,
        _ => 0,
    }
}

/// Calls, and returns the code and the number of the reply.
fn ask<W: Wait>(
    rt: &W,
    alloc: Global,
    port: &mut Port<Kept>,
    event: Event,
) -> Result<(u8, u32), CallFault>
    ensures { port.new.lock ≡ port.old.lock }
{
    let reply = port.call(rt, alloc, event)?;
    let told = (code(&reply), number(&reply));
    drop(reply);
    Ok(told)
}

/// Returns a management client's write of the threshold.
fn write(value: u32) -> Event {
    Event::Set {
        level: Level::Management,
        attr: THRESHOLD,
        selected: false,
        value: Data::DoubleLongUnsigned(value),
    }
}

/// Returns a management client's read of the threshold.
fn read() -> Event {
    Event::Get {
        level: Level::Management,
        attr: THRESHOLD,
        selected: false,
    }
}

/// Passes what port `one` knows of the history to port `two`.
fn tell(one: &mut Port<Kept>, two: &mut Port<Kept>)
    requires { two.old.lock ≡ one.old.lock }
    ensures { (one.new.lock ≡ one.old.lock) × (two.new.lock ≡ two.old.lock) }
{
    two.meet(one.tell());
}

/// The code and the number of a call's reply, or why the call was refused.
type Told = Result<(u8, u32), CallFault>;

/// Writes the threshold through one port, and reads it through another that knows of the write.
fn write_and_read<W: Wait>(
    rt: &W,
    alloc: Global,
    one: &mut Port<Kept>,
) -> Result<(Told, Told), AllocError>
    ensures { one.new.lock ≡ one.old.lock }
{
    let mut two = one.split()?;
    let written = ask(rt, alloc, one, write(7_000));
    tell(one, &mut two);
    let told = ask(rt, alloc, &mut two, read());
    one.join(two);
    Ok((written, told))
}

#[test]
fn a_port_reads_what_another_wrote(rt: HostRuntime) -> Result<(), Fail> {
    let alloc = rt.alloc();
    let (shared, mut one) = new_lock(alloc, 9)?;
    let came = write_and_read(&rt, alloc, &mut one);
    let left = close_lock(shared, one);
    let (written, told) = came?;
    let are_replies = written == Ok((0, 0)) && told == Ok((255, 7_000));
    let both = Left {
        state: ControlState::Connected,
        threshold: 7_000,
        count: 2,
        are_write_and_read: true,
        are_presses: false,
    };
    assert!(rt; are_replies && left == Some(both));
    Ok(())
}

/// Returns the state of a new meter after this number of presses in mode 0, in which the button
/// does nothing.
fn presses(count: u16) -> Left {
    Left {
        state: ControlState::Connected,
        threshold: u32::MAX,
        count,
        are_write_and_read: false,
        are_presses: true,
    }
}

/// Presses the button four times through one port.
fn press_four_times<W: Wait>(rt: &W, alloc: Global, port: &mut Port<Kept>) -> [Told; 4]
    ensures { port.new.lock ≡ port.old.lock }
{
    [
        ask(rt, alloc, port, Event::Button),
        ask(rt, alloc, port, Event::Button),
        ask(rt, alloc, port, Event::Button),
        ask(rt, alloc, port, Event::Button),
    ]
}

#[test]
fn two_turns_exhaust_a_port(rt: HostRuntime) -> Result<(), Fail> {
    let alloc = rt.alloc();
    let (shared, mut port) = new_lock(alloc, 2)?;
    let [first, second, third, fourth] = press_four_times(&rt, alloc, &mut port);
    let left = close_lock(shared, port);
    let are_replies = [first, second] == [Ok((2, 0)); 2]
        && [third, fourth] == [Err(CallFault::Exhausted); 2];
    assert!(rt; are_replies && left == Some(presses(2)));
    Ok(())
}

/// Presses the button once through each of three ports.
fn press_each<W: Wait>(
    rt: &W,
    alloc: Global,
    one: &mut Port<Kept>,
    two: &mut Port<Kept>,
    three: &mut Port<Kept>,
) -> [Told; 3]
    ensures first_lock { one.new.lock ≡ one.old.lock }
    ensures second_lock { two.new.lock ≡ two.old.lock }
    ensures third_lock { three.new.lock ≡ three.old.lock }
{
    [
        ask(rt, alloc, one, Event::Button),
        ask(rt, alloc, two, Event::Button),
        ask(rt, alloc, three, Event::Button),
    ]
}

/// Presses the button twice through each of three ports, in turn.
fn press_twice_each<W: Wait>(
    rt: &W,
    alloc: Global,
    one: &mut Port<Kept>,
) -> Result<([Told; 3], [Told; 3]), AllocError>
    ensures { one.new.lock ≡ one.old.lock }
{
    let mut two = one.split()?;
    match two.split() {
        Ok(mut three) => {
            let first = press_each(rt, alloc, one, &mut two, &mut three);
            let second = press_each(rt, alloc, one, &mut two, &mut three);
            two.join(three);
            one.join(two);
            Ok((first, second))
        }
        Err(error) => {
            one.join(two);
            Err(error)
        }
    }
}

#[test]
fn three_turns_exhaust_three_ports(rt: HostRuntime) -> Result<(), Fail> {
    let alloc = rt.alloc();
    let (shared, mut port) = new_lock(alloc, 3)?;
    let came = press_twice_each(&rt, alloc, &mut port);
    let left = close_lock(shared, port);
    let (first, second) = came?;
    let are_replies = first == [Ok((2, 0)); 3] && second == [Err(CallFault::Exhausted); 3];
    assert!(rt; are_replies && left == Some(presses(3)));
    Ok(())
}
