//! What no contract of `turn_lock` states: that calls succeed; and that the second of two calls is
//! after the first if its port has read a note of it. tests/unproved/long_tests has calls by
//! several threads.
ghost use Rattle.std.specs.Prelude.{◌≡◌, ◌<◌, ◌≤◌, IfOk};
ghost use Rattle.turn_lock.specs.History.{entry};
ghost use Rattle.turn_lock.specs.Rule.{max_turns};
ghost use Rattle.turn_lock.specs.Trials.{FollowsCall};

mod counter;

use counter::{Bump, Counter, RefusingCounter, Wish};
use std::alloc::{AllocError, Global};
use std::sync::Wait;
use std::test::Fail;
use turn_lock::{CallFault, Port, Shared, Turned};

// The result of a call on a test's value.
type Answer = Result<u64, CallFault>;

/// Makes a lock around a new counter.
fn start(alloc: Global, bound: u64) -> Result<(Shared<Counter>, Port<Counter>), AllocError>
    requires { (0 < bound) × (bound ≤ max_turns) }
    ensures { IfOk result (λ r. r.1.lock ≡ r.0) }
{
    Shared::new(alloc, Counter::new(), bound).map_err(|_| AllocError)
}

/// Closes the lock and returns the count, or `None` if the lock is busy.
fn close(shared: Shared<Counter>, port: Port<Counter>) -> Option<u64>
    requires { port.lock ≡ shared }
{
    match shared.close(port) {
        Ok(value) => {
            let count = value.count;
            drop(value);
            Some(count)
        }
        Err(refusal) => {
            drop(refusal);
            None
        }
    }
}

fn ask_moody<W: Wait>(rt: &W, alloc: Global, port: &mut Port<RefusingCounter>) -> [Answer; 5]
    ensures { port.new.lock ≡ port.old.lock }
{
    [
        port.call(rt, alloc, Wish::Bump),
        port.call(rt, alloc, Wish::Refuse),
        port.call(rt, alloc, Wish::Bump),
        port.call(rt, alloc, Wish::Bump),
        port.call(rt, alloc, Wish::Bump),
    ]
}

// Returns the results of the calls on a refusing counter, and its count when the lock is closed.
fn call_moody<W: Wait>(rt: &W, alloc: Global) -> Result<([Answer; 5], Option<u64>), AllocError> {
    let (shared, mut port) = Shared::new(alloc, RefusingCounter::new(), 3).map_err(|_| AllocError)?;
    let answers = ask_moody(rt, alloc, &mut port);
    match shared.close(port) {
        Ok(value) => {
            let count = value.count;
            drop(value);
            Ok((answers, Some(count)))
        }
        Err(refusal) => {
            drop(refusal);
            Ok((answers, None))
        }
    }
}

#[test]
fn leaves_the_value_for_want_of_memory(rt: HostRuntime) -> Result<(), Fail> {
    let (answers, count) = call_moody(&rt, rt.alloc())?;
    let (none, over) = (Err(CallFault::Memory), Err(CallFault::Exhausted));
    assert!(rt; answers == [Ok(1), none, Ok(2), over, over] && count == Some(2));
    Ok(())
}

// Calls a refusing counter and asks in the same turn, in each of four calls, whether its count is
// this number.
fn ask_in_turn<W: Wait>(
    rt: &W,
    alloc: Global,
) -> Result<[Result<(u64, bool), CallFault>; 4], AllocError> {
    let (shared, mut port) = Shared::new(alloc, RefusingCounter::new(), 3).map_err(|_| AllocError)?;
    let answers = [
        port.call_and_inspect(rt, alloc, Wish::Bump, 1),
        port.call_and_inspect(rt, alloc, Wish::Refuse, 1),
        port.call_and_inspect(rt, alloc, Wish::Bump, 1),
        port.call_and_inspect(rt, alloc, Wish::Bump, 3),
    ];
    drop(port);
    drop(shared);
    Ok(answers)
}

#[test]
fn asks_in_the_turn_of_a_call(rt: HostRuntime) -> Result<(), Fail> {
    let answers = ask_in_turn(&rt, rt.alloc())?;
    let (none, over) = (Err(CallFault::Memory), Err(CallFault::Exhausted));
    assert!(rt; answers == [Ok((1, true)), none, Ok((2, false)), over]);
    Ok(())
}

// Calls through one port, passes a note of it to the other, and calls through that: the second call
// is after the first in one legal history.
fn call_when_told<T: Turned, W: Wait>(
    rt: &W,
    alloc: Global,
    one: &mut Port<T>,
    two: &mut Port<T>,
    first: T::Event,
    second: T::Event,
) -> Result<(T::Reply, T::Reply), CallFault>
    requires { one.old.lock ≡ two.old.lock }
    ensures lock { (one.new.lock ≡ one.old.lock) × (two.new.lock ≡ two.old.lock) }
    ensures follows { IfOk result
        (λ r. FollowsCall T.legal (entry one.old.known.number first r.0)
        (entry two.old.known.number second r.1) two.new.known) }
{
    match one.call(rt, alloc, first) {
        Ok(a) => {
            let note = one.tell();
            two.meet(note);
            match two.call(rt, alloc, second) {
                Ok(b) => Ok((a, b)),
                Err(fault) => {
                    drop(a);
                    Err(fault)
                }
            }
        }
        Err(fault) => {
            drop(second);
            Err(fault)
        }
    }
}

#[test]
fn tells_and_meets(rt: HostRuntime) -> Result<(), Fail> {
    let alloc = rt.alloc();
    let (shared, mut one) = start(alloc, 9)?;
    let mut two = one.split()?;
    let told = call_when_told(&rt, alloc, &mut one, &mut two, Bump, Bump);
    one.join(two);
    let count = close(shared, one);
    assert!(rt; told == Ok((1, 2)) && count == Some(2));
    Ok(())
}
