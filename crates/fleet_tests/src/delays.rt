//! Events of prompt and late connections, in milliseconds.
use fleet_faults::Delays;
use std::test::Fail;

#[test]
fn events_of_late_connections_are_held_back(rt: HostRuntime) -> Result<(), Fail> {
    let mut delays = Delays::new(rt.alloc());
    let mut ready = Vec::new(rt.alloc());
    delays.set(0, true)?;
    delays.set(2, true)?;
    delays.set(1, false)?;
    for key in [0, 1, 2, 9] {
        delays.report(key, 2_000, &mut ready)?;
    }
    assert!(rt; ready.as_slice() == [1, 9].as_slice());
    ready.clear();
    delays.report(2, 2_500, &mut ready)?;
    delays.take_due(1_999, &mut ready)?;
    assert!(rt; ready.is_empty());
    delays.take_due(2_000, &mut ready)?;
    assert!(rt; ready.as_slice() == [0].as_slice());
    ready.clear();
    delays.take_due(2_600, &mut ready)?;
    assert!(rt; ready.as_slice() == [2].as_slice());
    ready.clear();
    delays.take_due(9_999, &mut ready)?;
    assert!(rt; ready.is_empty());
    Ok(())
}

#[test]
fn a_key_is_used_again(rt: HostRuntime) -> Result<(), Fail> {
    let mut delays = Delays::new(rt.alloc());
    let mut ready = Vec::new(rt.alloc());
    delays.set(3, true)?;
    delays.report(3, 2_000, &mut ready)?;
    delays.set(3, false)?;
    delays.take_due(9_999, &mut ready)?;
    assert!(rt; ready.is_empty());
    delays.report(3, 9_999, &mut ready)?;
    assert!(rt; ready.as_slice() == [3].as_slice());
    Ok(())
}
