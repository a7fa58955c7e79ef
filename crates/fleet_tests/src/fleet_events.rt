//! Events that meters of a fleet are given: the button disconnects and reconnects in mode 1
//! (IEC 62056-6-2, class 70), for one meter alone.
use crate::silent_fleets::{Silence, new_fleet};
use disconnect_control::ControlState;
use fleet_meters::{AccessFault, Fleet};
use relay_events::Event;
use std::alloc::Global;
use std::process::Abort;
use std::test::Fail;

/// Presses the button of a meter, and returns why that failed.
fn press(alloc: Global, fleet: &mut Fleet<Silence>, meter: usize) -> Option<AccessFault> {
    match fleet.give(alloc, meter, Event::Button) {
        Ok(reply) => {
            drop(reply);
            None
        }
        Err(fault) => Some(fault),
    }
}

/// Presses the buttons of meters 2 and 3, and of meters that there are not.
fn press_buttons(rt: &impl Abort, alloc: Global, fleet: &mut Fleet<Silence>) -> Result<(), Fail> {
    assert!(rt;
        fleet.meters() == 3
            && fleet.count(alloc, ControlState::Connected)? == 3
            && press(alloc, fleet, 2).is_none()
            && press(alloc, fleet, 0) == Some(AccessFault::NoMeter)
            && press(alloc, fleet, 4) == Some(AccessFault::NoMeter)
            && fleet.state(alloc, 1) == Ok(ControlState::Connected)
    );
    assert!(rt;
        fleet.state(alloc, 2) == Ok(ControlState::ReadyForReconnection)
            && fleet.state(alloc, 3) == Ok(ControlState::Connected)
            && fleet.state(alloc, 4) == Err(AccessFault::NoMeter)
            && fleet.count(alloc, ControlState::ReadyForReconnection)? == 1
            && fleet.count(alloc, ControlState::Connected)? == 2
            && fleet.count(alloc, ControlState::Disconnected)? == 0
    );
    assert!(rt;
        press(alloc, fleet, 2).is_none() && fleet.state(alloc, 2) == Ok(ControlState::Connected)
    );
    Ok(())
}

#[test]
fn one_meter_is_given_an_event(rt: HostRuntime) -> Result<(), Fail> {
    let mut fleet = new_fleet(rt.alloc())?;
    let done = press_buttons(&rt, rt.alloc(), &mut fleet);
    drop(fleet);
    done
}

/// Returns whether the trace of a meter ends with a text.
fn ends_with(alloc: Global, fleet: &Fleet<Silence>, meter: usize, end: &[u8]) -> bool {
    match fleet.trace(alloc, meter) {
        Ok(text) => text.as_slice().ends_with(end),
        Err(_) => false,
    }
}

#[test]
fn a_trace_has_the_events_of_its_meter(rt: HostRuntime) -> Result<(), Fail> {
    let alloc = rt.alloc();
    let mut fleet = new_fleet(alloc)?;
    let is_pressed = press(alloc, &mut fleet, 2).is_none();
    let has_event = ends_with(alloc, &fleet, 2, b"events 1\nbutton\n");
    let is_untouched = ends_with(alloc, &fleet, 3, b"events 0\n");
    drop(fleet);
    assert!(rt; is_pressed && has_event && is_untouched);
    Ok(())
}
