//! The control states of new meters, and the number of meters that are in a control state.
ghost use Rattle.std.specs.Prelude.{◌≡◌, None, IfOk};
ghost use Rattle.disconnect_control.specs.Transitions.{is_state};
ghost use Rattle.fleet_meters.specs.Fleets.{CountsIn};
ghost use Rattle.fleet_meters.specs.FirstStates.{AreFirst, first_with};

use crate::place::{MeterPlace, first_state};
use crate::terms::FleetTerms;
use disconnect_control::ControlState;
use fleet_faults::InjectedFault;
use std::alloc::{AllocError, Global};

/// The control states of new meters, by their faults.
#[derive(Clone, Copy, Debug, PartialEq, Eq)]
pub(crate) struct FirstStates {
    pub(crate) common: ControlState,
    pub(crate) wrong_password: ControlState,
    pub(crate) refuses: ControlState,
}

// Returns the control states of new meters. Fails if out of memory.
pub(crate) fn first_states(alloc: Global, terms: &FleetTerms) -> Result<FirstStates, AllocError>
    ensures { IfOk result (AreFirst terms.now) }
{
    let common = first_state(alloc, &terms.common)?;
    let wrong_password = first_state(alloc, &terms.wrong_password)?;
    let refuses = first_state(alloc, &terms.refuses)?;
    Ok(FirstStates {
        common,
        wrong_password,
        refuses,
    })
}

impl FirstStates {
    // Returns the control state of a new meter with this fault, or without one.
    fn with_fault(self, fault: Option<InjectedFault>) -> ControlState
        ensures { result ≡ first_with self fault }
    {
        match fault {
            Some(InjectedFault::WrongPassword) => self.wrong_password,
            Some(InjectedFault::Refuses) => self.refuses,
            Some(InjectedFault::Silent | InjectedFault::Slow) => self.common,
            Some(InjectedFault::Vanishes | InjectedFault::Closes) => self.common,
            None => self.common,
        }
    }
}

// Returns the number of places whose meters are in a control state, where the states of new meters
// are these.
pub(crate) fn count_places(
    places: &[MeterPlace],
    terms: &FleetTerms,
    firsts: FirstStates,
    state: ControlState,
) -> usize
    requires { AreFirst terms.now firsts }
    ensures { CountsIn terms.now places.now state result }
{
    let mut count = 0;
    'places: for at in 0..places.len() {
        let first = firsts.with_fault(terms.plan.fault_of(at + 1));
        if is_state(places[at].state_or(first), state) {
            count += 1;
        }
    }
    count
}

// Returns whether two control states are the same.
fn is_state(one: ControlState, other: ControlState) -> bool
    ensures { result ≡ is_state one other }
{
    one == other
}
