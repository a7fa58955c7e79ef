//! The terms of meters: a trace that they continue from, and texts that are none.
use crate::silent_fleets::TRACE;
use cosem_axdr::Octets;
use fleet_faults::{FaultPlan, FaultShares};
use fleet_meters::{FleetTerms, MeterTerms};
use std::alloc::{AllocError, Global};
use std::process::Abort;
use std::test::Fail;
use trace_words::TraceFault;

/// Returns the fault of a trace with the password 12345678 and 4 events, or `None` if it has none
/// and the terms are these.
fn fault_of(rt: &impl Abort, alloc: Global, text: &[u8]) -> Result<Option<TraceFault>, AllocError> {
    let trace = Octets::from_slice(alloc, text)?;
    let password = Octets::from_slice(alloc, b"12345678")?;
    assert!(rt; password.len() == 8);
    match MeterTerms::from_trace(alloc, trace, password, 4) {
        Ok(terms) => {
            assert!(rt;
                terms.trace.as_slice() == text
                    && terms.password.as_slice() == b"12345678".as_slice()
                    && terms.kept_events == 4
            );
            drop(terms);
            Ok(None)
        }
        Err(fault) => Ok(Some(fault)),
    }
}

#[test]
fn a_trace_is_checked(rt: HostRuntime) -> Result<(), Fail> {
    let alloc = rt.alloc();
    assert!(rt;
        fault_of(&rt, alloc, TRACE)?.is_none()
            && fault_of(&rt, alloc, b"")? == Some(TraceFault::Line(1))
    );
    let (shortened, _) = TRACE.split_at(TRACE.len() - 9);
    assert!(rt; fault_of(&rt, alloc, shortened)? == Some(TraceFault::Line(21)));
    Ok(())
}

/// Returns the fault of terms whose refusing meters continue from this text, or `None`.
fn refusing_fault(alloc: Global, text: &[u8]) -> Result<Option<TraceFault>, TraceFault> {
    let trace = Octets::from_slice(alloc, TRACE)?;
    let password = Octets::from_slice(alloc, b"12345678")?;
    let common = MeterTerms::from_trace(alloc, trace, password, 4)?;
    let plan = FaultPlan {
        shares: FaultShares::new(),
        seed: 0,
    };
    match FleetTerms::new(alloc, common, Octets::from_slice(alloc, text)?, plan) {
        Ok(terms) => {
            drop(terms);
            Ok(None)
        }
        Err(fault) => Ok(Some(fault)),
    }
}

#[test]
fn the_trace_of_refusing_meters_is_checked(rt: HostRuntime) -> Result<(), Fail> {
    let alloc = rt.alloc();
    let (shortened, _) = TRACE.split_at(TRACE.len() - 9);
    assert!(rt;
        refusing_fault(alloc, TRACE)?.is_none()
            && refusing_fault(alloc, b"")? == Some(TraceFault::Line(1))
            && refusing_fault(alloc, shortened)? == Some(TraceFault::Line(21))
    );
    Ok(())
}
