//! A fleet of three meters without clients.
ghost use Rattle.std.specs.Prelude.{None, if◌then◌else◌};

use cosem_axdr::Octets;
use fleet_faults::{FaultPlan, FaultShares};
use fleet_links::{Received, Sent, Stream};
use fleet_meters::{Fleet, FleetTerms, MeterTerms};
use std::alloc::Global;
use trace_words::TraceFault;

/// The trace of a new meter in mode 1.
pub(crate) const TRACE: &[u8] = b"RELAYTRACE 1
device 52454C415931
state 1
mode 1
value 0
now -
normal 4294967295
emergency 4294967295
minover 0
minunder 0
profile 0 FFFFFFFFFFFFFFFFFF8000FF 0
groups
actions 0 0
over 0 0
under 0 0
scripts 0100
schedule 0 0 5 0100
schedule 1 0 5 0100
schedule 2 0 5 0100
schedule 3 0 5 0100
events 0
";

/// A stream on which nothing arrives, and which takes nothing.
#[derive(Drop)]
pub(crate) struct Silence {
    has_blocked: bool,
}

impl Stream for Silence {
    ghost state = { λ s. record {
      arrived = None;
      written = None;
      blocks = if s.has_blocked then 1 else 0;
      ends = 0;
    } };

    fn read(&mut self, _: &mut [u8]) -> Received {
        self.has_blocked = !self.has_blocked;
        Received::Blocked
    }

    fn write(&mut self, _: &[u8]) -> Sent {
        self.has_blocked = !self.has_blocked;
        Sent::Blocked
    }
}

/// Returns a fleet of three meters without faults, with the password 12345678.
pub(crate) fn new_fleet(alloc: Global) -> Result<Fleet<Silence>, TraceFault> {
    let trace = Octets::from_slice(alloc, TRACE)?;
    let password = Octets::from_slice(alloc, b"12345678")?;
    let refusing = Octets::from_slice(alloc, TRACE)?;
    let common = MeterTerms::from_trace(alloc, trace, password, 4)?;
    let plan = FaultPlan {
        shares: FaultShares::new(),
        seed: 0,
    };
    Ok(Fleet::new(alloc, FleetTerms::new(alloc, common, refusing, plan)?, 3)?)
}
