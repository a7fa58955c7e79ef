//! `MeterTerms`: what a meter is made of; `FleetTerms`: what each meter of a fleet is made of.
ghost use Rattle.std.specs.Prelude.{◌≡◌, ◌≢◌, IfOk, IfErr};
ghost use Rattle.acse_ber.specs.Password.{IsPassword};
ghost use Rattle.fleet_meters.specs.Passwords.{other_byte, other_password};
ghost use Rattle.fleet_meters.specs.Traces.{IsTrace};
ghost use Rattle.relay_recorder.specs.Recording.{IsCapacity};
ghost use Rattle.trace_player.specs.Traces.{trace_of};
ghost use Rattle.trace_words.specs.declared.fault.TraceFault.TheVariants.{Memory};
ghost use Rattle.wire_bytes.specs.Outcome.{Fails};

use cosem_axdr::Octets;
use fleet_faults::{FaultPlan, InjectedFault};
use std::alloc::{AllocError, Global};
use trace_player::{TraceFault, read_trace};

/// What a new meter of a fleet is made of: the trace that it continues from, the password of its
/// management client, 1 to 32 bytes, and the number of events that it keeps, 1 to 1,024.
#[derive(Drop)]
pub struct MeterTerms {
    /// The text of the trace that the meter continues from.
    pub trace: Octets,
    /// The password of the management client, 1 to 32 bytes.
    pub password: Octets,
    /// The number of events that the meter keeps, 1 to 1,024.
    pub kept_events: u16,
    ghost continues: { IsTrace trace },
    ghost guarded: { IsPassword password },
    ghost keeps: { IsCapacity kept_events },
}

// Judges whether a text is a trace. Errors: the fault of one that is not, or `Memory`.
fn judge_trace(alloc: Global, text: &Octets) -> Result<(), TraceFault>
    ensures is_trace { IfOk result (λ _. IsTrace text.now) }
    ensures fault { IfErr result (λ fault. Fails Memory fault (trace_of text.now)) }
{
    drop(read_trace(alloc, text.as_slice())?);
    Ok(())
}

// Returns the digit 0, or the digit 1 instead of the digit 0.
fn other_byte(byte: u8) -> u8
    ensures { result ≡ other_byte byte }
{
    if byte == b'0' { b'1' } else { b'0' }
}

// Returns a password with another first byte: the digit 0, or 1 if the password begins with 0.
fn other_password(alloc: Global, password: &Octets) -> Result<Octets, AllocError>
    ensures { IfOk result (λ other. other ≡ other_password password.now) }
{
    let mut other = Octets::new(alloc);
    if let Some((first, rest)) = password.as_slice().split_first() {
        other.push(other_byte(*first))?;
        other.extend_from_slice(rest)?;
    }
    Ok(other)
}

impl MeterTerms {
    /// Returns the terms of meters that each continue from the end of the trace in `trace`.
    /// Errors: the fault of a text that is not a trace, or `Memory`.
    pub fn from_trace(
        alloc: Global,
        trace: Octets,
        password: Octets,
        kept_events: u16,
    ) -> Result<MeterTerms, TraceFault>
        requires password { IsPassword password }
        requires kept { IsCapacity kept_events }
        ensures is_trace { IfOk result (λ _. IsTrace trace) }
        ensures terms { IfOk result (λ terms. (terms.trace ≡ trace) × (terms.password ≡ password)
            × (terms.kept_events ≡ kept_events)) }
        ensures fault { IfErr result (λ fault. Fails Memory fault (trace_of trace)) }
    {
        match judge_trace(alloc, &trace) {
            Ok(()) => Ok(MeterTerms {
                trace,
                password,
                kept_events,
            }),
            Err(fault) => {
                drop(trace);
                drop(password);
                Err(fault)
            }
        }
    }

    // Returns the terms of a meter that has another password, whose first byte differs.
    #[tactic(auto, using(crate::proofs::Passwords::other_guarded))]
    fn with_other_password(&self, alloc: Global) -> Result<MeterTerms, AllocError>
        ensures { IfOk result (λ terms. (terms.trace ≡ self.now.trace)
            × (terms.password ≡ other_password self.now.password)
            × (terms.kept_events ≡ self.now.kept_events)) }
    {
        let count = self.kept_events;
        let trace = self.trace.try_clone(alloc)?;
        match other_password(alloc, &self.password) {
            Ok(password) => Ok(MeterTerms {
                trace,
                password,
                kept_events: count,
            }),
            Err(error) => {
                drop(trace);
                Err(error)
            }
        }
    }

    // Returns the terms of a meter that continues from another trace. Errors: those of
    // `from_trace`.
    fn with_trace(&self, alloc: Global, trace: Octets) -> Result<MeterTerms, TraceFault>
        ensures is_trace { IfOk result (λ _. IsTrace trace) }
        ensures terms { IfOk result (λ terms. (terms.trace ≡ trace)
            × (terms.password ≡ self.now.password)
            × (terms.kept_events ≡ self.now.kept_events)) }
        ensures fault { IfErr result (λ fault. Fails Memory fault (trace_of trace)) }
    {
        let count = self.kept_events;
        match self.password.try_clone(alloc) {
            Ok(password) => MeterTerms::from_trace(alloc, trace, password, count),
            Err(_) => {
                drop(trace);
                Err(TraceFault::Memory)
            }
        }
    }
}

/// What each meter of a fleet is made of, which depends on its fault.
#[derive(Drop)]
pub struct FleetTerms {
    /// The terms of a meter with neither of the two faults below.
    pub common: MeterTerms,
    /// The terms of a meter with the fault `WrongPassword`: the first byte of its password differs
    /// from that of the common one.
    pub wrong_password: MeterTerms,
    /// The terms of a meter with the fault `Refuses`: it continues from another trace.
    pub refuses: MeterTerms,
    /// The fault of each meter.
    pub plan: FaultPlan,
    ghost differs: { wrong_password.password ≡ other_password common.password },
    ghost continues: { wrong_password.trace ≡ common.trace },
    ghost guarded: { refuses.password ≡ common.password },
    ghost keep: { (wrong_password.kept_events ≡ common.kept_events)
        × (refuses.kept_events ≡ common.kept_events) },
}

impl FleetTerms {
    ghost use Rattle.fleet_meters.specs.Terms.{terms_of};

    /// Returns the terms of the meters of a fleet: the common ones, and those of meters with the
    /// faults `WrongPassword` and `Refuses`. The latter continue from the end of the trace in
    /// `refusing`, whose control mode must be 0. Errors: the fault of a `refusing` that is not a
    /// trace, or `Memory`.
    #[tactic(auto, using(crate::proofs::Passwords::other_differs))]
    pub fn new(
        alloc: Global,
        common: MeterTerms,
        refusing: Octets,
        plan: FaultPlan,
    ) -> Result<FleetTerms, TraceFault>
        ensures is_trace { IfOk result (λ _. IsTrace refusing) }
        ensures terms { IfOk result (λ terms. (terms.common ≡ common)
            × (terms.refuses.trace ≡ refusing) × (terms.plan ≡ plan)) }
        ensures differs { IfOk result (λ terms.
            terms.wrong_password.password ≢ common.password) }
        ensures fault { IfErr result (λ fault. Fails Memory fault (trace_of refusing)) }
    {
        let wrong_password = match common.with_other_password(alloc) {
            Ok(terms) => terms,
            Err(_) => {
                drop(common);
                drop(refusing);
                return Err(TraceFault::Memory);
            }
        };
        match common.with_trace(alloc, refusing) {
            Ok(refuses) => Ok(FleetTerms {
                common,
                wrong_password,
                refuses,
                plan,
            }),
            Err(fault) => {
                drop(common);
                drop(wrong_password);
                Err(fault)
            }
        }
    }

    /// Returns the terms of the meter with this number, counted from 1: those of its fault.
    #[tactic(auto, unfolding(crate::specs::Terms::terms_of))]
    pub fn of_meter(&self, number: usize) -> &MeterTerms
        ensures { result.now ≡ terms_of self.now number }
    {
        match self.plan.fault_of(number) {
            Some(InjectedFault::WrongPassword) => &self.wrong_password,
            Some(InjectedFault::Refuses) => &self.refuses,
            Some(InjectedFault::Silent | InjectedFault::Slow) => &self.common,
            Some(InjectedFault::Vanishes | InjectedFault::Closes) => &self.common,
            None => &self.common,
        }
    }
}
