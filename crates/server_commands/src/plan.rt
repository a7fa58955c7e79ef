//! Validates the options of `meter_server serve` and makes its meter: a new one, or one that
//! resumes from a trace.
ghost use Rattle.std.specs.Prelude.{◌≡◌, ◌≤◌, [], length, true, false, IfOk, IfErr, IsTrue, ◌↔◌};
ghost use Rattle.std.specs.String.{string_bytes};
ghost use Rattle.acse_ber.specs.Password.{IsPassword};
ghost use Rattle.relay_core.specs.Opening.{opening_of};
ghost use Rattle.relay_core.specs.World.{IsDeviceName, new_world};
ghost use Rattle.relay_recorder.specs.Histories.{StandsForHistory};
ghost use Rattle.counted_io.specs.Lines.{has_failed_in, left_in};
ghost use Rattle.relay_recorder.specs.Recording.{IsCapacity};
ghost use Rattle.server_commands.specs.Heads.{IsHeadFault};
ghost use Rattle.server_commands.specs.Plans.{IsPlanFault, IsRecorderFault, Resumes};
ghost use Rattle.server_commands.specs.declared.plan_fault.PlanFault.TheVariants.{Memory};

use crate::heading::read_head;
use crate::options::{Bounds, ServeOptions};
use crate::plan_fault::PlanFault;
use crate::texts::option_octets;
use acse_ber::MAX_PASSWORD;
use cosem_axdr::Octets;
use counted_io::Monitored;
use program::Fault;
use relay_core::MAX_DEVICE_NAME;
use relay_recorder::{MAX_CAPACITY, Recorder};
use std::alloc::{AllocError, Global};
use std::io::{BufReader, Read};
use trace_player::resume_recorder;

// Returns the recorder of a meter that resumes from the trace at the head of an input. The input
// after the trace is not read. Errors: those of `read_head`.
fn resume_from_head<I: Read>(
    alloc: Global,
    input: &mut BufReader<Monitored<I>>,
    depth: u16,
) -> Result<Recorder, PlanFault>
    requires { IsCapacity depth }
    ensures unused { IfOk result (λ recorder. recorder.events ≡ []) }
    ensures capacity { IfOk result (λ recorder. recorder.capacity ≡ depth) }
    ensures resumed { IfOk result
        (Resumes (left_in I.remaining input.old) (left_in I.remaining input.new)) }
    ensures err { IfErr result
        (IsHeadFault (left_in I.remaining input.old) (has_failed_in input.new)) }
{
    let trace = match read_head(alloc, input) {
        Ok(trace) => trace,
        Err(fault) => return Err(fault),
    };
    let made = resume_recorder(alloc, &trace, depth);
    drop(trace);
    match made {
        Ok(recorder) => Ok(recorder),
        Err(_) => Err(PlanFault::Memory),
    }
}

// Returns the recorder of a new meter with this name.
fn new_recorder(alloc: Global, device: &Octets, depth: u16) -> Result<Recorder, PlanFault>
    requires device { IsDeviceName device.now }
    requires depth { IsCapacity depth }
    ensures unused { IfOk result (λ recorder. recorder.events ≡ []) }
    ensures capacity { IfOk result (λ recorder. recorder.capacity ≡ depth) }
    ensures new_world { IfOk result
        (λ recorder. StandsForHistory recorder [] (new_world device.now)) }
    ensures err { IfErr result (λ fault. fault ≡ Memory) }
{
    match Recorder::new(alloc, device, depth) {
        Ok(recorder) => Ok(recorder),
        Err(_) => Err(PlanFault::Memory),
    }
}

/// Returns whether a meter has this name. Fails if out of memory.
pub fn has_name(alloc: Global, recorder: &Recorder, name: &str) -> Result<bool, AllocError>
    ensures { IfOk result
        (λ has. IsTrue has ↔ ((opening_of recorder.now.core).device ≡ name.now)) }
{
    let opening = recorder.core().to_opening(alloc)?;
    let has = opening.device.as_slice() == name.as_bytes();
    drop(opening);
    Ok(has)
}

// Returns the recorder that the meter starts with: that of a new meter, or of one that resumes
// from the trace at the head of an input.
#[tactic(auto, using(crate::proofs::PlanFaults::no_recorder))]
fn prepare_recorder<I: Read>(
    alloc: Global,
    device: &Octets,
    bounds: Bounds,
    input: &mut BufReader<Monitored<I>>,
) -> Result<Recorder, PlanFault>
    requires { IsDeviceName device.now }
    ensures unused { IfOk result (λ recorder. recorder.events ≡ []) }
    ensures capacity { IfOk result (λ recorder. recorder.capacity ≡ bounds.depth) }
    ensures new_world { bounds.resumes ≡ false
        → IfOk result (λ recorder. StandsForHistory recorder [] (new_world device.now)) }
    ensures unread { bounds.resumes ≡ false
        → left_in I.remaining input.new ≡ left_in I.remaining input.old }
    ensures resumed { bounds.resumes ≡ true
        → IfOk result (Resumes (left_in I.remaining input.old) (left_in I.remaining input.new)) }
    ensures err { IfErr result
        (IsRecorderFault bounds (left_in I.remaining input.old) (has_failed_in input.new)) }
{
    let depth = bounds.depth;
    if depth < 1 || depth > MAX_CAPACITY {
        return Err(PlanFault::Depth);
    }
    if bounds.resumes {
        resume_from_head(alloc, input, depth)
    } else {
        new_recorder(alloc, device, depth)
    }
}

/// The validated options of `meter_server serve`: the meter, and the lines of its console.
#[derive(Drop)]
pub struct ServePlan<I> {
    /// The limits of the run.
    pub bounds: Bounds,
    /// The password of the management client.
    pub password: Octets,
    /// The recorder that the meter starts with, which has no event yet.
    pub recorder: Recorder,
    /// The lines of the console: the whole input, or what follows the trace that was read.
    pub input: BufReader<Monitored<I>>,
    ghost sized: { IsPassword password },
    ghost unused: { length recorder.events ≡ 0 },
}

/// Validates the options, and reads the trace to resume from if the options request it.
///
/// Errors, in this order: `Password` if the password does not have 1 to 32 bytes, `Device` if the
/// device name does not have 1 to 16, `Depth` if the depth is not 1 to 1,024, and those of
/// `read_head`. `Memory` can occur at any point.
#[tactic(auto, using(crate::proofs::Unused::uncounted))]
pub fn make_plan<I: Read + Drop>(
    alloc: Global,
    input: I,
    options: &ServeOptions,
) -> Result<ServePlan<I>, PlanFault>
    ensures bounds { IfOk result (λ plan. plan.bounds ≡ options.now.bounds) }
    ensures password { IfOk result (λ plan. plan.password ≡ string_bytes options.now.password) }
    ensures capacity { IfOk result (λ plan. plan.recorder.capacity ≡ options.now.bounds.depth) }
    ensures new_world { options.now.bounds.resumes ≡ false
        → IfOk result (λ plan.
        StandsForHistory plan.recorder [] (new_world (string_bytes options.now.device))) }
    ensures unread { options.now.bounds.resumes ≡ false
        → IfOk result (λ plan. left_in I.remaining plan.input ≡ I.remaining input) }
    ensures resumed { options.now.bounds.resumes ≡ true
        → IfOk result (λ plan.
        Resumes (I.remaining input) (left_in I.remaining plan.input) plan.recorder) }
    ensures err { IfErr result
        (IsPlanFault (string_bytes options.now.password) (string_bytes options.now.device)
        options.now.bounds (I.remaining input)) }
{
    let bounds = options.bounds;
    let password = option_octets(
        alloc,
        options.password.as_str(),
        MAX_PASSWORD,
        PlanFault::Password,
        PlanFault::Memory,
    )?;
    let device = option_octets(
        alloc,
        options.device.as_str(),
        MAX_DEVICE_NAME,
        PlanFault::Device,
        PlanFault::Memory,
    )?;
    let Ok(mut input) = BufReader::new(alloc, Monitored::new(input)) else {
        return Err(PlanFault::Memory);
    };
    match prepare_recorder(alloc, &device, bounds, &mut input) {
        Ok(recorder) => Ok(ServePlan {
            bounds,
            password,
            recorder,
            input,
        }),
        Err(fault) => Err(fault),
    }
}
