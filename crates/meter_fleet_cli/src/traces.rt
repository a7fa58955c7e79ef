//! The traces that meters continue from.
use cosem_axdr::Octets;
use counted_io::{Counted, InputFault, read_to_end_within};
use program::Fault;
use std::alloc::{AllocError, Global};
use std::fs::File;
use trace_player::{MAX_BYTES, TraceFault};

// The trace of a new meter METERFLEET, around the number of its control mode.
const TRACE_START: &[u8] = b"RELAYTRACE 1
device 4D45544552464C454554
state 1
mode ";

// The trace of a new meter after the number of its control mode: without limits, scripts,
// schedules, a moment or events.
const TRACE_END: &[u8] = b"
value 0
now -
normal 4294967295
emergency 4294967295
minover 0
minunder 0
profile 0 FFFFFFFFFFFFFFFFFF8000FF 0
groups
actions 0 0
over 0 0
under 0 0
scripts 0100
schedule 0 0 5 0100
schedule 1 0 5 0100
schedule 2 0 5 0100
schedule 3 0 5 0100
events 0
";

// The digits of the control modes.
const MODES: &[u8; 7] = b"0123456";

// Returns the trace of a new meter in a control mode of 0 to 6.
pub(crate) fn trace_in_mode(alloc: Global, mode: u8) -> Result<Octets, AllocError> {
    let mut trace = Octets::new(alloc);
    trace.extend_from_slice(TRACE_START)?;
    if let Some(digit) = MODES.get(usize::from(mode)) {
        trace.push(*digit)?;
    }
    trace.extend_from_slice(TRACE_END)?;
    Ok(trace)
}

// Returns the text of a file. Errors: `Read`, `TooLong`, `Memory`.
fn read_file(rt: &HostRuntime, path: &str) -> Result<Octets, InputFault> {
    let Ok(file) = File::open(rt, path) else {
        return Err(InputFault::Read);
    };
    let text = read_to_end_within(rt.alloc(), &mut Counted::new(&file), MAX_BYTES)?;
    Ok(Octets::from_vec(text))
}

// Returns the text of the file that meters resume from. Errors: `Read`, with a line on standard
// error; `Input` if it is too long; `Memory`.
pub(crate) fn read_trace_file(rt: &HostRuntime, path: &str) -> Result<Octets, Fault> {
    match read_file(rt, path) {
        Ok(text) => Ok(text),
        Err(InputFault::Read) => {
            let _ = eprintln!(rt; "{path}: the file can't be read");
            Err(Fault::Read)
        }
        Err(InputFault::TooLong) => Err(report_wrong_trace(rt, path, TraceFault::TooLong)),
        Err(InputFault::Memory) => Err(Fault::Memory),
    }
}

// Reports on standard error why a file is not a trace, and returns the program's fault.
pub(crate) fn report_wrong_trace(rt: &HostRuntime, path: &str, fault: TraceFault) -> Fault {
    if fault == TraceFault::Memory {
        return Fault::Memory;
    }
    let _ = eprintln!(rt; "{path}: {fault}");
    Fault::Input
}
