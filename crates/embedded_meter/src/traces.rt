//! A meter as the text of a trace.
ghost use Rattle.std.specs.Prelude.{IfOk, IfErr};
ghost use Rattle.acse_ber.specs.Password.{IsPassword};
ghost use Rattle.relay_recorder.specs.Recording.{IsCapacity};
ghost use Rattle.wire_bytes.specs.Outcome.{Fails};
ghost use Rattle.trace_player.specs.RunTraces.{TellsRun};
ghost use Rattle.embedded_meter.specs.Calls.{Resumes};
ghost use Rattle.trace_words.specs.declared.fault.TraceFault.TheVariants.{Memory};
ghost use Rattle.trace_player.specs.Traces.{trace_of};

use crate::supply_meter::SupplyMeter;
use cosem_axdr::Octets;
use std::alloc::{AllocError, Global};
use trace_player::{TraceFault, read_trace, recorder_trace, resume_recorder};

impl SupplyMeter {
    /// Returns the text of the trace of the kept events. Played, it prints the lines of these
    /// events, with the replies that were given.
    pub fn export(&self, alloc: Global) -> Result<Octets, AllocError>
        ensures { IfOk result (TellsRun self.now.recorder) }
    {
        recorder_trace(alloc, self.recorder())
    }

    /// Returns a meter that continues from the end of the trace in `text`, without open sessions.
    /// It keeps the last `kept_events` events, 1 to 1,024; `password`, 1 to 32 bytes, is that of
    /// the management client. Errors: the fault of a text that is not a trace, or `Memory`.
    pub fn resume(
        alloc: Global,
        text: &[u8],
        password: &Octets,
        kept_events: u16,
    ) -> Result<SupplyMeter, TraceFault>
        requires password { IsPassword password.now }
        requires kept { IsCapacity kept_events }
        ensures resumed { IfOk result (Resumes text.now password.now kept_events) }
        ensures fault { IfErr result (λ fault. Fails Memory fault (trace_of text.now)) }
    {
        let password = password.try_clone(alloc)?;
        let trace = read_trace(alloc, text)?;
        let recorder = resume_recorder(alloc, &trace, kept_events);
        drop(trace);
        match recorder {
            Ok(recorder) => Ok(SupplyMeter::from_recorder(recorder, password)),
            Err(_) => Err(TraceFault::Memory),
        }
    }
}
