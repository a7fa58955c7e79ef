//! The trait of a meter that a session calls: a core, or a port of a lock that is shared by several
//! sessions.
ghost use Rattle.std.specs.Prelude.{Result, IfOk};
ghost use Rattle.session_io.specs.Meters.{CoreSteps};
ghost use Rattle.relay_events.specs.Kinds.{Fits};
ghost use Rattle.relay_events.specs.declared.event.Event.{Event};
ghost use Rattle.relay_events.specs.declared.reply.Reply.{Reply};
ghost use Rattle.turn_lock.specs.declared.call_fault.CallFault.{CallFault};

use relay_core::RelayCore;
use relay_events::{Event, Reply};
use std::alloc::Global;
use turn_lock::CallFault;

/// The meter of a session: its core, or a port to one that is shared.
pub trait Meter {
    // Ghost relation of a call: the meter before it, the event, the result, and the meter after it.
    ghost steps: { Self → Event → Result Reply CallFault → Self → Type 0 };

    /// Applies an event and returns the reply.
    fn call(&mut self, alloc: Global, event: Event) -> Result<Reply, CallFault>
        ensures step { steps self.old event result self.new }
        ensures fits { IfOk result (Fits event) };
}

/// A session's own core accepts every event, unless out of memory.
impl Meter for RelayCore {
    ghost steps = { CoreSteps };

    #[inline(always)]
    fn call(&mut self, alloc: Global, event: Event) -> Result<Reply, CallFault> {
        let reply = self.step(alloc, &event);
        drop(event);
        match reply {
            Ok(reply) => Ok(reply),
            Err(_) => Err(CallFault::Memory),
        }
    }
}
