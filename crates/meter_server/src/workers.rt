//! The worker of a source of the meter's own events.
use port_threads::Worker;
use shared_meter::{EventSource, Kept, run_source};
use std::alloc::Global;
use std::sync::Wait;
use turn_lock::{CallFault, Port};

// Passes the events of a source to the meter.
#[derive(Drop)]
pub(crate) struct SourceWorker<S> {
    pub(crate) source: S,
}

impl<S: EventSource + Send> Worker<Port<Kept>> for SourceWorker<S> {
    ghost use Rattle.std.specs.Prelude.{IfErr, OnOk};
    ghost use Rattle.turn_lock.specs.Shown.{IsSame};
    ghost use Rattle.shared_meter.specs.Handed.{PassesAll, StopsFor};

    type End = Result<(), CallFault>;

    ghost did = { λ worker p q end. IsSame p q
        × OnOk end (PassesAll (S.can_follow worker.source) p q)
        × IfErr end (StopsFor q) };

    fn work<W: Wait>(
        self,
        rt: &W,
        alloc: Global,
        port: Port<Kept>,
    ) -> (Port<Kept>, Result<(), CallFault>) {
        let SourceWorker { source } = self;
        run_source(rt, alloc, source, port)
    }
}
