//! Applies events to the core: one with its reply, one without allocating, or a list with a line
//! for each.
ghost use Rattle.std.specs.Prelude.{◌≡◌, IfOk, IfErr, IsOk, IsTrue, OnOk, OnErr};
ghost use Rattle.relay_core.specs.World.{World};
ghost use Rattle.relay_core.specs.Stands.{StandsFor};
ghost use Rattle.relay_core.specs.Machine.{at_event, is_sure};
ghost use Rattle.relay_events.specs.Kinds.{is_read, Fits};
ghost use Rattle.relay_core.specs.Moving.{parts_of};
ghost use Rattle.relay_core.specs.Runs.{line_at, Runs, StopsEarly};

use crate::access::write_target;
use crate::parts::{Parts, WrittenList, read_parts};
use crate::relay::RelayCore;
use cosem_names::GetResult;
use relay_events::{Event, Events, Line, Lines, Reply};
use std::alloc::{AllocError, Global};
use thiserror::Error;

impl RelayCore {
    /// Applies an event and returns the reply. An event that only reads leaves the core unchanged.
    /// If out of memory, the core is unchanged too, as if the event had not arrived.
    #[tactic(auto, unfolding(crate::specs::Machine::at_event, crate::specs::Machine::is_sure))]
    pub fn step(&mut self, alloc: Global, event: &Event) -> Result<Reply, AllocError>
        ensures world { OnOk result ((w : World) → StandsFor self.old w
            → StandsFor self.new (at_event event.now w).world) }
        ensures reply { IfOk result (λ reply. (w : World) → StandsFor self.old w
            → reply ≡ (at_event event.now w).reply) }
        ensures fits { IfOk result (Fits event.now) }
        ensures sure { IsTrue (is_sure event.now) → IsOk result }
        ensures read { IsTrue (is_read event.now) → self.new ≡ self.old }
        ensures err { OnErr result (self.new ≡ self.old) }
    {
        match event {
            Event::Get {
                level,
                attr,
                selected,
            } => match self.get(alloc, *level, attr, *selected)? {
                GetResult::Value(data) => Ok(Reply::Value(data)),
                GetResult::Code(code) => Ok(Reply::Code(code)),
            },
            Event::GetList { level, items } => {
                let results = self.get_list(alloc, *level, items.as_slice())?;
                Ok(Reply::Values(results))
            }
            Event::Set {
                level,
                attr,
                selected,
                value,
            } => {
                let code = self.set(alloc, *level, attr, *selected, value)?;
                Ok(Reply::Code(code))
            }
            Event::Execute {
                level,
                method,
                parameter,
            } => Ok(Reply::Code(self.execute(*level, method, parameter))),
            Event::Button => Ok(Reply::Code(self.press())),
            Event::Samples(block) => Ok(self.take_block(block)),
            Event::Moment(now) => Ok(self.tick(*now)),
        }
    }
}

impl RelayCore {
    /// Applies an event as [`step`](RelayCore::step) does, and returns with the reply the list that
    /// the event's write stores, as [`parts`](RelayCore::parts) decodes it. The object of a SET is
    /// sought once. If out of memory, the core is unchanged, as if the event had not arrived.
    #[tactic(auto, unfolding(crate::specs::Machine::at_event, crate::specs::Machine::is_sure, crate::specs::Writing::at_set, crate::specs::Writing::at_write, crate::specs::Moving::set_parts, crate::specs::Memory::writes_plainly))]
    pub fn step_with_parts(
        &mut self,
        alloc: Global,
        event: &Event,
    ) -> Result<(Reply, Parts), AllocError>
        ensures world { OnOk result ((w : World) → StandsFor self.old w
            → StandsFor self.new (at_event event.now w).world) }
        ensures reply { IfOk result (λ stepped. (w : World) → StandsFor self.old w
            → stepped.0 ≡ (at_event event.now w).reply) }
        ensures parts { IfOk result (λ stepped. stepped.1 ≡ parts_of event.now) }
        ensures fits { IfOk result (λ stepped. Fits event.now stepped.0) }
        ensures sure { IsTrue (is_sure event.now) → IsOk result }
        ensures err { OnErr result (self.new ≡ self.old) }
    {
        let Event::Set {
            level,
            attr,
            selected,
            value,
        } = event
        else {
            let reply = self.step(alloc, event)?;
            return Ok((reply, Parts::Plain));
        };
        let instance = match write_target(*level, attr, *selected) {
            Ok(instance) => instance,
            Err(refusal) => return Ok((Reply::Code(refusal), Parts::Plain)),
        };
        if WrittenList::new(instance, attr.number).is_none() {
            let code = self.write_plain(instance, attr.number, value);
            return Ok((Reply::Code(code), Parts::Plain));
        }
        let parts = read_parts(alloc, instance, attr.number, value)?;
        match self.write(alloc, instance, attr.number, value) {
            Ok(code) => Ok((Reply::Code(code), parts)),
            Err(error) => {
                drop(parts);
                Err(error)
            }
        }
    }

    /// Applies an event whose list, if it writes one, was decoded before; returns no reply. Does
    /// not allocate.
    #[tactic(auto, unfolding(crate::specs::Machine::at_event))]
    pub fn advance(&mut self, event: &Event, parts: Parts)
        requires { parts ≡ parts_of event.now }
        ensures { (w : World) → StandsFor self.old w
            → StandsFor self.new (at_event event.now w).world }
    {
        match event {
            Event::Get { .. } | Event::GetList { .. } => drop(parts),
            Event::Set {
                level,
                attr,
                selected,
                value,
            } => self.set_by(*level, attr, *selected, value, parts),
            Event::Execute {
                level,
                method,
                parameter,
            } => {
                drop(parts);
                let _code = self.execute(*level, method, parameter);
            }
            Event::Button => {
                drop(parts);
                let _code = self.press();
            }
            Event::Samples(block) => {
                drop(parts);
                drop(self.take_block(block));
            }
            Event::Moment(now) => {
                drop(parts);
                drop(self.tick(*now));
            }
        }
    }
}

/// The error of a run that ran out of memory: the lines of the events before it stopped. The core
/// has taken exactly these events.
#[derive(Debug, Drop, Error)]
#[error("out of memory after {} events", .done.len())]
pub struct RunStop {
    /// The lines of the events before the one that needed memory.
    pub done: Lines,
}

/// Applies an event and returns its line: the reply, and the switch's state and output after it. If
/// out of memory, the core is unchanged, as if the event had not arrived.
pub fn step_to_line(alloc: Global, core: &mut RelayCore, event: &Event) -> Result<Line, AllocError>
    ensures world { OnOk result ((w : World) → StandsFor core.old w
        → StandsFor core.new (at_event event.now w).world) }
    ensures line { IfOk result (λ line. (w : World) → StandsFor core.old w
        → line ≡ line_at event.now w) }
    ensures sure { IsTrue (is_sure event.now) → IsOk result }
    ensures err { OnErr result (core.new ≡ core.old) }
{
    let reply = core.step(alloc, event)?;
    Ok(Line {
        reply,
        state: core.state(),
        output: core.output(),
    })
}

/// Applies events one after the other. The line of each has its reply, and the state and the supply
/// output after it. So for every interleaving of remote calls, button presses, sample blocks and
/// clock moments, each line is what the mode and transition tables and the limiters' rules over all
/// samples so far say.
///
/// If out of memory, the run stops before the event that needed it, or before the first event.
pub fn run(alloc: Global, core: &mut RelayCore, events: &Events) -> Result<Lines, RunStop>
    ensures ok { IfOk result (λ lines. Runs core.old core.new events.now lines) }
    ensures stop { IfErr result (λ stop. StopsEarly core.old core.new events.now stop.done) }
{
    let Ok(mut lines) = Vec::with_capacity(alloc, events.len()) else {
        return Err(RunStop {
            done: Lines::new(alloc),
        });
    };
    'events: for event in events.as_slice() {
        match step_to_line(alloc, core, event) {
            Ok(line) => lines.push(line).unwrap(),
            Err(_) => return Err(RunStop {
                done: Lines::from_vec(lines),
            }),
        }
    }
    Ok(Lines::from_vec(lines))
}
