//! `Recorder`: a core with its last events, at most 1,024, and the core as it was before them, from
//! which a trace is made.
ghost use Rattle.std.specs.Prelude.{◌≡◌, ◌<◌, ◌≤◌, [], ◌∷◌, ◌++◌, length, slice_get, IfOk, IsOk, IsTrue, OnOk, OnErr, Some};
ghost use Rattle.circular_buffer.specs.Buffer.{keep_last};
ghost use Rattle.relay_core.specs.Machine.{is_sure};
ghost use Rattle.relay_events.specs.Kinds.{Fits};
ghost use Rattle.relay_core.specs.Agreeing.{Agree};
ghost use Rattle.relay_core.specs.Opening.{world_of_opening, opening_of, IsFitOpening};
ghost use Rattle.relay_core.specs.Stands.{StandsFor};
ghost use Rattle.relay_core.specs.World.{World, IsDeviceName, new_world};
ghost use Rattle.relay_recorder.specs.Histories.{StandsForHistory, HasHistory, Continues};
ghost use Rattle.relay_recorder.specs.Recording.{IsCapacity, max_capacity};
ghost use Rattle.relay_recorder.specs.Replaying.{Replays};

use crate::kept::{RecordedEvent, Ring};
use crate::trace::Trace;
use circular_buffer::HeapCircularBuffer;
use cosem_axdr::Octets;
use relay_core::RelayCore;
use relay_events::{Event, Events, Reply};
use std::alloc::{AllocError, Global};
use std::marker::Model;

/// The greatest capacity of a recorder: the number of events that it keeps.
pub const MAX_CAPACITY: u16 = 1024;

/// A core, the last events that it took, and the core as it was before them.
#[derive(Debug, Drop)]
pub struct Recorder {
    core: RelayCore,
    opening: RelayCore,
    kept: Ring,
}

impl Model for Recorder {
    ghost use Rattle.std.specs.Coded.{codes};
    ghost use Rattle.relay_events.specs.contracts.event.Event as event_row;
    ghost use Rattle.relay_core.specs.contracts.relay.RelayCore as core_row;
    ghost use Rattle.relay_recorder.specs.Histories.{HasHistory};
    ghost use Rattle.relay_recorder.specs.Recording.{Recording, IsRecording, recording};

    ghost Value = { Recording };

    ghost coded = { Prim.hlevel (codes, core_row.the_row.coded, event_row.the_row.coded) };

    ghost view = { λ r. recording r.core r.opening r.kept };

    ghost invariant = { λ r. IsRecording (recording r.core r.opening r.kept)
        × HasHistory (recording r.core r.opening r.kept) };
}

impl Recorder {
    /// Makes a recorder of a new meter. `device` is the logical device name, 1 to 16 bytes;
    /// `capacity`, 1 to 1,024, is the number of events it keeps. Allocates all memory for these
    /// events.
    pub fn new(alloc: Global, device: &Octets, capacity: u16) -> Result<Recorder, AllocError>
        requires device { IsDeviceName device.now }
        requires capacity { IsCapacity capacity }
        ensures history { IfOk result
            (λ recorder. StandsForHistory recorder [] (new_world device.now)) }
        ensures empty { IfOk result (λ recorder. recorder.events ≡ []) }
        ensures capacity { IfOk result (λ recorder. recorder.capacity ≡ capacity) }
    {
        let core = RelayCore::new(alloc, device)?;
        Recorder::from_core(alloc, core, capacity)
    }

    /// Makes a recorder, without events, that continues from this core. `capacity`, 1 to 1,024, is
    /// the number of events it keeps. Allocates all memory for these events. If out of memory,
    /// drops the core.
    pub fn from_core(alloc: Global, core: RelayCore, capacity: u16) -> Result<Recorder, AllocError>
        requires { IsCapacity capacity }
        ensures core { IfOk result (λ recorder. recorder.core ≡ core) }
        ensures opening { IfOk result (λ recorder. recorder.opening ≡ core) }
        ensures empty { IfOk result (λ recorder. recorder.events ≡ []) }
        ensures capacity { IfOk result (λ recorder. recorder.capacity ≡ capacity) }
        ensures history { IfOk result (λ recorder. (w : World) → StandsFor core w
            → StandsForHistory recorder [] w) }
    {
        // (no effect: the contract needs this law)
        core.stands_for_its_opening();
        match core.try_copy(alloc) {
            Ok(opening) => match HeapCircularBuffer::with_capacity(alloc, usize::from(capacity)) {
                Ok(kept) => Ok(Recorder {
                    core,
                    opening,
                    kept,
                }),
                Err(error) => {
                    drop(core);
                    drop(opening);
                    Err(error.into())
                }
            },
            Err(error) => {
                drop(core);
                Err(error)
            }
        }
    }

    /// Applies an event, keeps it and returns the reply. If `capacity` events are kept already,
    /// removes the oldest and applies it to the opening core. If out of memory, nothing has
    /// changed, as if the event had not arrived. A sure event never runs out of memory.
    pub fn apply(&mut self, alloc: Global, event: Event) -> Result<Reply, AllocError>
        ensures history { IfOk result (Continues self.old self.new event) }
        ensures kept { OnOk result (self.new.events
            ≡ keep_last self.old.capacity (self.old.events ++ event ∷ [])) }
        ensures capacity { self.new.capacity ≡ self.old.capacity }
        ensures fits { IfOk result (Fits event) }
        ensures sure { IsTrue (is_sure event) → IsOk result }
        ensures err { OnErr result (self.new ≡ self.old) }
    {
        let (reply, parts) = self.core.step_with_parts(alloc, &event)?;
        let newest = RecordedEvent { event, parts };
        if let Some(oldest) = self.kept.push_back(newest) {
            oldest.advance(&mut self.opening);
        }
        Ok(reply)
    }

    /// Proves that the recorder results from some history. Does nothing at run time.
    pub fn has_a_history(&self)
        ensures { HasHistory self.now }
    {
        let _core = &self.core;
    }

    /// Returns the current core.
    pub fn core(&self) -> &RelayCore
        ensures { result.now ≡ self.now.core }
    {
        &self.core
    }

    /// Returns the core as it was before the first kept event: the current core while no event is
    /// kept.
    pub fn opening(&self) -> &RelayCore
        ensures opening { result.now ≡ self.now.opening }
        ensures unused { self.now.events ≡ [] → result.now ≡ self.now.core }
    {
        &self.opening
    }

    /// Returns the number of kept events.
    pub fn count(&self) -> u16
        ensures count { result ≡ length self.now.events }
        ensures within { result ≤ self.now.capacity }
        ensures within_max { self.now.capacity ≤ max_capacity }
    {
        self.kept.len() as u16
    }

    /// Returns the kept event at index `i`; the oldest is at 0.
    pub fn event(&self, i: u16) -> &Event
        requires { i < length self.now.events }
        ensures { slice_get self.now.events i ≡ Some result.now }
    {
        self.kept.get(usize::from(i)).unwrap().event()
    }

    // Returns copies of the kept events, in order.
    fn copy_events(&self, alloc: Global) -> Result<Events, AllocError>
        ensures { IfOk result (λ events. events ≡ self.now.events) }
    {
        let mut events = Events::new(alloc);
        'events: for i in 0..self.count() {
            events.push(self.event(i).try_copy(alloc)?)?;
        }
        Ok(events)
    }

    /// Exports a trace: the opening (the saved state of the core before the kept events) and copies
    /// of these events. Run from that opening, the events give the same lines as in every history
    /// that the recorder may have, with the replies that [`apply`](Recorder::apply) returned. The
    /// opening's state cannot be distinguished from the state that the core before the kept events
    /// was in. Fails if out of memory.
    pub fn export(&self, alloc: Global) -> Result<Trace, AllocError>
        ensures opening { IfOk result (λ trace. trace.opening ≡ opening_of self.now.opening) }
        ensures fit { IfOk result (λ trace. IsFitOpening trace.opening) }
        ensures agrees { IfOk result (λ trace. (w : World) → StandsFor self.now.opening w
            → Agree (world_of_opening trace.opening) w) }
        ensures within_max { IfOk result (λ trace. length trace.events ≤ max_capacity) }
        ensures events { IfOk result (λ trace. trace.events ≡ self.now.events) }
        ensures replays { IfOk result (λ trace. Replays self.now (world_of_opening trace.opening)) }
    {
        let events = self.copy_events(alloc)?;
        Ok(Trace {
            opening: self.opening.to_opening(alloc)?,
            events,
        })
    }
}
