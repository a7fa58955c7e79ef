//! `Kept`: a recorder as the value of a turn lock, which applies one event at each turn, and the
//! lines of its journal.
ghost use Rattle.std.specs.Prelude.{◌≡◌, ℕ, ◌+◌, List, [], ◌++◌, None, Some, IfOk, OnOk, OnErr};
ghost use Rattle.relay_core.specs.Machine.{at_event};
ghost use Rattle.relay_core.specs.Opening.{opening_of};
ghost use Rattle.relay_core.specs.Stands.{StandsFor};
ghost use Rattle.relay_core.specs.World.{World};
ghost use Rattle.relay_recorder.specs.Histories.{Continues};
ghost use Rattle.shared_meter.specs.Calls.{Finds, HasCalls, IsLegal, IsSure, Stands};
ghost use Rattle.shared_meter.specs.Pending.{Answers, Pends, PendsIn, event_lines};
ghost use Rattle.shared_meter.specs.Switching.{change, is_on};

use crate::pending::{Finding, PendingLines, Question, line_text};
use relay_core::{Opening, RelayCore};
use relay_events::{Event, Reply};
use relay_recorder::Recorder;
use std::alloc::{AllocError, Global};
use std::marker::Model;
use std::snapshot::Snapshot;
use turn_lock::{Inspected, Turned};

/// A recorder that can be the value of a turn lock.
///
/// Contracts see the recorder, the origin of its history (the saved state of its core when this
/// value was made), and the lines of its journal that were not taken yet.
#[derive(Drop)]
pub struct Kept {
    recorder: Recorder,
    start: Snapshot<RelayCore>,
    pending: Option<PendingLines>,
}

impl Model for Kept {
    ghost use Rattle.std.specs.Coded.{codes};
    ghost use Rattle.relay_events.specs.contracts.event.Event as event_row;
    ghost use Rattle.relay_core.specs.contracts.opening.Opening as opening_row;
    ghost use Rattle.relay_core.specs.contracts.relay.RelayCore as core_row;
    ghost use Rattle.relay_core.specs.Opening.{opening_of};
    ghost use Rattle.shared_meter.specs.Calls.{HasCalls};
    ghost use Rattle.shared_meter.specs.KeptRecorder.{KeptRecorder};

    ghost Value = { KeptRecorder };

    ghost coded = { Prim.hlevel (
      codes,
      core_row.the_row.coded,
      event_row.the_row.coded,
      opening_row.the_row.coded,
    ) };

    ghost view = { λ k. record {
      recorder = k.recorder;
      origin = opening_of k.start.value;
      pending = k.pending;
    } };

    ghost invariant = { λ k. HasCalls (record {
      recorder = k.recorder;
      origin = opening_of k.start.value;
      pending = k.pending;
    }) };
}

impl Kept {
    /// Wraps a recorder that has no events, of a new meter or of one that continues from an
    /// opening. It has no journal. Does not allocate.
    pub fn new(recorder: Recorder) -> Kept
        requires { recorder.events ≡ [] }
        ensures recorder { result.recorder ≡ recorder }
        ensures origin { result.origin ≡ opening_of recorder.core }
        ensures pending { result.pending ≡ None }
        ensures empty { Stands result [] }
    {
        Kept::with(recorder, None)
    }

    /// Wraps a recorder that has no events, and a journal that has no lines. Each event that may
    /// change the meter is noted in it. Does not allocate.
    pub fn with_journal(recorder: Recorder, pending: PendingLines) -> Kept
        requires recorder { recorder.events ≡ [] }
        requires pending { Pends pending [] 0 }
        ensures recorder { result.recorder ≡ recorder }
        ensures origin { result.origin ≡ opening_of recorder.core }
        ensures pending { result.pending ≡ Some pending }
        ensures empty { Stands result [] }
    {
        Kept::with(recorder, Some(pending))
    }

    // Wraps a recorder and its journal, if it has one.
    fn with(recorder: Recorder, pending: Option<PendingLines>) -> Kept
        requires recorder { recorder.events ≡ [] }
        requires pending { PendsIn pending [] 0 }
        ensures recorder { result.recorder ≡ recorder }
        ensures origin { result.origin ≡ opening_of recorder.core }
        ensures pending { result.pending ≡ pending }
        ensures empty { Stands result [] }
    {
        let start = Snapshot::of(recorder.core());
        recorder.core().stands_for_its_opening();
        let _opening = recorder.opening();
        Kept {
            recorder,
            start,
            pending,
        }
    }

    /// Proves that there are calls that the recorder results from. Does nothing at run time.
    pub fn has_calls(&self)
        ensures { HasCalls self.now }
    {
        let _recorder = &self.recorder;
    }

    /// Returns the recorder.
    pub fn recorder(&self) -> &Recorder
        ensures { result.now ≡ self.now.recorder }
    {
        &self.recorder
    }

    /// Consumes the wrapper and returns the recorder.
    pub fn into_recorder(self) -> Recorder
        ensures { result ≡ self.recorder }
    {
        let Kept {
            recorder,
            start: _,
            pending: _,
        } = self;
        recorder
    }
}

impl Turned for Kept {
    type Event = Event;

    type Reply = Reply;

    type Origin = Opening;

    ghost origin = { λ kept. kept.origin };

    ghost legal = { IsLegal };

    ghost stands = { Stands };

    ghost sure = { IsSure };

    fn turn(&mut self, alloc: Global, event: Event) -> Result<Reply, AllocError> {
        match &mut self.pending {
            Some(pending) => apply_and_note(alloc, &mut self.recorder, pending, event),
            None => self.recorder.apply(alloc, event),
        }
    }

    ghost is_legal = { λ kept calls stands. stands.history.legal };
}

impl Inspected for Kept {
    type Question = Question;

    type Finding = Finding;

    ghost finds = { Finds };

    fn inspect(&mut self, _alloc: Global, question: Question) -> Finding {
        find(&mut self.pending, question)
    }
}

// Answers a question about the lines of a meter that may have a journal.
fn find(pending: &mut Option<PendingLines>, question: Question) -> Finding
    ensures preserved { (lines : List (List ℕ)) (switches : ℕ)
        → PendsIn pending.old lines switches → PendsIn pending.new lines switches }
    ensures answers { (lines : List (List ℕ)) (switches : ℕ) → PendsIn pending.old lines switches
        → Answers lines switches question result }
{
    match pending {
        Some(pending) => pending.answer(question),
        None => Finding::Incomplete,
    }
}

// Applies an event, notes its line if it may change the meter, and returns the reply. If out of
// memory for the event, nothing is noted; if out of memory for the line, the line is lost.
fn apply_and_note(
    alloc: Global,
    recorder: &mut Recorder,
    pending: &mut PendingLines,
    event: Event,
) -> Result<Reply, AllocError>
    ensures history { IfOk result (Continues recorder.old recorder.new event) }
    ensures noted { OnOk result ((w : World) → StandsFor recorder.old.core w
        → StandsFor recorder.new.core (at_event event w).world
        → (lines : List (List ℕ)) (switches : ℕ) → Pends pending.old lines switches
        → Pends pending.new (lines ++ event_lines event)
        (switches + change (is_on w) (is_on (at_event event w).world))) }
    ensures err { OnErr result ((recorder.new ≡ recorder.old) × (pending.new ≡ pending.old)) }
    ensures unsure { OnErr result (¬ IsSure event) }
{
    if event.is_read() {
        return recorder.apply(alloc, event);
    }
    let text = line_text(alloc, &event);
    let before = recorder.core().output();
    let reply = recorder.apply(alloc, event)?;
    pending.note(text, (before, recorder.core().output()));
    Ok(reply)
}
